// The words of a caller.
ghost use Rattle.std.specs.Prelude.{◌≡◌, ◌<◌, ◌==◌, ◌++◌, ◌∷◌, false, All, Err, IfOk, MatchOption, position};
ghost use Rattle.pc_words.specs.Words.{texts};
ghost use Rattle.pc_c.specs.declared.words.NoWords.{NoWords};
ghost use Rattle.pc_c.specs.Words.{SpellsNoWords, SpellsWords};

use crate::status::{NO_MEMORY, NO_WORDS};
use std::alloc::{AllocError, AllocFailed, Global};

/// Why there are no words.
#[derive(Clone, Copy, Debug, PartialEq, Eq)]
pub(crate) enum NoWords {
    /// A word is not UTF-8, or the last one has no NUL byte behind it.
    Unspelled,
    /// There is not enough memory for them.
    NoMemory,
}

impl NoWords {
    /// The status of a call that has no words.
    pub(crate) fn status(self) -> u8
        ensures unspelled { self ≡ NoWords.Unspelled → result ≡ 6 }
        ensures no_memory { self ≡ NoWords.NoMemory → result ≡ 5 }
    {
        match self {
            NoWords::Unspelled => NO_WORDS,
            NoWords::NoMemory => NO_MEMORY,
        }
    }
}

impl From<AllocError> for NoWords {
    ghost from_gives = { λ _ e. e ≡ NoWords.NoMemory };

    fn from(_error: AllocError) -> NoWords {
        NoWords::NoMemory
    }
}

impl<T: Drop> From<AllocFailed<T>> for NoWords {
    ghost from_gives = { λ _ e. e ≡ NoWords.NoMemory };

    fn from(_error: AllocFailed<T>) -> NoWords {
        NoWords::NoMemory
    }
}

/// The bytes before the first NUL byte, and those behind it. `None` exactly if there is no NUL byte.
#[tactic(auto, using(crate::proofs::NulLemmas::nul_there, crate::proofs::NulLemmas::nul_nowhere))]
fn cut_at_nul(text: &[u8]) -> Option<(&[u8], &[u8])>
    ensures { MatchOption result (All (λ byte. (byte == 0) ≡ false) text.now)
        (λ cut. (text.now ≡ cut.0.now ++ 0 ∷ cut.1.now) × All (λ byte. (byte == 0) ≡ false) cut.0.now) }
{
    let at = text.iter().position(|byte| *byte == 0)?;
    Some((&text[..at], &text[at + 1..]))
}

/// The words that a text spells. A NUL byte ends each word.
pub(crate) fn words_in(alloc: Global, text: &[u8]) -> Result<Vec<String>, NoWords>
    ensures spelled { IfOk result (λ words. SpellsWords text.now (texts words.items)) }
    ensures unspelled { result ≡ Err NoWords.Unspelled → SpellsNoWords text.now }
{
    let mut words = Vec::new(alloc);
    let mut rest = text;
    while !rest.is_empty() {
        let (word, behind) = match cut_at_nul(rest) {
            Some(cut) => cut,
            None => return Err(NoWords::Unspelled),
        };
        let word = match str::from_utf8(word) {
            Ok(word) => word,
            Err(_) => return Err(NoWords::Unspelled),
        };
        words.push(String::from_str(alloc, word)?)?;
        rest = behind;
    }
    Ok(words)
}
