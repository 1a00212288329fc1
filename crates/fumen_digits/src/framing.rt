// The text around the digits: the prefix, the line breaks and the end.
ghost use Rattle.std.specs.Prelude.{◌≡◌, ◌≤◌, ◌↔◌, length, None, Some, Ok, IfOk, IsSome, IsTrue};
ghost use Rattle.std.specs.Option.{option_map};
ghost use Rattle.fumen_digits.specs.declared.dialect.Dialect.{Dialect};
ghost use Rattle.fumen_digits.specs.Framing.{begins_line, broken, dialect_at, digits_in, has_prefix, is_dropped, digits_behind, version};

use crate::dialect::Dialect;
use pc_outside::NoMemory;
use std::alloc::Global;

/// The dialect and the digits of a fumen text. `None` if it has none of the six prefixes.
///
/// The first place of any of `v110@`, `m110@`, `d110@`, `v115@`, `m115@` and `d115@` decides. The text behind it goes
/// to the first `&` or to the end. Its bytes 9 to 13, 32 and `?` are dropped. The other bytes are kept as they are;
/// they may include bytes that are not digits.
pub fn digits_of(alloc: Global, text: &[u8]) -> Result<Option<(Dialect, Vec<u8>)>, NoMemory>
    ensures found { IfOk result (λ found. option_map (λ x. (x.0, x.1.items)) found ≡ digits_in text.now) }

    // Memory cannot run out for a text without a prefix.
    ensures none { (result ≡ Ok None) ↔ (digits_in text.now ≡ None) }
{
    for place in 0..text.len() {
        let rest = &text[place..];
        if let Some(dialect) = dialect_at(rest) {
            return Ok(Some((dialect, digits_behind(alloc, &rest[5..])?)));
        }
    }
    Ok(None)
}

/// The dialect of the prefix that a text begins with.
fn dialect_at(text: &[u8]) -> Option<Dialect>
    ensures value { result ≡ dialect_at text.now }
    ensures room { IsSome result → 5 ≤ length text.now }
{
    if has_prefix(Dialect::V110, text) {
        return Some(Dialect::V110);
    }
    if has_prefix(Dialect::V115, text) {
        return Some(Dialect::V115);
    }
    None
}

fn has_prefix(dialect: Dialect, text: &[u8]) -> bool
    ensures value { result ≡ has_prefix dialect text.now }
    ensures room { IsTrue result → 5 ≤ length text.now }
{
    match text {
        [letter, rest @ ..] => {
            matches!(letter, b'v' | b'm' | b'd') && rest.starts_with(version(dialect))
        }
        [] => false,
    }
}

/// The bytes behind the letter of a prefix.
fn version(dialect: Dialect) -> &'static [u8]
    ensures { result.now ≡ version dialect }
{
    match dialect {
        Dialect::V110 => b"110@",
        Dialect::V115 => b"115@",
    }
}

fn is_dropped(byte: u8) -> bool
    ensures { result ≡ is_dropped byte }
{
    matches!(byte, 9..=13 | b' ' | b'?')
}

/// The digits of the text behind a prefix.
#[tactic(auto, unfolding(crate::specs::Framing::digits_behind))]
fn digits_behind(alloc: Global, text: &[u8]) -> Result<Vec<u8>, NoMemory>
    ensures { IfOk result (λ digits. digits.items ≡ digits_behind text.now) }
{
    let digits = text
        .iter()
        .copied()
        .take_while(|byte| *byte != b'&')
        .filter(|byte| !is_dropped(*byte))
        .collect(alloc)?;
    Ok(digits)
}

/// The text of some digits: `v110@` or `v115@`, then the digits with a `?` after the first 42 and after every further
/// 47, but never as the last character.
#[tactic(auto, unfolding(crate::specs::Framing::broken))]
pub fn break_lines(alloc: Global, dialect: Dialect, digits: &[u8]) -> Result<Vec<u8>, NoMemory>
    ensures { IfOk result (λ text. text.items ≡ broken dialect digits.now) }
{
    let mut text = Vec::new(alloc);
    text.push(b'v')?;
    text.extend_from_slice(version(dialect))?;
    for (place, digit) in digits.iter().enumerate() {
        if begins_line(place) {
            text.push(b'?')?;
        }
        text.push(*digit)?;
    }
    Ok(text)
}

/// Whether a line begins at this digit.
fn begins_line(place: usize) -> bool
    ensures { result ≡ begins_line place }
{
    place >= 42 && (place - 42) % 47 == 0
}
