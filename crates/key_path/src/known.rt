// Key words that were found before, under the offsets of the Super Rotation System.
ghost use Rattle.std.specs.Prelude.{◌≡◌, Some, IfSome, true};
ghost use Rattle.srs.specs.Kick.{srs_table};
ghost use Rattle.well.specs.Well.{filled};
ghost use Rattle.key_path.specs.LeastKeyWord.{least_key_word};

use crate::finder::KeyWord;
use arrayvec::ArrayVec;
use fact_table::FactTable;
use moves::{DropMode, Key};
use pc_outside::NoMemory;
use srs::Placement;
use std::alloc::Global;
use well::Well;

/// The most words that are kept.
const ROOM: usize = 8192;

/// A kept word. It has at most 40 keys.
type ShortWord = ArrayVec<Key, 40>;

/// A placement in a well, and its least key word there.
#[derive(Drop)]
pub(crate) struct Found {
    well: Well,
    target: Placement,
    drop_mode: DropMode,
    word: ShortWord,
    ghost named: { least_key_word srs_table (filled well) drop_mode target ≡ Some word.items },
}

impl Found {
    ghost use Rattle.std.specs.Prelude.{true};
    ghost use Rattle.key_path.specs.Known.{AsksFor};

    /// Whether this is the answer for the placement, the well and the drop mode.
    fn is_for(&self, well: &Well, target: &Placement, drop_mode: DropMode) -> bool
        ensures { result ≡ true → AsksFor self.now (filled well.now) drop_mode target.now }
    {
        if !self.has_target(target, drop_mode) {
            return false;
        }
        is_same_well(&self.well, well)
    }

    /// Whether this is the answer for the placement and the drop mode, whatever the well.
    fn has_target(&self, target: &Placement, drop_mode: DropMode) -> bool
        ensures target { result ≡ true → self.now.target ≡ target.now }
        ensures mode { result ≡ true → self.now.drop_mode ≡ drop_mode }
    {
        self.target == *target && self.drop_mode == drop_mode
    }

    /// The key word.
    fn key_word(&self) -> KeyWord
        ensures { result.items ≡ self.now.word.items }
    {
        let mut word = KeyWord::new();
        word.try_extend_from_slice(self.word.as_slice()).unwrap();
        word
    }
}

/// Whether the wells have the same cells.
fn is_same_well(well: &Well, other: &Well) -> bool
    ensures { result ≡ true → filled well.now ≡ filled other.now }
{
    well.board().equal(&other.board())
}

/// A number that differs for most questions.
fn hash_of(well: &Well, target: &Placement) -> u64 {
    let board = well.board();
    let [piece, rotation] = [target.piece.code(), target.rotation.index()];
    let mut mixed = u64::from(u32::from_le_bytes([piece, rotation, target.x, target.y]));
    for y in 0..8 {
        mixed = (mixed ^ u64::from(board.row(y))).wrapping_mul(0x9e37_79b9_7f4a_7c15);
    }
    mixed = (mixed ^ mixed >> 32).wrapping_mul(0xd6e8_feb8_6659_fd93);
    mixed >> 32
}

/// Key words that were found. A later one may evict an earlier one. That costs time, never correctness: every kept word
/// is a true one.
#[derive(Drop)]
pub(crate) struct Known {
    words: FactTable<Option<Found>>,
}

impl Known {
    ghost use Rattle.std.specs.Prelude.{IfOk};
    ghost use Rattle.key_path.specs.Known.{KeepsNone};

    /// An empty store, with memory for the words to come.
    pub(crate) fn new(alloc: Global) -> Result<Known, NoMemory>
        ensures { IfOk result KeepsNone }
    {
        let words = FactTable::new(alloc, ROOM)?;
        Ok(Known { words })
    }

    /// The least key word of a placement in a well, if it is kept.
    pub(crate) fn get(
        &self,
        well: &Well,
        target: &Placement,
        drop_mode: DropMode,
    ) -> Option<KeyWord>
        ensures { IfSome result (λ word.
            least_key_word srs_table (filled well.now) drop_mode target.now ≡ Some word.items) }
    {
        match self.words.entry(hash_of(well, target)) {
            Some(Some(found)) if found.is_for(well, target, drop_mode) => Some(found.key_word()),
            _ => None,
        }
    }

    /// Keeps the least key word of a placement in a well.
    pub(crate) fn keep(
        &mut self,
        well: &Well,
        target: &Placement,
        drop_mode: DropMode,
        word: &KeyWord,
    )
        requires { least_key_word srs_table (filled well.now) drop_mode target.now ≡ Some word.now.items }
    {
        let Some(word) = short_word(word) else {
            return;
        };
        let found = Found {
            well: *well,
            target: *target,
            drop_mode,
            word,
        };
        self.words.put(hash_of(well, target), Some(found));
    }
}

/// The same word in less room, if it has few keys.
fn short_word(word: &KeyWord) -> Option<ShortWord>
    ensures { IfSome result (λ short. short.items ≡ word.now.items) }
{
    let mut short = ShortWord::new();
    match short.try_extend_from_slice(word.as_slice()) {
        Ok(()) => Some(short),
        Err(_) => None,
    }
}
