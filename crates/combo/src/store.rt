// What a table of searched positions says.
ghost use Rattle.std.specs.Prelude.{IsTrue};
ghost use Rattle.well.specs.Well.{filled};
ghost use Rattle.combo.specs.Searched.{SaysShorter};

use crate::searched::SearchedPosition;
use hold_queue::Hand;
use well::Well;

/// Whether an entry says that this field and these pieces at hand permit no run of `count` placements.
pub fn is_said(entry: &Option<SearchedPosition>, well: &Well, hand: Hand, count: u8) -> bool
    ensures { IsTrue result → SaysShorter entry.now (filled well.now) hand count }
{
    match entry {
        None => false,
        Some(position) => position.says(well, hand, count),
    }
}

/// A number that differs for most fields and pieces at hand.
pub fn hash_of(well: &Well, hand: Hand) -> u64 {
    let held = match hand.held {
        None => 0,
        Some(piece) => piece.code(),
    };
    let board = well.board();
    let mut mixed = u64::from(hand.drawn).wrapping_mul(8) ^ u64::from(held);
    for y in 0..23 {
        mixed = (mixed ^ u64::from(board.row(y))).wrapping_mul(0x9e37_79b9_7f4a_7c15);
        mixed ^= mixed >> 29;
    }
    mixed >> 32
}
