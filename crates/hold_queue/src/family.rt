// Families of sets of drawn pieces, and how drawing one more piece changes them.
ghost use Rattle.std.specs.Prelude.{◌≡◌, ℕ, ◌<◌, ◌||◌, ◌==◌, ◌↔◌, IsTrue, false};
ghost use Rattle.std.specs.Int.{bit_at};
ghost use Rattle.queue_pattern.specs.Pattern.{elements_of};
ghost use Rattle.hold_queue.specs.Family;
ghost use Rattle.hold_queue.specs.Family.{has_set, IsDrawn, with_piece};
ghost use Rattle.hold_queue.specs.States;

use queue_pattern::{Element, Pattern};
use srs::Piece;

/// A family of sets of pieces, with one bit for each of the 128 sets. `low` has the sets without S, `high` those with
/// S. In the number of a set, bit `c - 1` stands for the piece with code `c`.
#[derive(Clone, Copy)]
pub struct Family {
    pub low: u64,
    pub high: u64,
}

/// What the next piece of a queue is drawn from: an element, and whether this draw is the element's last.
#[derive(Clone, Copy, PartialEq, Eq)]
pub struct Draw {
    pub element: Element,
    pub is_last: bool,
}

/// For each piece except S, the sets without S that lack it.
const LACKING: [u64; 6] = [
    0x5555_5555_5555_5555,
    0x3333_3333_3333_3333,
    0x0f0f_0f0f_0f0f_0f0f,
    0x00ff_00ff_00ff_00ff,
    0x0000_ffff_0000_ffff,
    0x0000_0000_ffff_ffff,
];

/// What the next piece is drawn from after `drawn` pieces. `None` if the queue is used up.
pub fn in_progress(pattern: &Pattern, drawn: u8) -> Option<Draw>
    ensures { result ≡ States.in_progress (elements_of pattern.now) drawn }
{
    let mut left = drawn;
    for index in 0..pattern.elements() {
        let element = pattern.element(index);
        if left < element.chosen {
            let is_last = left + 1 == element.chosen;
            return Some(Draw { element, is_last });
        }
        left -= element.chosen;
    }
    None
}

/// Whether a number has no bit set.
fn has_none(bits: u64) -> bool
    ensures { IsTrue result ↔ ((index : ℕ) → index < 64 → (bit_at bits index == 1) ≡ false) }
{
    bits == 0
}

impl Family {
    /// The family without sets.
    pub const EMPTY: Family = Family { low: 0, high: 0 };

    /// Whether the family has no set.
    pub fn is_empty(self) -> bool
        ensures { IsTrue result ↔ ((set : ℕ) → set < 128 → has_set self set ≡ false) }
    {
        has_none(self.low) && has_none(self.high)
    }

    /// The sets of both families.
    pub fn or(self, other: Family) -> Family
        ensures { (set : ℕ) → set < 128 → has_set result set ≡ (has_set self set || has_set other set) }
    {
        Family {
            low: self.low | other.low,
            high: self.high | other.high,
        }
    }

    /// The sets that lack the piece, each with the piece added.
    fn with(self, piece: Piece) -> Family
        ensures { (set : ℕ) → set < 128 → has_set result set ≡ with_piece piece (has_set self) set }
    {
        if let Piece::S = piece {
            return Family {
                low: 0,
                high: self.low,
            };
        }
        let index = piece.code() - 1;
        let lacking = LACKING[index as usize];
        let by = 1_u32 << index;
        Family {
            low: (self.low & lacking) << by,
            high: (self.high & lacking) << by,
        }
    }

    /// The sets of drawn pieces after this piece is drawn.
    pub fn draw(self, draw: Option<Draw>, piece: Piece) -> Family
        ensures { IsDrawn draw piece self result }
    {
        if self.is_empty() {
            return Family::EMPTY;
        }
        let Some(draw) = draw else {
            return Family::EMPTY;
        };
        if !draw.element.has(piece) {
            return Family::EMPTY;
        }
        let drawn = self.with(piece);
        if !draw.is_last {
            return drawn;
        }
        if drawn.is_empty() {
            return Family::EMPTY;
        }
        Family { low: 1, high: 0 }
    }
}
