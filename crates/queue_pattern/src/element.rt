// An element of a pattern.
ghost use Rattle.std.specs.Prelude.{◌≡◌, ◌-◌};
ghost use Rattle.queue_pattern.specs.Queues.{is_in};

use crate::sets::is_in;
use srs::Piece;

/// An element: an ordered choice of some different pieces of a set.
#[derive(Clone, Copy, Debug, Default, PartialEq, Eq)]
pub struct Element {
    /// Bit `c - 1` is set exactly if the piece with code `c` is in the set.
    pub set: u8,
    /// How many pieces are chosen.
    pub chosen: u8,
}

impl Element {
    /// Whether the element's set has this piece.
    pub fn has(self, piece: Piece) -> bool
        ensures { result ≡ is_in piece self.set }
    {
        is_in(piece, self.set)
    }
}
