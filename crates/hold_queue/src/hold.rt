// Whether a piece may be held.
use srs::Piece;

/// Whether a piece may be held.
#[derive(Clone, Copy, Debug, PartialEq, Eq)]
pub enum Hold {
    /// A piece may be held. It is played in exchange for the next piece, or when the queue is used up.
    Allowed,
    /// No piece is held. A piece that is held at the start is never played.
    Avoided,
}

impl Hold {
    ghost use Rattle.std.specs.Prelude.{◌≡◌};
    ghost use Rattle.hold_queue.specs.AtHand.{playable};

    /// The piece that is held at the start, if it may be played.
    pub fn playable(self, held: Option<Piece>) -> Option<Piece>
        ensures { result ≡ playable self held }
    {
        match self {
            Hold::Allowed => held,
            Hold::Avoided => None,
        }
    }
}
