// A piece in a rotation.
ghost use Rattle.std.specs.Prelude.{◌≡◌};
ghost use Rattle.kick_file.specs.Form.{is_same};

use srs::{Piece, Rotation};

/// A piece in a rotation.
#[derive(Clone, Copy, Debug, Default)]
pub struct TurnedPiece {
    pub piece: Piece,
    pub rotation: Rotation,
}

impl TurnedPiece {
    /// Whether both the piece and the rotation are the same.
    pub fn is_same(self, other: TurnedPiece) -> bool
        ensures { result ≡ is_same self other }
    {
        self.piece.code() == other.piece.code() && self.rotation.index() == other.rotation.index()
    }
}
