// A piece in a rotation with its pivot at a cell of the well.
use crate::piece::Piece;
use crate::rotation::Rotation;

/// A piece in a rotation with its pivot at a cell. `x` counts columns from 0 at the left; `y` counts rows from 0 at the
/// bottom.
#[derive(Clone, Copy, Debug, Default, PartialEq, Eq, Hash)]
pub struct Placement {
    pub piece: Piece,
    pub rotation: Rotation,
    pub x: u8,
    pub y: u8,
}
