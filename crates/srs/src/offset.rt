// How far a pivot moves.

/// How far a pivot moves: `dx` columns to the right and `dy` rows up.
#[derive(Clone, Copy, Debug, PartialEq, Eq)]
pub struct Offset {
    pub dx: i8,
    pub dy: i8,
}
