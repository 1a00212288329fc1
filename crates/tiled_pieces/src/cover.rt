// A cell that a piece is to cover.
ghost use Rattle.std.specs.Prelude.{◌≤◌};

use empty_cells::{Shifted, SupplyWord};

/// A set of cells whose first one a piece is to cover, and the supply for what the piece leaves.
#[derive(Clone, Copy)]
pub(crate) struct Cover {
    /// Their columns are counted from that of the first cell.
    pub(crate) cells: Shifted,
    /// The row of the first cell.
    pub(crate) y: u8,
    pub(crate) supply: SupplyWord,
    ghost row: { y ≤ 7 },
}
