// Whether a well has a tiling.
ghost use Rattle.std.specs.Prelude.{◌↔◌, ◌≤◌, IsTrue};
ghost use Rattle.well.specs.Well.{filled};
ghost use Rattle.prune.specs.Tiling.{supply_in, Tiling};

use crate::search::has_tiling;
use empty_cells::Empties;
use well::Well;

/// Whether the empty cells of the rows below `rows_left` are the disjoint union of generalized pieces, with at most as
/// many of each kind as the supply has. The supply's entries stand in the order of piece codes.
pub fn tiles(well: &Well, rows_left: u8, supply: &[u8; 7]) -> bool
    requires { rows_left ≤ 8 }
    ensures { IsTrue result ↔ Tiling (filled well.now) rows_left (supply_in supply.now) }
{
    has_tiling(&Empties::below(well, rows_left), supply)
}
