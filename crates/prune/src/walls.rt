// A test by walls between columns. It shows that there is no tiling.
ghost use Rattle.std.specs.Prelude.{◌≤◌, ◌+◌, IsTrue, ◌↔◌};
ghost use Rattle.well.specs.Well.{filled};
ghost use Rattle.prune.specs.Tiling.{Supply, Tiling};
ghost use Rattle.prune.specs.Walls.{IsWall, HasUnevenPart};

use crate::cheap::column_empties;
use well::Well;

/// Whether some columns between two walls have a number of empty cells in the rows below `rows_left` that is not a
/// multiple of four. A wall stands between two columns if no row has an empty cell in both, and at each side of the
/// field. No piece crosses a wall, so there is no tiling then.
pub fn has_uneven_part(well: &Well, rows_left: u8) -> bool
    requires { rows_left ≤ 8 }
    ensures exact { IsTrue result ↔ HasUnevenPart (filled well.now) rows_left }
    ensures none { IsTrue result → (supply : Supply) → Tiling (filled well.now) rows_left supply → ⊥ }
{
    let mut empties = 0;
    for x in 0..10 {
        empties += column_empties(well, rows_left, x);
        if empties % 4 != 0 && is_walled(well, rows_left, x) {
            return true;
        }
    }
    false
}

/// Whether a wall stands to the right of a column.
fn is_walled(well: &Well, rows_left: u8, x: u8) -> bool
    requires rows { rows_left ≤ 8 }
    requires column { x ≤ 9 }
    ensures { IsTrue result ↔ IsWall (filled well.now) rows_left (x + 1) }
{
    if x == 9 {
        return true;
    }
    for y in 0..rows_left {
        if !well.cell(x, y) && !well.cell(x + 1, y) {
            return false;
        }
    }
    true
}
