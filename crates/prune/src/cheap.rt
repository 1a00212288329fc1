// A quick test by counts of empty cells. It shows that there is no tiling.
ghost use Rattle.std.specs.Prelude.{◌≡◌, ◌≤◌, IsTrue, ◌↔◌, sum_by};
ghost use Rattle.srs.specs.Piece.{all_pieces};
ghost use Rattle.well.specs.Well.{filled};
ghost use Rattle.prune.specs.Tiling.{Tiling, supply_in};
ghost use Rattle.prune.specs.Counts.{column_empties, HasUnevenRun, IsRefusedByCounts};

use well::Well;

/// Whether counts show that the empty cells of the rows below `rows_left` have no tiling with at most `supply` pieces
/// of each kind, in the order of piece codes. True exactly if one of three things holds: the number of empty cells is
/// not a multiple of four; it is more than four times the sum of the supply; or some longest run of neighbouring
/// columns that each have an empty cell has a number of empty cells that is not a multiple of four.
pub fn cheap_no(well: &Well, rows_left: u8, supply: &[u8; 7]) -> bool
    requires { rows_left ≤ 8 }
    ensures counts { IsTrue result ↔ IsRefusedByCounts (filled well.now) rows_left (supply_in supply.now) }
    ensures none { IsTrue result → Tiling (filled well.now) rows_left (supply_in supply.now) → ⊥ }
{
    let empties = well.empties_below(rows_left);
    if empties % 4 != 0 || 4 * pieces(supply) < u16::from(empties) {
        return true;
    }
    has_uneven_run(well, rows_left)
}

/// How many pieces a supply has in all. Its entries stand in the order of piece codes.
#[tactic(auto, unfolding(crate::specs::Tiling::supply_in))]
fn pieces(supply: &[u8; 7]) -> u16
    ensures number { result ≡ sum_by (supply_in supply.now) all_pieces }
    ensures small { result ≤ 1785 }
{
    let [i, l, o, z, t, j, s] = supply.map(u16::from);
    i + l + o + z + t + j + s
}

/// Whether some longest run of neighbouring columns that each have an empty cell below `rows_left` has a number of
/// empty cells that is not a multiple of four.
fn has_uneven_run(well: &Well, rows_left: u8) -> bool
    requires { rows_left ≤ 8 }
    ensures { IsTrue result ↔ HasUnevenRun (filled well.now) rows_left }
{
    let mut run = 0;
    for x in 0..10 {
        let empties = column_empties(well, rows_left, x);
        if empties > 0 {
            run += empties;
            continue;
        }
        if run % 4 != 0 {
            return true;
        }
        run = 0;
    }
    run % 4 != 0
}

/// How many cells of a column are empty in the rows below `rows_left`.
pub(crate) fn column_empties(well: &Well, rows_left: u8, x: u8) -> u8
    requires rows { rows_left ≤ 8 }
    requires column { x ≤ 9 }
    ensures { result ≡ column_empties (filled well.now) rows_left x }
{
    let mut empties = 0;
    for y in 0..rows_left {
        if !well.cell(x, y) {
            empties += 1;
        }
    }
    empties
}
