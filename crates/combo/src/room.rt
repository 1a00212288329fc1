// How long a run between walls can be.
ghost use Rattle.std.specs.Prelude.{◌≡◌, ℕ, ◌≤◌, ◌<◌, ◌+◌, false, true, not, ◌&&◌, if◌then◌else◌, IsTrue, IfSome, List, length};
ghost use Rattle.srs.specs.declared.placement.Placement.{Placement};
ghost use Rattle.srs.specs.Kick.{Table};
ghost use Rattle.well.specs.Well.{filled};
ghost use Rattle.moves.specs.declared.key.DropMode.{DropMode};
ghost use Rattle.combo.specs.Middle.{has_empty, has_gaps, has_three, is_gap};
ghost use Rattle.combo.specs.Room.{HasWalls, open_gaps};
ghost use Rattle.problem.specs.Runs.{Runs};

use well::Well;

/// Whether three cells of a row are filled, from column `x` on.
fn has_three(well: &Well, x: u8, y: u8) -> bool
    requires column { x ≤ 7 }
    requires row { y ≤ 22 }
    ensures { result ≡ has_three (filled well.now) x y }
{
    well.cell(x, y) && well.cell(x + 1, y) && well.cell(x + 2, y)
}

/// Whether a row has empty cells in columns 3 to 6 alone, and at least one.
fn has_gaps(well: &Well, y: u8) -> bool
    requires { y ≤ 22 }
    ensures { result ≡ has_gaps (filled well.now) y }
{
    has_three(well, 0, y) && has_three(well, 7, y) && !(has_three(well, 3, y) && well.cell(6, y))
}

/// How many rows from the lowest up have a cell in column 0, at most 22.
fn height_of_wall(well: &Well) -> u8
    ensures { result ≤ 22 }
{
    for y in 0..22 {
        if !well.cell(0, y) {
            return y;
        }
    }
    22
}

/// Whether each row below the height has such gaps.
fn all_have_gaps(well: &Well, height: u8) -> bool
    requires { height ≤ 22 }
    ensures { IsTrue result → (y : ℕ) → y < height → has_gaps (filled well.now) y ≡ true }
{
    for y in 0..height {
        if !has_gaps(well, y) {
            return false;
        }
    }
    true
}

/// Whether a column is empty at and above the height.
#[tactic(auto, using(crate::proofs::MiddleLemmas::empty_from))]
fn is_empty_from(well: &Well, x: u8, height: u8) -> bool
    requires column { x ≤ 9 }
    requires row { height ≤ 22 }
    ensures { IsTrue result → (y : ℕ) → height ≤ y → filled well.now x y ≡ false }
{
    for y in height..23 {
        if well.cell(x, y) {
            return false;
        }
    }
    true
}

/// Whether the outermost columns end at the height, and rows below it have gaps in columns 3 to 6 alone.
fn has_walls(well: &Well, height: u8) -> bool
    requires { height ≤ 22 }
    ensures { IsTrue result → HasWalls (filled well.now) (is_gap (filled well.now) height) height 0 9 }
{
    if !all_have_gaps(well, height) {
        return false;
    }
    if !is_empty_from(well, 0, height) {
        return false;
    }
    is_empty_from(well, 9, height)
}

/// Whether a column has an empty cell below the height.
fn has_empty(well: &Well, x: u8, height: u8) -> bool
    requires column { x ≤ 9 }
    requires row { height ≤ 22 }
    ensures { result ≡ has_empty (filled well.now) x height }
{
    for y in 0..height {
        if !well.cell(x, y) {
            return true;
        }
    }
    false
}

/// 1 for a column that has an empty cell below the height and one in the row at it, otherwise 0.
fn open_gap(well: &Well, x: u8, height: u8) -> u8
    requires column { x ≤ 9 }
    requires row { height ≤ 22 }
    ensures { result ≡ (if has_empty (filled well.now) x height && not (filled well.now x height) then 1 else 0) }
{
    if well.cell(x, height) {
        return 0;
    }
    u8::from(has_empty(well, x, height))
}

/// How many gaps are open in the row at the height.
fn open_gaps(well: &Well, height: u8) -> u8
    requires { height ≤ 22 }
    ensures { result ≡ open_gaps (filled well.now) (is_gap (filled well.now) height) height }
{
    open_gap(well, 3, height)
        + open_gap(well, 4, height)
        + open_gap(well, 5, height)
        + open_gap(well, 6, height)
}

/// No run in the field is longer than this. `None` if the rows below the height of column 0 have other gaps, or the
/// outermost columns end at other heights. No clause says when it is `None`: a bound only cuts.
#[tactic(auto, using(crate::proofs::MiddleLemmas::most_by_room))]
pub fn most_between_walls(well: &Well) -> Option<u8>
    ensures { IfSome result (λ most. (table : Table) (mode : DropMode) (run : List Placement)
        → Runs table mode (filled well.now) run → length run ≤ most) }
{
    let height = height_of_wall(well);
    if !has_walls(well, height) {
        return None;
    }
    let room = well.empties_below(height) + 3 * open_gaps(well, height);
    Some(room / 4)
}
