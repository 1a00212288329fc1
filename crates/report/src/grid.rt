// A sequence as pictures of its placements.
ghost use Rattle.std.specs.Prelude.{◌≡◌, ◌+◌, ◌≤◌, ◌<◌, ◌++◌, [], ◌∷◌, pos};
ghost use Rattle.arrayvec.specs.ArrayVec.{array_vec_len};
ghost use Rattle.srs.specs.Cells.{cells_of};
ghost use Rattle.srs.specs.Rules.{table_of};
ghost use Rattle.srs.specs.SameCells.{is_among};
ghost use Rattle.well.specs.Well.{filled};
ghost use Rattle.pc_outside.specs.Counts.{HasCause};
ghost use Rattle.pc_outside.specs.Writes.{WritesAll};
ghost use Rattle.problem.specs.Solution.{PlaysIn};
ghost use Rattle.report.specs.Forms.{key_part};
ghost use Rattle.report.specs.Keys.{has_keys};
ghost use Rattle.report.specs.Grid.{grid_form, grid_letter, grid_pictures, grid_row, grid_rows};

use crate::keys::WrittenKeys;
use crate::line::write_line;
use arrayvec::ArrayVec;
use pc_outside::{Failed, Sink};
use problem::{Problem, Sequence};
use srs::{Placement, cells};
use well::Well;

/// A newline after those of the rows.
const EMPTY_LINE: u8 = b'\n';

/// How many rows a well has.
const ROWS: u8 = 23;

/// The rows of one picture, at most 255, each with a newline, and an empty line.
type Picture = ArrayVec<u8, 2806>;

/// Writes the grid of a sequence that solves the problem: its line as `write_line` writes it, and then for each
/// placement the rows that are left, from the top one down, and an empty line. A cell of the placement is the piece's
/// letter, a cell of the field before it is `X`, and any other cell is `_`, as is each cell above row 22.
#[tactic(auto, unfolding(crate::specs::Grid::grid_form))]
pub fn write_grid<O: Sink>(
    out: &mut O,
    problem: &Problem,
    sequence: &Sequence,
    keys: &mut WrittenKeys,
) -> Result<(), Failed>
    requires { PlaysIn problem.now sequence.now.items }
    ensures written { WritesAll (O.written out.old) (O.written out.new) result
        (grid_form (key_part (has_keys keys.old) (table_of problem.now.rules) problem.now.drop_mode)
        (filled problem.now.well) problem.now.height sequence.now.items) }
    ensures cause { HasCause O.counts_failures_alone (O.faults out.old) (O.faults out.new) result }
    ensures keys { has_keys keys.new ≡ has_keys keys.old }
{
    write_line(out, problem, sequence, keys)?;
    write_pictures(out, problem, sequence.as_slice())
}

/// Writes the pictures of placements, one after the other.
fn write_pictures<O: Sink>(
    out: &mut O,
    problem: &Problem,
    placements: &[Placement],
) -> Result<(), Failed>
    requires { PlaysIn problem.now placements.now }
    ensures written { WritesAll (O.written out.old) (O.written out.new) result
        (grid_pictures (filled problem.now.well) problem.now.height placements.now) }
    ensures cause { HasCause O.counts_failures_alone (O.faults out.old) (O.faults out.new) result }
{
    let mut well = problem.well;
    let mut rows = problem.height;
    for placement in placements {
        out.write(picture(&well, placement, rows).as_slice())?;
        let locked = well.lock(placement);
        well = locked.0;
        rows = rows.saturating_sub(locked.1);
    }
    Ok(())
}

/// The rows below a height, from the top one down, with a placement in them, and an empty line.
fn picture(well: &Well, placement: &Placement, rows: u8) -> Picture
    requires column { placement.now.x ≤ 31 }
    requires row { placement.now.y ≤ 31 }
    ensures { result.items ≡ grid_rows (filled well.now) placement.now rows ++ 10 ∷ [] }
{
    let mut picture = Picture::new();
    for y in (0..rows).rev() {
        push_row(&mut picture, well, placement, y);
    }
    picture.push(EMPTY_LINE);
    picture
}

/// Appends a row and a newline.
#[tactic(auto, using(crate::proofs::GridLemmas::letter_more))]
fn push_row(picture: &mut Picture, well: &Well, placement: &Placement, y: u8)
    requires column { placement.now.x ≤ 31 }
    requires row { placement.now.y ≤ 31 }
    requires room { array_vec_len picture.old + 11 ≤ 2805 }
    ensures items { picture.new.items ≡ picture.old.items ++ grid_row (filled well.now) placement.now y }
    ensures len { array_vec_len picture.new ≡ array_vec_len picture.old + 11 }
{
    let cells = cells(placement);
    for x in 0..10 {
        picture.push(letter(well, placement, &cells, x, y));
    }
    picture.push(b'\n');
}

/// The letter of a cell.
fn letter(well: &Well, placement: &Placement, cells: &[(i8, i8); 4], x: u8, y: u8) -> u8
    requires cells { cells.now ≡ cells_of placement.now }
    requires column { x ≤ 9 }
    ensures { result ≡ grid_letter (filled well.now) placement.now y x }
{
    if has_cell(cells, x, y) {
        return placement.piece.letter();
    }
    if is_filled(well, x, y) { b'X' } else { b'_' }
}

/// Whether the well has the cell in this column and row. It has none above its rows.
#[tactic(auto, using(crate::proofs::GridLemmas::empty_above))]
fn is_filled(well: &Well, x: u8, y: u8) -> bool
    requires { x ≤ 9 }
    ensures { result ≡ filled well.now x y }
{
    if y >= ROWS {
        return false;
    }
    well.cell(x, y)
}

/// Whether one of the cells is in this column and row.
#[tactic(auto, unfolding(srs::specs::SameCells::is_among))]
fn has_cell(cells: &[(i8, i8); 4], x: u8, y: u8) -> bool
    ensures { result ≡ is_among cells.now (pos x, pos y) }
{
    let [x, y] = [i16::from(x), i16::from(y)];
    cells
        .iter()
        .any(|cell| i16::from(cell.0) == x && i16::from(cell.1) == y)
}
