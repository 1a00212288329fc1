// The cells that a page leaves for the page after it.
ghost use Rattle.std.specs.Prelude.{◌≡◌, ◌-◌, ◌≤◌, ◌++◌, length, take, drop, replicate, slice_set, IsTrue};
ghost use Rattle.std.specs.Option.{ForSome};
ghost use Rattle.srs.specs.Cells.{in_well, is_inside_of};
ghost use Rattle.fumen_pages.specs.Cells.{AreCells, missing_count, place_of};
ghost use Rattle.fumen_pages.specs.Next.{cleared, operation_filled, is_full_page_row, marked, mirrored_rows, next, risen, rows_of};
ghost use Rattle.fumen_digits.specs.declared.dialect.Dialect.TheVariants.{V115};
ghost use Rattle.fumen_pages.specs.Sound.{IsSound};

use crate::page::Page;
use fumen_digits::Dialect;
use srs::Placement;

/// The cells that a page leaves for the page after it. A page that doesn't lock leaves its own cells.
///
/// If it locks, this happens in order. The cells of its operation take the piece's colour. Full rows are removed, the
/// rows above them move down, and empty rows come in at the top. With rise, each row moves up by one, and the garbage
/// row becomes row 0 and is empty afterwards. With mirror, each row except the garbage row is reversed.
#[tactic(auto, using(crate::proofs::NextSound::next_cells_sound))]
pub fn next_cells(dialect: Dialect, page: &Page) -> [u8; 240]
    requires { IsSound dialect page.now }
    ensures cells { result ≡ next dialect page.now }
    ensures sound { AreCells dialect result }
{
    left_cells(dialect, page)
}

fn left_cells(dialect: Dialect, page: &Page) -> [u8; 240]
    requires { IsSound dialect page.now }
    ensures { result ≡ next dialect page.now }
{
    let mut cells = page.cells;
    if !page.lock {
        return cells;
    }
    fill(&mut cells, &page.operation);
    clear(dialect, &mut cells);
    rise(dialect, page.rise, &mut cells);
    mirror(dialect, page.mirror, &mut cells);
    cells
}

/// Gives the cells of the operation, if any, the colour of its piece.
#[tactic(auto, unfolding(crate::specs::Next::operation_filled))]
fn fill(cells: &mut [u8; 240], operation: &Option<Placement>)
    requires { ForSome operation.now (λ placement. IsTrue (is_inside_of placement)) }
    ensures { cells.new ≡ operation_filled operation.now cells.old }
{
    if let Some(placement) = operation {
        mark(cells, placement, placement.piece.code());
    }
}

/// Sets the cells of a placement to a value, whatever was there: in the cells of a page, or in anything that stands for
/// them in the same order.
pub fn mark(cells: &mut [u8; 240], placement: &Placement, value: u8)
    requires { IsTrue (is_inside_of placement.now) }
    ensures { cells.new ≡ marked placement.now value cells.old }
{
    let [a, b, c, d] = srs::cells(placement);
    set_cell(cells, a, value);
    set_cell(cells, b, value);
    set_cell(cells, c, value);
    set_cell(cells, d, value);
}

/// Sets the cell at this column and row to a value.
fn set_cell(cells: &mut [u8; 240], cell: (i8, i8), value: u8)
    requires { IsTrue (in_well cell) }
    ensures { cells.new ≡ slice_set cells.old (place_of V115 cell) value }
{
    let (x, y) = cell;
    cells[(22 - y as usize) * 10 + x as usize] = value;
}

/// Removes the full rows. The rows above them move down, and empty rows come in at the top.
fn clear(dialect: Dialect, cells: &mut [u8; 240])
    ensures rows { rows_of dialect cells.new ≡ cleared (rows_of dialect cells.old) }
    ensures missing { take (missing_count dialect) cells.new ≡ take (missing_count dialect) cells.old }
{
    let top = 240 - dialect.cells() as usize;
    for i in 0..dialect.rows() as usize {
        let end = top + 10 * (i + 1);
        if is_full(&cells[end - 10..end]) {
            lower(&mut cells[top..end]);
        }
    }
}

/// Whether a row has no empty cell.
fn is_full(row: &[u8]) -> bool
    ensures { result ≡ is_full_page_row row.now }
{
    row.iter().all(|cell| *cell != 0)
}

/// Removes the last row. The others move down by one, and an empty row comes in at the top.
fn lower(rows: &mut [u8])
    requires { 10 ≤ length rows.old }
    ensures { rows.new ≡ replicate 10 0 ++ take (length rows.old - 10) rows.old }
{
    rows.rotate_right(10);
    rows[..10].copy_from_slice(&[0; 10]);
}

/// With rise, removes the top row, moves each row up by one, and empties the garbage row.
#[tactic(auto, using(crate::proofs::NextLaws::risen_from))]
fn rise(dialect: Dialect, rise: bool, cells: &mut [u8; 240])
    ensures rows { rows_of dialect cells.new ≡ risen rise (rows_of dialect cells.old) }
    ensures missing { take (missing_count dialect) cells.new ≡ take (missing_count dialect) cells.old }
{
    if !rise {
        return;
    }
    let top = 240 - dialect.cells() as usize;
    lift(&mut cells[top..]);
}

/// Removes the first row. The others move up by one, and an empty row comes in at the end.
#[tactic(auto, using(crate::proofs::NextLaws::lifted))]
fn lift(rows: &mut [u8])
    requires { 10 ≤ length rows.old }
    ensures { rows.new ≡ drop 10 rows.old ++ replicate 10 0 }
{
    rows.rotate_left(10);
    let last = rows.len() - 10;
    rows[last..].copy_from_slice(&[0; 10]);
}

/// With mirror, reverses each row except the garbage row.
fn mirror(dialect: Dialect, mirror: bool, cells: &mut [u8; 240])
    ensures rows { rows_of dialect cells.new ≡ mirrored_rows mirror (rows_of dialect cells.old) }
    ensures missing { take (missing_count dialect) cells.new ≡ take (missing_count dialect) cells.old }
{
    if !mirror {
        return;
    }
    let top = 240 - dialect.cells() as usize;
    for i in 0..dialect.rows() as usize {
        let start = top + 10 * i;
        cells[start..start + 10].reverse();
    }
}
