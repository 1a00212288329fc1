// A field as the cells of a page.
ghost use Rattle.std.specs.Prelude.{◌≡◌, ◌≤◌, if◌then◌else◌};
ghost use Rattle.well.specs.Well.{filled};
ghost use Rattle.report.specs.FumenLine.{grey_cells, grey_row};

use well::Well;

/// The cells of a page that has the well's cells in grey and an empty garbage row.
#[tactic(auto, unfolding(crate::specs::FumenLine::grey_cells))]
pub(crate) fn grey_cells(well: &Well) -> [u8; 240]
    ensures { result ≡ grey_cells (filled well.now) }
{
    let mut cells = [0; 240];
    for y in 0..23 {
        let start = 10 * (22 - y as usize);
        cells[start..start + 10].copy_from_slice(&grey_row(well, y));
    }
    cells
}

/// A row of the well, from left to right.
fn grey_row(well: &Well, y: u8) -> [u8; 10]
    requires { y ≤ 22 }
    ensures { result ≡ grey_row (filled well.now) y }
{
    let mut row = [0; 10];
    for x in 0..10 {
        row[x as usize] = grey(well, x, y);
    }
    row
}

/// Grey if the well has the cell, otherwise empty.
fn grey(well: &Well, x: u8, y: u8) -> u8
    requires column { x ≤ 9 }
    requires row { y ≤ 22 }
    ensures { result ≡ (if filled well.now x y then 8 else 0) }
{
    if well.cell(x, y) { 8 } else { 0 }
}
