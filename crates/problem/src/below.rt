// Where a placement lies.
ghost use Rattle.std.specs.Prelude.{◌≡◌, IsTrue};
ghost use Rattle.srs.specs.Cells.{is_inside_of};
ghost use Rattle.well.specs.LockLaws.{is_below};

use srs::{Placement, cells};

/// Whether all cells of a placement inside the well lie below this row.
pub fn lies_below(placement: &Placement, rows: u8) -> bool
    requires { IsTrue (is_inside_of placement.now) }
    ensures { result ≡ is_below rows placement.now }
{
    cells(placement)
        .iter()
        .all(|cell| i16::from(cell.1) < i16::from(rows))
}
