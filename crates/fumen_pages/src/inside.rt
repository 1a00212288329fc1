// Placements inside the rows of a dialect.
ghost use Rattle.std.specs.Prelude.{◌≡◌};
ghost use Rattle.fumen_pages.specs.Action.{in_rows, is_inside_in};

use fumen_digits::Dialect;
use srs::{Placement, cells};

/// Whether all four cells of a placement lie in columns 0 to 9 and in the dialect's rows: 0 to 20, or 0 to 22.
#[tactic(auto, using(crate::proofs::InsideLaws::far_outside))]
pub fn is_inside(dialect: Dialect, placement: &Placement) -> bool
    ensures { result ≡ is_inside_in dialect placement.now }
{
    if placement.x > 31 || placement.y > 31 {
        return false;
    }
    cells(placement).iter().all(|cell| in_rows(dialect, *cell))
}

/// Whether a cell, as column and row, lies in columns 0 to 9 and in the dialect's rows.
fn in_rows(dialect: Dialect, cell: (i8, i8)) -> bool
    ensures { result ≡ in_rows dialect cell }
{
    let (x, y) = cell;
    if x < 0 || 9 < x || y < 0 {
        return false;
    }
    (y as u8) < dialect.rows()
}
