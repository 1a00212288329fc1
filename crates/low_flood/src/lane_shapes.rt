// The shapes of the pieces, counted from the lowest cell.
ghost use Rattle.std.specs.Prelude.{◌≡◌, ◌≤ℤ◌, ◌-ℤ◌, pos, IsTrue};
ghost use Rattle.std.specs.List.{list_all};
ghost use Rattle.srs.specs.Cells.{is_near, minus};
ghost use Rattle.low_flood.specs.LaneShapes.{lane_cells, is_near_lane};

use crate::lane_kicks::lowest_row;
use srs::{Piece, Rotation, shape};

/// A cell whose row is counted from the pivot, as one whose row is counted from the lowest cell.
#[inline(always)]
fn from_lowest(cell: (i8, i8), lowest: i8) -> (i8, i8)
    requires near { IsTrue (is_near cell) }
    requires low { minus 2 ≤ℤ lowest }
    requires high { lowest ≤ℤ pos 0 }
    ensures { result ≡ (cell.0, cell.1 -ℤ lowest) }
{
    (cell.0, cell.1 - lowest)
}

/// The four cells of a piece in a rotation, counted from the column of its pivot and the row of its lowest cell.
#[inline(always)]
pub(crate) fn lane_cells(piece: Piece, rotation: Rotation) -> [(i8, i8); 4]
    ensures cells { result ≡ lane_cells piece rotation }
    ensures near { IsTrue (list_all is_near_lane result) }
{
    let lowest = lowest_row(piece, rotation);
    let [a, b, c, d] = shape(piece, rotation);
    [
        from_lowest(a, lowest),
        from_lowest(b, lowest),
        from_lowest(c, lowest),
        from_lowest(d, lowest),
    ]
}
