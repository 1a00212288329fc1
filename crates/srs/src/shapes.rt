// The cells of placements, from the shapes of the Super Rotation System.
ghost use Rattle.std.specs.Prelude.{◌≡◌, ◌≤◌, ◌≤ℤ◌, pos, IsTrue};
ghost use Rattle.std.specs.List.{list_all};
ghost use Rattle.srs.specs.Cells.{shape, moved, cells_of, in_well, is_inside_of, is_near};

use crate::piece::Piece;
use crate::placement::Placement;
use crate::rotation::Rotation;

/// The four cells of a placement, as pairs of column and row, in the order of the piece's shape.
pub fn cells(placement: &Placement) -> [(i8, i8); 4]
    requires column { placement.now.x ≤ 31 }
    requires row { placement.now.y ≤ 31 }
    ensures { result ≡ cells_of placement.now }
{
    let [a, b, c, d] = shape(placement.piece, placement.rotation);
    let pivot = (placement.x as i8, placement.y as i8);
    [
        cell_at(pivot, a),
        cell_at(pivot, b),
        cell_at(pivot, c),
        cell_at(pivot, d),
    ]
}

/// Whether all four cells of a placement lie in the well: columns 0 to 9 and rows 0 to 22.
pub fn is_inside(placement: &Placement) -> bool
    requires column { placement.now.x ≤ 31 }
    requires row { placement.now.y ≤ 31 }
    ensures { result ≡ is_inside_of placement.now }
{
    cells(placement).iter().all(|cell| is_in_well(*cell))
}

/// Whether a cell lies in columns 0 to 9 and rows 0 to 22.
fn is_in_well(cell: (i8, i8)) -> bool
    ensures { result ≡ in_well cell }
{
    let (x, y) = cell;
    0 <= x && x <= 9 && 0 <= y && y <= 22
}

#[tactic(auto, unfolding(crate::specs::Cells::moved))]
/// The cell at an offset from the pivot.
pub fn cell_at(pivot: (i8, i8), offset: (i8, i8)) -> (i8, i8)
    requires left { pos 0 ≤ℤ pivot.0 }
    requires right { pivot.0 ≤ℤ pos 31 }
    requires low { pos 0 ≤ℤ pivot.1 }
    requires high { pivot.1 ≤ℤ pos 31 }
    requires near { IsTrue (is_near offset) }
    ensures { result ≡ moved pivot offset }
{
    (pivot.0 + offset.0, pivot.1 + offset.1)
}

/// The shape of a piece in a rotation: the four cells as pairs of column and row, counted from the pivot.
#[inline(always)]
pub fn shape(piece: Piece, rotation: Rotation) -> [(i8, i8); 4]
    ensures shape { result ≡ shape piece rotation }
    ensures near { IsTrue (list_all is_near result) }
{
    macro_rules! shapes {
        ($($kind:ident: $spawn:expr, $right:expr, $reverse:expr, $left:expr;)*) => {
            match piece {
                $(Piece::$kind => match rotation {
                    Rotation::Spawn => $spawn,
                    Rotation::Right => $right,
                    Rotation::Reverse => $reverse,
                    Rotation::Left => $left,
                },)*
            }
        };
    }
    shapes! {
        I: [(-1, 0), (0, 0), (1, 0), (2, 0)], [(0, 1), (0, 0), (0, -1), (0, -2)],
           [(1, 0), (0, 0), (-1, 0), (-2, 0)], [(0, -1), (0, 0), (0, 1), (0, 2)];
        L: [(-1, 0), (0, 0), (1, 0), (1, 1)], [(0, 1), (0, 0), (0, -1), (1, -1)],
           [(1, 0), (0, 0), (-1, 0), (-1, -1)], [(0, -1), (0, 0), (0, 1), (-1, 1)];
        O: [(0, 0), (1, 0), (0, 1), (1, 1)], [(0, 0), (0, -1), (1, 0), (1, -1)],
           [(0, 0), (-1, 0), (0, -1), (-1, -1)], [(0, 0), (0, 1), (-1, 0), (-1, 1)];
        Z: [(-1, 1), (0, 1), (0, 0), (1, 0)], [(1, 1), (1, 0), (0, 0), (0, -1)],
           [(1, -1), (0, -1), (0, 0), (-1, 0)], [(-1, -1), (-1, 0), (0, 0), (0, 1)];
        T: [(-1, 0), (0, 0), (1, 0), (0, 1)], [(0, 1), (0, 0), (0, -1), (1, 0)],
           [(1, 0), (0, 0), (-1, 0), (0, -1)], [(0, -1), (0, 0), (0, 1), (-1, 0)];
        J: [(-1, 1), (-1, 0), (0, 0), (1, 0)], [(1, 1), (0, 1), (0, 0), (0, -1)],
           [(1, -1), (1, 0), (0, 0), (-1, 0)], [(-1, -1), (0, -1), (0, 0), (0, 1)];
        S: [(-1, 0), (0, 0), (0, 1), (1, 1)], [(0, 1), (0, 0), (1, 0), (1, -1)],
           [(1, 0), (0, 0), (0, -1), (-1, -1)], [(0, -1), (0, 0), (-1, 0), (-1, 1)];
    }
}
