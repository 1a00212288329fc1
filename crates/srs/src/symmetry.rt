// Placements with the same cells, and the canonical one among them.
ghost use Rattle.std.specs.Prelude.{◌≡◌, ◌≤ℤ◌, IsTrue, pos};
ghost use Rattle.srs.specs.Cells.{is_inside_of, minus, pivot_of, moved};
ghost use Rattle.srs.specs.SameCells.{HasSameCells};
ghost use Rattle.srs.specs.Canonical.{IsCanonical, canonical_rotation, canonical_move};

use crate::piece::Piece;
use crate::placement::Placement;
use crate::rotation::Rotation;
use crate::shapes::cell_at;

/// The canonical placement: the one of this piece with the same cells and the earliest possible rotation, in the order
/// 0, R, 2, L.
#[tactic(auto, using(crate::proofs::CanonicalLemmas::found_cells, crate::proofs::CanonicalLemmas::found_canonical))]
pub fn canonical(placement: &Placement) -> Placement
    requires { IsTrue (is_inside_of placement.now) }
    ensures piece { result.piece ≡ placement.now.piece }
    ensures rotation { result.rotation ≡ canonical_rotation placement.now.piece placement.now.rotation }
    ensures pivot { pivot_of result ≡ moved (pivot_of placement.now)
        (canonical_move placement.now.piece placement.now.rotation) }
    ensures cells { HasSameCells result placement.now }
    ensures canonical { IsCanonical result }
{
    moved_pivot(placement)
}

/// The placement with the pivot that has the same cells in the earliest rotation.
fn moved_pivot(placement: &Placement) -> Placement
    requires { IsTrue (is_inside_of placement.now) }
    ensures piece { result.piece ≡ placement.now.piece }
    ensures rotation { result.rotation ≡ canonical_rotation placement.now.piece placement.now.rotation }
    ensures pivot { pivot_of result ≡ moved (pivot_of placement.now)
        (canonical_move placement.now.piece placement.now.rotation) }
{
    let (rotation, change) = canonical_change(placement.piece, placement.rotation);
    let (x, y) = cell_at((placement.x as i8, placement.y as i8), change);
    Placement {
        piece: placement.piece,
        rotation,
        x: x as u8,
        y: y as u8,
    }
}

/// The earliest rotation in which the piece can have the cells of this one, and how far its pivot moves for that: at
/// most one column to the left.
#[inline(always)]
pub fn canonical_change(piece: Piece, rotation: Rotation) -> (Rotation, (i8, i8))
    ensures rotation { result.0 ≡ canonical_rotation piece rotation }
    ensures pivot { result.1 ≡ canonical_move piece rotation }
    ensures left { minus 1 ≤ℤ result.1.0 }
    ensures right { result.1.0 ≤ℤ pos 0 }
{
    match (piece, rotation) {
        (Piece::I, Rotation::Reverse) => (Rotation::Spawn, (-1, 0)),
        (Piece::I, Rotation::Left) => (Rotation::Right, (0, 1)),
        (Piece::O, Rotation::Right) => (Rotation::Spawn, (0, -1)),
        (Piece::O, Rotation::Reverse) => (Rotation::Spawn, (-1, -1)),
        (Piece::O, Rotation::Left) => (Rotation::Spawn, (-1, 0)),
        (Piece::S | Piece::Z, Rotation::Reverse) => (Rotation::Spawn, (0, -1)),
        (Piece::S | Piece::Z, Rotation::Left) => (Rotation::Right, (-1, 0)),
        _ => (rotation, (0, 0)),
    }
}
