// The order of placements.
ghost use Rattle.std.specs.Prelude.{◌≡◌, ◌↔◌};
ghost use Rattle.srs.specs.Order.{placement_cmp};

use crate::placement::Placement;
use std::cmp::Ordering;

/// Compares by the piece's code, then by rotation in the order 0, R, 2, L, then by the pivot's row, then by its column.
/// Equal exactly for equal placements.
#[tactic(auto, using(crate::proofs::OrderLemmas::then_assoc))]
pub fn compare(left: &Placement, right: &Placement) -> Ordering
    ensures order { result ≡ placement_cmp left.now right.now }
    ensures equal { (result ≡ Ordering.Equal) ↔ (left.now ≡ right.now) }
{
    left.piece
        .code()
        .cmp(&right.piece.code())
        .then(left.rotation.index().cmp(&right.rotation.index()))
        .then(left.y.cmp(&right.y))
        .then(left.x.cmp(&right.x))
}
