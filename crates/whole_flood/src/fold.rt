// Resting states as canonical placements.
ghost use Rattle.std.specs.Prelude.{◌≡◌};
ghost use Rattle.place_sets.specs.States.{states_of};
ghost use Rattle.whole_flood.specs.Folded.{folded_with, folded};

use place_sets::Pivots;
use srs::{Piece, Rotation, canonical_change};

/// The canonical placements that have the cells of these states.
#[tactic(auto, unfolding(crate::specs::Folded::folded))]
pub(crate) fn folded<const N: usize>(piece: Piece, states: &Pivots<N>) -> Pivots<N>
    ensures { states_of result ≡ folded piece N (states_of states.now) }
{
    let none = Pivots::empty();
    let first = folded_with(piece, states, Rotation::Spawn, &none);
    let second = folded_with(piece, states, Rotation::Right, &first);
    let third = folded_with(piece, states, Rotation::Reverse, &second);
    folded_with(piece, states, Rotation::Left, &third)
}

#[tactic(auto, unfolding(crate::specs::Folded::folded_with))]
/// The placements, plus those with the cells of the states in one rotation.
fn folded_with<const N: usize>(
    piece: Piece,
    states: &Pivots<N>,
    rotation: Rotation,
    held: &Pivots<N>,
) -> Pivots<N>
    ensures { states_of result ≡ folded_with piece N (states_of states.now) rotation (states_of held.now) }
{
    let (to, (dx, dy)) = canonical_change(piece, rotation);
    let moved = states.board(rotation).moved(dx, dy);
    held.with(to, &held.board(to).or(&moved))
}
