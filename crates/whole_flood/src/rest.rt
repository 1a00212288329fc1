// Where the states of a set come to rest.
ghost use Rattle.lane_board.specs.Board.{field_of};
ghost use Rattle.place_sets.specs.States.{states_of};
ghost use Rattle.whole_flood.specs.Rested.{IsRested, AreRested};

use lane_board::LaneBoard;
use place_sets::{Pivots, Shifts, spread};

/// The states in which the states of a set come to rest.
#[tactic(auto, using(crate::proofs::RestLemmas::rested_each), unfolding(place_sets::specs::States::states_of))]
pub(crate) fn resting<const N: usize>(free: &Pivots<N>, states: &Pivots<N>) -> Pivots<N>
    ensures { AreRested N (states_of free.now) (states_of states.now) (states_of result) }
{
    Pivots {
        spawn: rests(&free.spawn, &states.spawn),
        right: rests(&free.right, &states.right),
        reverse: rests(&free.reverse, &states.reverse),
        left: rests(&free.left, &states.left),
    }
}

/// The pivots at which those of one rotation come to rest: they spread down, and those with no free pivot below stay.
fn rests<const N: usize>(free: &LaneBoard<N>, pivots: &LaneBoard<N>) -> LaneBoard<N>
    ensures { IsRested N (field_of free.now) (field_of pivots.now) (field_of result) }
{
    let fallen = spread(free, Shifts::Down, pivots);
    fallen.minus(&free.moved(0, 1))
}
