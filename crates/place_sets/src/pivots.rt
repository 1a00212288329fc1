// Four boards of pivots, one for each rotation.
ghost use Rattle.std.specs.Prelude.{◌≡◌, IsTrue};
ghost use Rattle.lane_board.specs.Lanes.{is_lane_count};

use lane_board::LaneBoard;
use srs::Rotation;

/// A set of states of one piece: the cells of their pivots, for each rotation.
#[derive(Clone, Copy)]
pub struct Pivots<const N: usize> {
    /// Those in rotation 0.
    pub spawn: LaneBoard<N>,
    /// Those in rotation R.
    pub right: LaneBoard<N>,
    /// Those in rotation 2.
    pub reverse: LaneBoard<N>,
    /// Those in rotation L.
    pub left: LaneBoard<N>,
}

impl<const N: usize> Pivots<N> {
    ghost use Rattle.std.specs.Prelude.{MatchOption, ◌≢◌};
    ghost use Rattle.lane_board.specs.Board.{field_of};
    ghost use Rattle.place_sets.specs.States.{states_of, states_with, no_states};

    /// The empty set of states.
    #[tactic(auto, using(crate::proofs::StateSets::same_states), unfolding(crate::specs::States::states_of))]
    pub fn empty() -> Pivots<N>
        requires { IsTrue (is_lane_count N) }
        ensures { states_of result ≡ no_states }
    {
        Pivots {
            spawn: LaneBoard::empty(),
            right: LaneBoard::empty(),
            reverse: LaneBoard::empty(),
            left: LaneBoard::empty(),
        }
    }

    /// The pivots of the states in a rotation.
    #[tactic(auto, unfolding(crate::specs::States::states_of))]
    #[inline(always)]
    pub fn board(&self, rotation: Rotation) -> &LaneBoard<N>
        ensures { field_of result.now ≡ states_of self.now rotation }
    {
        match rotation {
            Rotation::Spawn => &self.spawn,
            Rotation::Right => &self.right,
            Rotation::Reverse => &self.reverse,
            Rotation::Left => &self.left,
        }
    }

    /// The same set with other pivots in one rotation.
    #[inline(always)]
    #[tactic(auto, using(crate::proofs::StateSets::same_states, crate::proofs::StateSets::with_at), unfolding(crate::specs::States::states_of, crate::specs::States::states_with))]
    pub fn with(&self, rotation: Rotation, board: &LaneBoard<N>) -> Pivots<N>
        ensures { states_of result ≡ states_with (states_of self.now) rotation (field_of board.now) }
    {
        match rotation {
            Rotation::Spawn => Pivots {
                spawn: *board,
                ..*self
            },
            Rotation::Right => Pivots {
                right: *board,
                ..*self
            },
            Rotation::Reverse => Pivots {
                reverse: *board,
                ..*self
            },
            Rotation::Left => Pivots {
                left: *board,
                ..*self
            },
        }
    }

    /// A rotation in which the sets differ. `None` exactly if they are the same.
    #[tactic(auto, using(std::proofs::lemmas::Bool::both_ways, crate::proofs::StateSets::same_states), unfolding(crate::specs::States::states_of))]
    pub fn difference(&self, other: &Pivots<N>) -> Option<Rotation>
        ensures { MatchOption result (states_of self.now ≡ states_of other.now)
            (λ r. states_of self.now r ≢ states_of other.now r) }
    {
        if !self.spawn.equal(&other.spawn) {
            return Some(Rotation::Spawn);
        }
        if !self.right.equal(&other.right) {
            return Some(Rotation::Right);
        }
        if !self.reverse.equal(&other.reverse) {
            return Some(Rotation::Reverse);
        }
        if !self.left.equal(&other.left) {
            return Some(Rotation::Left);
        }
        None
    }
}
