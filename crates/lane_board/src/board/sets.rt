// Intersection, union and difference of two boards, and whether they are equal.
ghost use Rattle.std.specs.Prelude.{◌≡◌, ◌↔◌, IsTrue};
ghost use Rattle.lane_board.specs.Board.{field_of};
ghost use Rattle.lane_board.specs.Field.{empty_field, intersection, union, difference};

use super::LaneBoard;
use crate::eights::{And, AndNot, Or, agree, combined};

impl<const N: usize> LaneBoard<N> {
    /// The cells that both boards have.
    #[inline(always)]
    pub fn and(&self, other: &LaneBoard<N>) -> LaneBoard<N>
        ensures { field_of result ≡ intersection (field_of self.now) (field_of other.now) }
    {
        let rows = combined::<And, N>(&self.rows, &other.rows);
        LaneBoard { rows }
    }

    /// The cells that either board has.
    #[inline(always)]
    pub fn or(&self, other: &LaneBoard<N>) -> LaneBoard<N>
        ensures { field_of result ≡ union (field_of self.now) (field_of other.now) }
    {
        let rows = combined::<Or, N>(&self.rows, &other.rows);
        LaneBoard { rows }
    }

    /// The cells of this board that the other doesn't have.
    #[inline(always)]
    pub fn minus(&self, other: &LaneBoard<N>) -> LaneBoard<N>
        ensures { field_of result ≡ difference (field_of self.now) (field_of other.now) }
    {
        let rows = combined::<AndNot, N>(&self.rows, &other.rows);
        LaneBoard { rows }
    }

    /// Whether the boards have the same cells.
    #[inline(always)]
    pub fn equal(&self, other: &LaneBoard<N>) -> bool
        ensures { IsTrue result ↔ (field_of self.now ≡ field_of other.now) }
    {
        for eight in 0..N / 8 {
            if !agree(&self.rows, &other.rows, 8 * eight) {
                return false;
            }
        }
        true
    }

    /// Whether the board has no cells.
    #[inline(always)]
    pub fn is_empty(&self) -> bool
        ensures { IsTrue result ↔ (field_of self.now ≡ empty_field) }
    {
        self.equal(&LaneBoard::empty())
    }
}
