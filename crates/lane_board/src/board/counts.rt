// How many cells a board has.
ghost use Rattle.std.specs.Prelude.{◌≡◌};
ghost use Rattle.lane_board.specs.Board.{field_of};
ghost use Rattle.lane_board.specs.CellCount.{cell_count};

use super::LaneBoard;
use crate::eights::count_in;

impl<const N: usize> LaneBoard<N> {
    /// How many cells the board has.
    #[inline(always)]
    pub fn count(&self) -> u16
        ensures { result ≡ cell_count (field_of self.now) N }
    {
        let mut cells = 0;
        for eight in 0..N / 8 {
            cells += count_in(&self.rows, 8 * eight);
        }
        cells
    }
}
