// The rows below a height, whether others have cells, and boards with another number of rows.
ghost use Rattle.std.specs.Prelude.{◌≡◌, ◌↔◌, ℕ, ◌≤◌, IsTrue, false};
ghost use Rattle.lane_board.specs.Board.{field_of};
ghost use Rattle.lane_board.specs.Field.{intersection, rows_below};
ghost use Rattle.lane_board.specs.Lanes.{is_lane_count};

use super::LaneBoard;
use crate::eights::{FULL, load, store};

impl<const N: usize> LaneBoard<N> {
    /// The board with every cell of the rows below `height`.
    pub fn rows_below(height: u8) -> LaneBoard<N>
        requires lanes { IsTrue (is_lane_count N) }
        requires within { height ≤ N }
        ensures { field_of result ≡ rows_below height }
    {
        let mut rows = [0; N];
        for y in 0..height as usize {
            rows[y] = FULL;
        }
        LaneBoard { rows }
    }

    /// Whether no cell lies at or above a row.
    #[inline(always)]
    pub fn is_clear_from(&self, row: u8) -> bool
        requires { row ≤ N }
        ensures { IsTrue result ↔ ((x y : ℕ) → row ≤ y → field_of self.now x y ≡ false) }
    {
        self.minus(&LaneBoard::rows_below(row)).is_empty()
    }

    /// The same cells on a board of `M` rows. Cells in row `M` and above are dropped.
    #[inline(always)]
    pub fn resized<const M: usize>(&self) -> LaneBoard<M>
        requires { IsTrue (is_lane_count M) }
        ensures { field_of result ≡ intersection (field_of self.now) (rows_below M) }
    {
        let mut rows = [0; M];
        for eight in 0..N.min(M) / 8 {
            let at = 8 * eight;
            store(&mut rows, at, load(&self.rows, at));
        }
        LaneBoard { rows }
    }
}
