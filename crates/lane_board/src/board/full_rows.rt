// Full rows: which they are, and the board without them.
ghost use Rattle.std.specs.Prelude.{◌≡◌, ℕ, ◌≤◌, false, count_ones};
ghost use Rattle.lane_board.specs.Board.{field_of};
ghost use Rattle.lane_board.specs.FullRows.{is_full, full_below, without_full_rows};
ghost use Rattle.lane_board.specs.Lanes.{has_bit};

use super::LaneBoard;
use crate::eights::{FULL, full_in};

impl<const N: usize> LaneBoard<N> {
    /// Which rows are full: bit `y` is set exactly if row `y` has all ten cells.
    #[inline(always)]
    pub fn full_rows(&self) -> u32
        ensures rows { has_bit result ≡ is_full (field_of self.now) }
        ensures number { count_ones result ≡ full_below (field_of self.now) N }
    {
        let mut full = 0;
        for eight in 0..N / 8 {
            let at = 8 * eight;
            full |= full_in(&self.rows, at) << at;
        }
        full
    }

    /// How many of the lowest rows may have cells: the first eight, or all of them.
    fn used_rows(&self) -> usize
        ensures within { result ≤ N }
        ensures above { (x y : ℕ) → result ≤ y → field_of self.now x y ≡ false }
    {
        if self.is_clear_from(8) {
            return 8;
        }
        N
    }

    /// The board without its full rows. Every other cell moves down by the number of full rows below it.
    pub fn without_full_rows(&self) -> LaneBoard<N>
        ensures { field_of result ≡ without_full_rows (field_of self.now) N }
    {
        let used = self.used_rows();
        let mut rows = [0; N];
        let mut kept = 0;
        for y in 0..used {
            let row = self.rows[y];
            if row != FULL {
                rows[kept] = row;
                kept += 1;
            }
        }
        LaneBoard { rows }
    }

    /// Removes the full rows and returns how many there were. Every other cell moves down by the number of full rows
    /// below it.
    #[inline(always)]
    pub fn remove_full_rows(&mut self) -> u32
        ensures cells { field_of self.new ≡ without_full_rows (field_of self.old) N }
        ensures number { result ≡ full_below (field_of self.old) N }
    {
        let full = self.full_rows();
        if full == 0 {
            return 0;
        }
        *self = self.without_full_rows();
        full.count_ones()
    }
}
