// The board: a row of ten bits for each row of cells.
ghost use Rattle.std.specs.Prelude.{◌≡◌, ℕ, ◌<◌, length, IsTrue, slice_index};
ghost use Rattle.lane_board.specs.Lanes.{is_lane_count};

mod counts;
mod cuts;
mod full_rows;
mod sets;
mod shifts;

/// A set of cells in columns 0 to 9 and rows 0 to `N - 1`, where `N` is 8, 16, 24 or 32.
#[derive(Clone, Copy)]
pub struct LaneBoard<const N: usize> {
    rows: [u16; N],
    ghost in_columns: { (y : ℕ) → slice_index rows y < 1024 },
    ghost size: { length rows ≡ N },
    ghost lane_count: { IsTrue (is_lane_count N) },
}

impl<const N: usize> LaneBoard<N> {
    ghost use Rattle.std.specs.Prelude.{◌≤◌};
    ghost use Rattle.lane_board.specs.Board.{field_of};
    ghost use Rattle.lane_board.specs.Field.{empty_field, with_cell};
    ghost use Rattle.lane_board.specs.Lanes.{has_bit};

    /// The board without cells.
    pub fn empty() -> LaneBoard<N>
        requires { IsTrue (is_lane_count N) }
        ensures { field_of result ≡ empty_field }
    {
        LaneBoard { rows: [0; N] }
    }

    /// Whether the board has the cell in column `x` and row `y`.
    #[tactic(auto, using(std::proofs::lemmas::Nat::Bits::shr_and_one), unfolding(crate::specs::Board::field_of, crate::specs::Lanes::cells_of_bits, crate::specs::Lanes::has_bit))]
    pub fn get(&self, x: u8, y: u8) -> bool
        requires column { x ≤ 9 }
        requires row { y < N }
        ensures { result ≡ field_of self.now x y }
    {
        self.rows[y as usize] >> x & 1 == 1
    }

    /// The columns of the cells in row `y`: bit `x` is set exactly where the board has the cell in column `x`.
    #[tactic(auto, unfolding(crate::specs::Board::field_of, crate::specs::Lanes::cells_of_bits))]
    pub fn row(&self, y: u8) -> u16
        requires { y < N }
        ensures { has_bit result ≡ (λ x. field_of self.now x y) }
    {
        self.rows[y as usize]
    }

    /// Adds the cell in column `x` and row `y`.
    #[inline(always)]
    pub fn fill(&mut self, x: u8, y: u8)
        requires column { x ≤ 9 }
        requires row { y < N }
        ensures { field_of self.new ≡ with_cell (field_of self.old) x y }
    {
        self.rows[y as usize] |= 1 << x;
    }

    /// The board plus the cell in column `x` and row `y`.
    #[inline(always)]
    pub fn with(&self, x: u8, y: u8) -> LaneBoard<N>
        requires column { x ≤ 9 }
        requires row { y < N }
        ensures { field_of result ≡ with_cell (field_of self.now) x y }
    {
        let mut board = *self;
        board.fill(x, y);
        board
    }
}
