// The well: its cells, the text that it is read from, what is free in it, what locking leaves, and its counts.
ghost use Rattle.std.specs.Prelude.{◌≡◌, ℕ, false};
ghost use Rattle.lane_board.specs.Board.{field_of};

use crate::reader::RowsReader;
use crate::rows::RowsFault;
use lane_board::LaneBoard;
use srs::{Placement, cells};

/// A set of filled cells in columns 0 to 9 and rows 0 to 22.
#[derive(Clone, Copy)]
pub struct Well {
    pub(crate) board: LaneBoard<24>,
    ghost top_is_empty: { (x : ℕ) → field_of board x 23 ≡ false },
}

impl Well {
    ghost use Rattle.std.specs.Prelude.{◌≤◌, ◌<◌, IsTrue, IfOk, IfErr, Some, None};
    ghost use Rattle.lane_board.specs.Field.{empty_field, with_cell};
    ghost use Rattle.well.specs.RowsReading.{raised};
    ghost use Rattle.well.specs.Well.{filled};
    ghost use Rattle.well.specs.Counts.{empties_below, is_filled_row, lowest_full, lowest_filled_from};
    ghost use Rattle.lane_board.specs.FullRows.{full_below, without_full_rows};
    ghost use Rattle.srs.specs.Cells.{in_well};
    ghost use Rattle.well.specs.Free.{is_open, is_free};
    ghost use Rattle.well.specs.Lock.{with_cell_at, together, locked, rows_removed};
    ghost use Rattle.well.specs.Rows.{rows_fault, written_cells};

    /// The well without cells.
    pub fn empty() -> Well
        ensures { filled result ≡ empty_field }
    {
        Well {
            board: LaneBoard::empty(),
        }
    }

    /// Whether the cell in column `x` and row `y` is filled.
    pub fn cell(&self, x: u8, y: u8) -> bool
        requires column { x ≤ 9 }
        requires row { y ≤ 22 }
        ensures { result ≡ filled self.now x y }
    {
        self.board.get(x, y)
    }

    /// The same well, with the cell in column `x` and row `y` filled.
    pub fn with(&self, x: u8, y: u8) -> Well
        requires column { x ≤ 9 }
        requires row { y ≤ 22 }
        ensures { filled result ≡ with_cell (filled self.now) x y }
    {
        Well {
            board: self.board.with(x, y),
        }
    }

    /// Every cell one row higher. Row 22 must be empty.
    pub(crate) fn raised(&self) -> Well
        requires { (x : ℕ) → filled self.now x 22 ≡ false }
        ensures { filled result ≡ raised (filled self.now) }
    {
        Well {
            board: self.board.moved(0, 1),
        }
    }

    /// The board with the same cells.
    pub fn board(&self) -> LaneBoard<24>
        ensures { field_of result ≡ filled self.now }
    {
        self.board
    }

    /// The same board, without a copy.
    #[inline(always)]
    pub fn as_board(&self) -> &LaneBoard<24>
        ensures { field_of result.now ≡ filled self.now }
    {
        &self.board
    }

    /// The well that a rows text spells: rows from the top one down to row 0, separated by `/`, each of ten characters.
    /// `_` and `.` are empty cells; `X` and the letters of the pieces, in either case, are filled ones. The empty text
    /// has no rows. Rows above those that are written are empty. A refusal is the first fault from the left.
    pub fn from_rows(text: &[u8]) -> Result<Well, RowsFault>
        ensures cells { IfOk result (λ well. filled well ≡ written_cells text.now) }
        ensures form { IfOk result (λ _. rows_fault text.now ≡ None) }
        ensures fault { IfErr result (λ fault. rows_fault text.now ≡ Some fault) }
    {
        if text.is_empty() {
            return Ok(Well::empty());
        }
        let mut reader = RowsReader::start();
        for (place, byte) in text.iter().enumerate() {
            reader = reader.read(place, *byte)?;
        }
        reader.finish()
    }

    /// Whether the placement lies inside the well and covers no filled cell.
    #[tactic(auto, unfolding(crate::specs::Free::is_free_at))]
    pub fn is_free(&self, placement: &Placement) -> bool
        requires x { placement.now.x ≤ 31 }
        requires y { placement.now.y ≤ 31 }
        ensures { result ≡ is_free (filled self.now) placement.now }
    {
        cells(placement).iter().all(|cell| self.is_open(*cell))
    }

    /// Fills the placement's cells and removes full rows. Returns the well that is left and the number of removed rows.
    pub fn lock(&self, placement: &Placement) -> (Well, u8)
        requires { IsTrue (is_free (filled self.now) placement.now) }
        ensures field { filled result.0 ≡ locked (filled self.now) placement.now }
        ensures removed { result.1 ≡ rows_removed (filled self.now) placement.now }
    {
        let mut well = *self;
        well.fill(placement);
        let removed = well.remove_full_rows();
        (well, removed)
    }

    /// Whether a pair of column and row is an empty cell of the well.
    fn is_open(&self, cell: (i8, i8)) -> bool
        ensures { result ≡ is_open (filled self.now) cell }
    {
        let (x, y) = cell;
        if x < 0 || 9 < x || y < 0 || 22 < y {
            return false;
        }
        !self.cell(x as u8, y as u8)
    }

    /// Fills the placement's cells. Full rows stay.
    #[inline(always)]
    pub fn fill(&mut self, placement: &Placement)
        requires { IsTrue (is_free (filled self.old) placement.now) }
        ensures { filled self.new ≡ together (filled self.old) placement.now }
    {
        let [a, b, c, d] = cells(placement);
        self.fill_cell(a);
        self.fill_cell(b);
        self.fill_cell(c);
        self.fill_cell(d);
    }

    /// Fills the cell at this column and row.
    #[inline(always)]
    fn fill_cell(&mut self, cell: (i8, i8))
        requires { IsTrue (in_well cell) }
        ensures { filled self.new ≡ with_cell_at (filled self.old) cell }
    {
        let (x, y) = cell;
        self.board.fill(x as u8, y as u8);
    }

    /// Removes the full rows and returns how many there were. Every other cell moves down by the number of full rows below
    /// it.
    #[inline(always)]
    pub fn remove_full_rows(&mut self) -> u8
        ensures field { filled self.new ≡ without_full_rows (filled self.old) 23 }
        ensures removed { result ≡ full_below (filled self.old) 23 }
    {
        self.board.remove_full_rows() as u8
    }

    /// How many cells of the rows below `height` are empty.
    pub fn empties_below(&self, height: u8) -> u8
        requires { height ≤ 23 }
        ensures { result ≡ empties_below (filled self.now) height }
    {
        let cells = self.board.and(&LaneBoard::rows_below(height)).count();
        10 * height - cells as u8
    }

    /// The lowest full row. `None` exactly if no row is full.
    pub fn lowest_full(&self) -> Option<u8>
        ensures { result ≡ lowest_full (filled self.now) }
    {
        let full = self.board.full_rows();
        if full == 0 {
            return None;
        }
        Some(full.trailing_zeros() as u8)
    }

    /// The lowest row at or above the height that has a filled cell. `None` exactly if there is none.
    pub fn lowest_filled_from(&self, height: u8) -> Option<u8>
        requires { height ≤ 23 }
        ensures { result ≡ lowest_filled_from (filled self.now) height }
    {
        for y in height..23 {
            if self.is_filled_row(y) {
                return Some(y);
            }
        }
        None
    }

    /// Whether a row has a filled cell.
    fn is_filled_row(&self, y: u8) -> bool
        requires { y ≤ 22 }
        ensures { result ≡ is_filled_row (filled self.now) y }
    {
        self.board.row(y) != 0
    }
}
