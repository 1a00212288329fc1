// Cells whose rows are sent to others, and the rows that a set has.
ghost use Rattle.std.specs.Prelude.{◌≡◌, ◌≤◌, ◌<◌, ℕ, IsTrue, slice_index};
ghost use Rattle.std.specs.List.{list_all};
ghost use Rattle.lane_board.specs.Field.{rows_below};
ghost use Rattle.lane_board.specs.Lanes.{has_bit};
ghost use Rattle.well.specs.Counts.{is_filled_row};
ghost use Rattle.srs.specs.Cells.{cells_of};
ghost use Rattle.empty_cells.specs.Empties.{empty_cells, has_cell_at};
ghost use Rattle.empty_cells.specs.SentCells.{sent_cells};

use crate::empties::Empties;
use crate::rows::rows_of;
use srs::{Placement, cells};

impl Empties {
    /// The cells of a placement, each in its column, and in the row `rows[y]` if it lies in row `y`.
    #[inline(always)]
    pub fn sent(placement: &Placement, rows: &[u8; 8]) -> Empties
        requires column { placement.now.x ≤ 31 }
        requires row { placement.now.y ≤ 31 }
        requires inside { IsTrue (list_all (has_cell_at (rows_below 8)) (cells_of placement.now)) }
        requires rows { (y : ℕ) → y < 8 → slice_index rows.now y < 8 }
        ensures { empty_cells result ≡ sent_cells rows.now placement.now }
    {
        let mut sent = Empties::empty();
        for (x, y) in cells(placement) {
            sent = sent.with_cell(x as u8, rows[y as usize]);
        }
        sent
    }

    /// The rows in which the set has a cell. Bit `y` stands for row `y`.
    #[inline(always)]
    pub fn rows(&self) -> u8
        ensures { (y : ℕ) → y < 8 → has_bit result y ≡ is_filled_row (empty_cells self.now) y }
    {
        rows_of(self.bits())
    }
}
