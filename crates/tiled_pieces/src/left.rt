// What pieces have left of a set, and whether a further piece fits.
ghost use Rattle.std.specs.Prelude.{ℕ, ◌≡◌, ◌≤◌, ◌<◌, ◌+◌, ◌*◌, ◌^◌, ◌&&◌};
ghost use Rattle.lane_board.specs.Lanes.{has_bit};
ghost use Rattle.well.specs.Counts.{is_filled_row};
ghost use Rattle.empty_cells.specs.Empties.{cells_by_column};
ghost use Rattle.tiled_pieces.specs.Words.{has_above, has_floor, is_filled};

use crate::laid::Laid;
use crate::words::{covered, filled, floors, without};
use empty_cells::rows_of;

/// What is left of a set, and what a further piece must meet.
#[derive(Clone, Copy)]
pub(crate) struct Left {
    pub(crate) cells: u128,
    pub(crate) drops: bool,
    /// The rows that are not gone.
    rows: u8,
    /// The cells that have a floor.
    floors: u128,
    /// The cells that no piece can take from above.
    covered: u128,
    ghost in_columns: { cells < 2 ^ 80 },
    ghost has_rows: { (y : ℕ) → y < 8 → has_bit rows y ≡ is_filled_row (cells_by_column cells) y },
    ghost has_floors: { (x y : ℕ) → x ≤ 9 → y < 8
        → has_bit floors (8 * x + y) ≡ has_floor (cells_by_column cells) x y },
    ghost has_covered: { (x y : ℕ) → x ≤ 9 → y < 8
        → has_bit covered (8 * x + y) ≡ (drops && has_above (is_filled (cells_by_column cells)) 8 x y) },
}

impl Left {
    ghost use Rattle.std.specs.Prelude.{◌↔◌, IsTrue};
    ghost use Rattle.srs.specs.declared.piece.Piece.{Piece};
    ghost use Rattle.tiled_pieces.specs.Built.{Fits};

    #[inline(always)]
    pub(crate) fn new(cells: u128, drops: bool) -> Left
        requires { cells < 2 ^ 80 }
        ensures cells { result.cells ≡ cells }
        ensures drops { result.drops ≡ drops }
    {
        let rows = rows_of(cells);
        let filled = filled(cells, rows);
        Left {
            cells,
            drops,
            rows,
            floors: floors(cells, rows, filled),
            covered: covered(filled, drops),
        }
    }

    /// Whether a piece can be put into what is left.
    #[inline(always)]
    pub(crate) fn fits(&self, piece: &Laid) -> bool
        ensures { (kind : Piece) → IsTrue result ↔ Fits (cells_by_column self.now.cells) self.now.drops
            (record { piece = kind; cells = cells_by_column piece.now.cells }) }
    {
        if without(piece.cells, self.cells) != 0 {
            return false;
        }
        if piece.cells & self.floors == 0 {
            return false;
        }
        if piece.between & self.rows != 0 {
            return false;
        }
        piece.cells & self.covered == 0
    }
}
