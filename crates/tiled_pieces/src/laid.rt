// A piece of a tiling.
ghost use Rattle.std.specs.Prelude.{ℕ, ◌≡◌, ◌<◌, ◌^◌};
ghost use Rattle.lane_board.specs.Lanes.{has_bit};
ghost use Rattle.well.specs.Counts.{is_filled_row};
ghost use Rattle.empty_cells.specs.Empties.{cells_by_column};
ghost use Rattle.tiled_pieces.specs.Words.{is_between};

use crate::words::between;
use empty_cells::rows_of;

/// The cells of a piece, and the weight of its kind.
#[derive(Clone, Copy)]
pub(crate) struct Laid {
    pub(crate) cells: u128,
    pub(crate) weight: u16,
    /// The rows between its rows.
    pub(crate) between: u8,
    ghost in_columns: { cells < 2 ^ 80 },
    ghost light: { weight < 2 ^ 16 },
    ghost rows: { (z : ℕ) → z < 8 → has_bit between z ≡ is_between (is_filled_row (cells_by_column cells)) z },
}

impl Laid {
    #[inline(always)]
    pub(crate) fn new(cells: u128, weight: u16) -> Laid
        requires { cells < 2 ^ 80 }
        ensures cells { result.cells ≡ cells }
        ensures weight { result.weight ≡ weight }
    {
        Laid {
            cells,
            weight,
            between: between(rows_of(cells)),
        }
    }
}
