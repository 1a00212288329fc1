// The rows of an earlier field in which the rows of a position stand.
ghost use Rattle.std.specs.Prelude.{◌≡◌, ℕ, ◌≤◌, ◌<◌, not, slice_index};
ghost use Rattle.lane_board.specs.Field.{Field};
ghost use Rattle.lane_board.specs.FullRows.{is_full};
ghost use Rattle.lane_board.specs.Lanes.{has_bit};
ghost use Rattle.percent.specs.Spread.{KeepsRows};

use empty_cells::has_row;

/// Those of the first `height` rows that a set has, in their order.
pub fn rows_among(rows: &[u8; 8], height: u8, set: u8) -> [u8; 8]
    requires height { height ≤ 8 }
    requires within { (y : ℕ) → y < 8 → slice_index rows.now y < 8 }
    ensures within { (y : ℕ) → y < 8 → slice_index result y < 8 }
    ensures kept { (G : Field)
        → ((y : ℕ) → y < height → has_bit set (slice_index rows.now y) ≡ not (is_full G y))
        → KeepsRows G height rows.now result }
{
    let mut kept = [0; 8];
    let mut count = 0;
    for y in 0..usize::from(height) {
        let row = rows[y];
        if has_row(set, row) {
            kept[count] = row;
            count += 1;
        }
    }
    kept
}
