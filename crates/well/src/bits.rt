// The cells of the lowest rows as one number.
ghost use Rattle.std.specs.Prelude.{◌≡◌, ◌≤◌};
ghost use Rattle.lane_board.specs.Field.{intersection, rows_below};
ghost use Rattle.well.specs.CellBits.{cells_in_bits};
ghost use Rattle.well.specs.Well.{filled};

use crate::well::Well;

/// The cells of the rows below `rows_left`: bit `10 * y + x` stands for the cell in column x and row y.
pub fn cells_below(well: &Well, rows_left: u8) -> u128
    requires { rows_left ≤ 8 }
    ensures { cells_in_bits result ≡ intersection (filled well.now) (rows_below rows_left) }
{
    let board = well.board();
    let mut cells = 0;
    for y in (0..rows_left).rev() {
        cells = cells * 1024 + u128::from(board.row(y));
    }
    cells
}
