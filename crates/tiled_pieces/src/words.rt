// Sets of cells in columns 0 to 9 and rows 0 to 7 as numbers. Bit `8 * column + row` stands for a cell.
ghost use Rattle.std.specs.Prelude.{ℕ, ◌≡◌, ◌≤◌, ◌<◌, ◌+◌, ◌*◌, ◌^◌, ◌&&◌, not, nat_lt};
ghost use Rattle.lane_board.specs.Lanes.{has_bit};
ghost use Rattle.well.specs.Counts.{is_filled_row};
ghost use Rattle.empty_cells.specs.Empties.{cells_by_column};
ghost use Rattle.tiled_pieces.specs.Words.{is_filled, has_floor, has_above, is_between};

/// The lowest row.
const LOWEST: u128 = 0x0101_0101_0101_0101_0101;

/// All cells of some rows.
#[inline(always)]
pub(crate) fn in_rows(rows: u8) -> u128
    ensures { (x y : ℕ) → x ≤ 9 → y < 8 → has_bit result (8 * x + y) ≡ has_bit rows y }
{
    u128::from(rows) * LOWEST
}

/// The cells of one set that are not in another.
#[inline(always)]
pub(crate) fn without(cells: u128, others: u128) -> u128
    ensures bits { (k : ℕ) → has_bit result k ≡ (has_bit cells k && not (has_bit others k)) }
    ensures small { cells < 2 ^ 80 → result < 2 ^ 80 }
{
    cells ^ (cells & others)
}

/// The filled cells of rows that are not gone.
#[inline(always)]
pub(crate) fn filled(cells: u128, rows: u8) -> u128
    requires { (y : ℕ) → y < 8 → has_bit rows y ≡ is_filled_row (cells_by_column cells) y }
    ensures { (x y : ℕ) → x ≤ 9 → y < 8 → has_bit result (8 * x + y) ≡ is_filled (cells_by_column cells) x y }
{
    without(in_rows(rows), cells)
}

/// The cells that have a floor.
#[inline(always)]
pub(crate) fn floors(cells: u128, rows: u8, filled: u128) -> u128
    requires rows { (y : ℕ) → y < 8 → has_bit rows y ≡ is_filled_row (cells_by_column cells) y }
    requires filled { (x y : ℕ) → x ≤ 9 → y < 8
        → has_bit filled (8 * x + y) ≡ is_filled (cells_by_column cells) x y }
    ensures { (x y : ℕ) → x ≤ 9 → y < 8
        → has_bit result (8 * x + y) ≡ has_floor (cells_by_column cells) x y }
{
    let mut floors = filled << 1 | LOWEST;
    for y in 0..7u8 {
        floors |= (floors & without(LOWEST << y, in_rows(rows))) << 1;
    }
    floors
}

/// The set with each cell some rows further down.
#[inline(always)]
fn lowered(cells: u128, by: u8) -> u128
    requires { by ≤ 7 }
    ensures { (x y : ℕ) → x ≤ 9 → y < 8
        → has_bit result (8 * x + y) ≡ (nat_lt (y + by) 8 && has_bit cells (8 * x + (y + by))) }
{
    cells >> by & in_rows(255 >> by)
}

/// The cells that lie below one of the set.
#[inline(always)]
pub(crate) fn below(cells: u128) -> u128
    ensures { (x y : ℕ) → x ≤ 9 → y < 8
        → has_bit result (8 * x + y) ≡ has_above (cells_by_column cells) 8 x y }
{
    let one = lowered(cells, 1);
    let two = one | lowered(one, 1);
    let four = two | lowered(two, 2);
    four | lowered(four, 4)
}

/// The same if pieces must drop, and no cell if they need not.
#[inline(always)]
pub(crate) fn covered(cells: u128, drops: bool) -> u128
    ensures { (x y : ℕ) → x ≤ 9 → y < 8
        → has_bit result (8 * x + y) ≡ (drops && has_above (cells_by_column cells) 8 x y) }
{
    if drops { below(cells) } else { 0 }
}

/// The rows between those of a set that are not in it.
#[inline(always)]
pub(crate) fn between(rows: u8) -> u8
    ensures { (z : ℕ) → z < 8 → has_bit result z ≡ is_between (has_bit rows) z }
{
    let two = rows | rows >> 1;
    let four = two | two >> 2;
    let down = four | four >> 4;
    let two = rows | rows << 1;
    let four = two | two << 2;
    let up = four | four << 4;
    let both = down & up;
    both ^ (both & rows)
}
