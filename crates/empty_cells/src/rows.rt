// Sets of rows 0 to 7. Bit `y` stands for row `y`.
ghost use Rattle.std.specs.Prelude.{◌≡◌, ◌≤◌, ◌<◌, ◌&&◌, ◌==◌, ℕ, not, nat_le, true};
ghost use Rattle.lane_board.specs.Lanes.{has_bit};
ghost use Rattle.well.specs.Counts.{is_filled_row};
ghost use Rattle.empty_cells.specs.Empties.{cells_by_column};
ghost use Rattle.empty_cells.specs.Stacks.{is_allowed};

use crate::span::Span;

/// The rows from this one on.
#[inline(always)]
pub(crate) fn rows_from(row: u8) -> u8
    requires { row ≤ 8 }
    ensures { (y : ℕ) → y < 8 → has_bit result y ≡ nat_le row y }
{
    (255u16 << row & 255) as u8
}

/// Whether a set has a row.
#[inline(always)]
pub fn has_row(rows: u8, row: u8) -> bool
    requires { row < 8 }
    ensures { result ≡ has_bit rows row }
{
    rows >> row & 1 == 1
}

/// The rows in which a set of cells has one. Bit `8 * column + row` stands for a cell.
#[inline(always)]
pub fn rows_of(cells: u128) -> u8
    ensures { (y : ℕ) → y < 8 → has_bit result y ≡ is_filled_row (cells_by_column cells) y }
{
    let two = cells | cells >> 8;
    let four = two | two >> 16;
    let eight = four | four >> 32;
    ((eight | two >> 64) & 255) as u8
}

/// The rows of one set that the other doesn't have.
#[inline(always)]
pub(crate) fn rows_without(rows: u8, others: u8) -> u8
    ensures { (y : ℕ) → has_bit result y ≡ (has_bit rows y && not (has_bit others y)) }
{
    rows ^ (rows & others)
}

/// The lowest row of a set.
#[inline(always)]
pub fn lowest_row(rows: u8) -> u8
    requires { 0 < rows }
    ensures below { result < 8 }
    ensures has { has_bit rows result ≡ true }
{
    rows.trailing_zeros() as u8
}

/// The set without this row.
#[inline(always)]
pub fn without_row(rows: u8, row: u8) -> u8
    requires { row < 8 }
    ensures others { (y : ℕ) → y < 8 → has_bit result y ≡ (has_bit rows y && not (y == row)) }
    ensures fewer { has_bit rows row ≡ true → result < rows }
{
    rows & !(1 << row)
}

/// The rows from `floor` on that a span may take so that the lowest span with the first column takes row `y`. The rule
/// binds as long as that span is still to come, that is, while `floor` is at most `y`.
#[inline(always)]
pub fn allowed(y: u8, floor: u8, span: Span) -> u8
    requires row { y ≤ 7 }
    requires start { floor ≤ 8 }
    ensures { (row : ℕ) → row < 8
        → has_bit result row ≡ (nat_le floor row && is_allowed y floor span row) }
{
    let rows = rows_from(floor);
    if y < floor {
        return rows;
    }
    if span.has_first() {
        rows_without(rows_from(y), rows_from(y + 1))
    } else {
        rows_without(rows, rows_from(y))
    }
}
