// A set of empty cells.
ghost use Rattle.std.specs.Prelude.{◌≡◌, ℕ, ◌<◌, ◌≤◌, ◌^◌, ◌+◌, ◌*◌, ◌==◌, ◌&&◌};
ghost use Rattle.lane_board.specs.Lanes.{has_bit};

use crate::span::Span;
use well::Well;

/// A set of cells in columns 0 to 9 and rows 0 to 7. The question is whether pieces can fill them.
#[derive(Clone, Copy)]
pub struct Empties {
    /// Bit `8 * column + row` is set exactly if the set has the cell.
    cells: u128,
    ghost in_columns: { cells < 2 ^ 80 },
}

/// The cells of a row of ten, each column's in the lowest row: bit `8 * x` is set exactly if bit `x` of the row is.
#[inline(always)]
fn spread(row: u16) -> u128
    requires { row < 1024 }
    ensures small { result < 2 ^ 73 }
    ensures bits { (x y : ℕ) → x ≤ 9 → y < 8
        → has_bit result (8 * x + y) ≡ ((y == 0) && has_bit row x) }
{
    let low = u64::from(row & 127) * 0x0408_1020_4081 & 0x0001_0101_0101_0101;
    let high = u64::from(row >> 7) * 0x4081 & 0x0001_0101;
    u128::from(low) | u128::from(high) << 56
}

impl Empties {
    ghost use Rattle.std.specs.Prelude.{◌-◌, ◌↔◌, ◌||◌, nat_le, not, IsTrue, MatchOption, min, sum_by};
    ghost use Rattle.std.specs.List.{range_with_len};
    ghost use Rattle.lane_board.specs.Field.{empty_field, difference, rows_below};
    ghost use Rattle.well.specs.Well.{filled};
    ghost use Rattle.prune.specs.Counts.{column_empties, run_empties};
    ghost use Rattle.empty_cells.specs.Empties.{all_but, cells_by_column, empty_cells};
    ghost use Rattle.empty_cells.specs.ShiftedCells.{to_column};
    ghost use Rattle.empty_cells.specs.Spans.{from_column, has_span, without_span, HasNoCell, IsFirst};

    /// The empty set.
    pub fn empty() -> Empties
        ensures { empty_cells result ≡ empty_field }
    {
        Empties { cells: 0 }
    }

    /// The cells of rows 0 to `rows - 1` that are empty in a well.
    pub fn below(well: &Well, rows: u8) -> Empties
        requires { rows ≤ 8 }
        ensures { empty_cells result ≡ difference (rows_below rows) (filled well.now) }
    {
        let board = well.board();
        let mut cells = 0;
        for y in 0..rows {
            let empty = 1023 ^ (1023 & board.row(y));
            cells |= spread(empty) << y;
        }
        Empties { cells }
    }

    /// The cells as a number: bit `8 * column + row` is set exactly if the set has the cell.
    #[inline(always)]
    pub fn bits(&self) -> u128
        ensures small { result < 2 ^ 80 }
        ensures cells { empty_cells self.now ≡ cells_by_column result }
    {
        self.cells
    }

    /// Whether both sets have the same cells.
    pub fn is_equal(&self, other: &Empties) -> bool
        ensures { IsTrue result ↔ (empty_cells self.now ≡ empty_cells other.now) }
    {
        self.cells == other.cells
    }

    /// Whether the set has at most four cells.
    #[inline(always)]
    pub fn is_few(&self) -> bool
        ensures { IsTrue result ↔ (run_empties (all_but (empty_cells self.now)) 8 0 9 ≤ 4) }
    {
        self.cells.count_ones() <= 4
    }

    /// How many cells the columns have up to this one.
    #[inline(always)]
    pub(crate) fn up_to(&self, last: u8) -> u8
        requires { last ≤ 9 }
        ensures { result ≡ run_empties (all_but (empty_cells self.now)) 8 0 last }
    {
        (self.cells & ((1 << (8 * last + 8)) - 1)).count_ones() as u8
    }

    /// A number that differs for most sets.
    pub(crate) fn mixed(&self) -> u64 {
        let low = (self.cells & 0xffff_ffff_ffff_ffff) as u64;
        let high = (self.cells >> 64) as u64;
        low ^ high.wrapping_mul(0x9e37_79b9_7f4a_7c15)
    }

    /// The lowest cell of the leftmost column that has cells, as column and row. `None` exactly if the set is empty.
    pub fn first(&self) -> Option<(u8, u8)>
        ensures { MatchOption result (HasNoCell (empty_cells self.now))
            (λ cell. IsFirst (empty_cells self.now) cell.0 cell.1) }
    {
        if self.cells == 0 {
            return None;
        }
        let index = self.cells.trailing_zeros() as u8;
        Some((index / 8, index % 8))
    }

    /// The set with its columns counted from column `x` on. Cells in the columns before it are dropped.
    #[inline(always)]
    pub fn from_column(&self, x: u8) -> Empties
        requires { x ≤ 9 }
        ensures { empty_cells result ≡ from_column x (empty_cells self.now) }
    {
        Empties {
            cells: self.cells >> (8 * x),
        }
    }

    /// The set whose columns are counted from column `x` in this one. Cells past column 9 are dropped.
    #[inline(always)]
    pub(crate) fn to_column(&self, x: u8) -> Empties
        requires { x ≤ 9 }
        ensures { (a b : ℕ) → empty_cells result a b
            ≡ (nat_le a 9 && to_column x (empty_cells self.now) a b) }
    {
        Empties {
            cells: self.cells << (8 * x) & 0xffff_ffff_ffff_ffff_ffff,
        }
    }

    /// The set with its columns counted from the right.
    pub fn mirrored(&self) -> Empties
        ensures { (x y : ℕ) → x ≤ 9
            → empty_cells result x y ≡ empty_cells self.now (9 - x) y }
    {
        let mut cells = 0;
        for x in 0..10 {
            cells = cells << 8 | u128::from(self.rows_with(x, Span::First));
        }
        Empties { cells }
    }

    /// Whether more cells lie before a column than in it and after it.
    pub fn lies_right(&self, column: u8) -> bool
        ensures { IsTrue result ↔ (run_empties (all_but (empty_cells self.now)) 8 0 9
            < 2 * sum_by (column_empties (all_but (empty_cells self.now)) 8) (range_with_len 0 (min column 10))) }
    {
        let before = self.cells & ((1 << (8 * column.min(10))) - 1);
        2 * before.count_ones() > self.cells.count_ones()
    }

    /// The rows in which the set has all cells of a span whose first column is `x`. Bit `y` stands for row `y`.
    #[inline(always)]
    pub fn rows_with(&self, x: u8, span: Span) -> u8
        requires { x ≤ 9 }
        ensures { (y : ℕ) → y < 8 → has_bit result y ≡ has_span (empty_cells self.now) x span y }
    {
        (span.starts(self.cells >> (8 * x)) & 255) as u8
    }

    /// The set without these cells: bit `8 * column + row` stands for a cell.
    #[inline(always)]
    pub(crate) fn without_bits(&self, bits: u128) -> Empties
        ensures { (x y : ℕ) → empty_cells result x y
            ≡ (empty_cells self.now x y && not (has_bit bits (8 * x + y))) }
    {
        let taken = self.cells & bits;
        Empties {
            cells: self.cells ^ taken,
        }
    }

    /// The set with the cell at this column and row as well.
    #[inline(always)]
    pub(crate) fn with_cell(&self, x: u8, y: u8) -> Empties
        requires column { x ≤ 9 }
        requires row { y ≤ 7 }
        ensures { (a b : ℕ) → empty_cells result a b
            ≡ (empty_cells self.now a b || (x == a && y == b)) }
    {
        Empties {
            cells: self.cells | 1 << (8 * x + y),
        }
    }

    /// The set without the cells of another one.
    #[inline(always)]
    pub fn without_cells(&self, taken: &Empties) -> Empties
        ensures { empty_cells result ≡ difference (empty_cells self.now) (empty_cells taken.now) }
    {
        self.without_bits(taken.cells)
    }

    /// The set without the cells of a span in a row.
    #[inline(always)]
    pub fn without_span(&self, x: u8, span: Span, y: u8) -> Empties
        requires column { x ≤ 9 }
        requires row { y ≤ 7 }
        ensures { empty_cells result ≡ without_span (empty_cells self.now) x span y }
    {
        self.without_bits(u128::from(span.cells() << y) << (8 * x))
    }
}
