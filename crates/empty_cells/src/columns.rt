// The cells of a set column by column: quick tests that show that it has no tiling.
ghost use Rattle.std.specs.Prelude.{◌≡◌, ◌≤◌, ◌↔◌, ◌+◌, ◌*◌, IsTrue, sum_by};
ghost use Rattle.std.specs.List.{range_with_len};
ghost use Rattle.prune.specs.Tiling.{Supply, Tiling};
ghost use Rattle.prune.specs.Counts.{column_empties};
ghost use Rattle.prune.specs.Walls.{IsWall, HasUnevenPart};
ghost use Rattle.empty_cells.specs.Empties.{all_but, empty_cells};
ghost use Rattle.empty_cells.specs.Refusals.{HasUnevenStart, HasWrongParity};
ghost use Rattle.empty_cells.specs.SupplyWords.{supply_of};

use crate::empties::Empties;
use crate::span::Span;
use crate::supply::SupplyWord;
use srs::Piece;

impl Empties {
    /// Whether some columns between two walls have a number of cells that is not a multiple of four. Then there is no
    /// tiling. A wall stands between two columns if no row has a cell in both, and at each side.
    pub fn has_uneven_part(&self) -> bool
        ensures exact { IsTrue result ↔ HasUnevenPart (all_but (empty_cells self.now)) 8 }
        ensures none { IsTrue result → (supply : Supply)
            → Tiling (all_but (empty_cells self.now)) 8 supply → ⊥ }
    {
        let mut cells = 0;
        for x in 0..10 {
            cells += self.in_column(x);
            if cells % 4 != 0 && self.is_walled(x) {
                return true;
            }
        }
        false
    }

    /// Whether a number of cells before a wall is not a multiple of four, with the wall behind one of the first four
    /// columns. Then there is no tiling. A piece that takes cells of column 0 makes no other wall.
    #[inline(always)]
    pub fn has_uneven_start(&self) -> bool
        ensures exact { IsTrue result ↔ HasUnevenStart (empty_cells self.now) }
        ensures none { IsTrue result → (supply : Supply)
            → Tiling (all_but (empty_cells self.now)) 8 supply → ⊥ }
    {
        for last in 0..4 {
            if self.is_walled(last) && self.up_to(last) % 4 != 0 {
                return true;
            }
        }
        false
    }

    /// Whether a wall stands to the right of a column.
    #[inline(always)]
    fn is_walled(&self, x: u8) -> bool
        requires { x ≤ 9 }
        ensures { IsTrue result ↔ IsWall (all_but (empty_cells self.now)) 8 (x + 1) }
    {
        self.rows_with(x, Span::FirstTwo) == 0
    }

    /// How many cells a column has.
    #[inline(always)]
    fn in_column(&self, x: u8) -> u8
        requires { x ≤ 9 }
        ensures number { result ≡ column_empties (all_but (empty_cells self.now)) 8 x }
        ensures small { result ≤ 8 }
    {
        self.rows_with(x, Span::First).count_ones() as u8
    }

    /// Whether parity shows that there is no tiling: the supply has no T, the cells would use it up, and the number of
    /// cells in even columns is even while that of L and J pieces together is odd, or the other way round.
    #[inline(always)]
    pub fn has_wrong_parity(&self, supply: SupplyWord) -> bool
        ensures exact { IsTrue result
            ↔ HasWrongParity (empty_cells self.now) (supply_of supply) }
        ensures none { IsTrue result
            → Tiling (all_but (empty_cells self.now)) 8 (supply_of supply) → ⊥ }
    {
        if supply.count_of(Piece::T) > 0 {
            return false;
        }
        let odd_kinds = supply.count_of(Piece::L) % 2 + supply.count_of(Piece::J) % 2;
        let even_columns = self.in_five_columns(0);
        if (even_columns + odd_kinds) % 2 == 0 {
            return false;
        }
        let cells = even_columns + self.in_five_columns(1);
        4 * supply.pieces() == u16::from(cells)
    }

    /// How many cells every second column has, from column `first` on, which is 0 or 1.
    #[inline(always)]
    fn in_five_columns(&self, first: u8) -> u8
        requires { first ≤ 1 }
        ensures number { result ≡ sum_by (λ k. column_empties (all_but (empty_cells self.now)) 8 (2 * k + first))
            (range_with_len 0 5) }
        ensures small { result ≤ 40 }
    {
        self.in_column(first)
            + self.in_column(first + 2)
            + self.in_column(first + 4)
            + self.in_column(first + 6)
            + self.in_column(first + 8)
    }
}
