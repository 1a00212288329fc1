// Sets of cells whose columns are counted from one of them.
ghost use Rattle.std.specs.Prelude.{ℕ, ◌≡◌, ◌≤◌, ◌+◌, true};
ghost use Rattle.empty_cells.specs.Empties.{empty_cells};

use crate::empties::Empties;
use crate::span::Span;
use crate::supply::SupplyWord;

/// A set of cells, none of which lies before a column. Its columns are counted from that one.
#[derive(Clone, Copy)]
pub struct Shifted {
    cells: Empties,
    /// The column from which they are counted.
    pub x: u8,
    ghost column: { x ≤ 9 },
    ghost within: { (a b : ℕ) → empty_cells cells a b ≡ true → x + a ≤ 9 },
}

impl Shifted {
    ghost use Rattle.std.specs.Prelude.{◌<◌, ◌↔◌, ◌⊎◌, IsTrue, MatchOption};
    ghost use Rattle.lane_board.specs.Lanes.{has_bit};
    ghost use Rattle.prune.specs.Counts.{run_empties};
    ghost use Rattle.prune.specs.Tiling.{Tiling};
    ghost use Rattle.empty_cells.specs.Empties.{all_but};
    ghost use Rattle.empty_cells.specs.Spans.{from_column, has_span, without_span, HasNoCell, IsFirst};
    ghost use Rattle.empty_cells.specs.Refusals.{HasUnevenStart, HasWrongParity};
    ghost use Rattle.empty_cells.specs.ShiftedCells.{shifted_cells};
    ghost use Rattle.empty_cells.specs.SupplyWords.{supply_of};

    /// A set with its columns counted from 0.
    pub fn new(cells: &Empties) -> Shifted
        ensures { shifted_cells result ≡ empty_cells cells.now }
    {
        Shifted {
            cells: *cells,
            x: 0,
        }
    }

    /// The same cells with their columns counted from the leftmost that has one, and the row of the lowest cell there.
    /// `None` exactly if there is no cell.
    #[inline(always)]
    pub fn from_first(&self) -> Option<(Shifted, u8)>
        ensures { MatchOption result (HasNoCell (shifted_cells self.now))
            (λ first. (shifted_cells first.0 ≡ shifted_cells self.now)
            × IsFirst (shifted_cells self.now) first.0.x first.1) }
    {
        let Some((x, y)) = self.cells.first() else {
            return None;
        };
        let first = Shifted {
            cells: self.cells.from_column(x),
            x: self.x + x,
        };
        Some((first, y))
    }

    /// The same cells with their columns counted from 0.
    #[inline(always)]
    pub fn cells(&self) -> Empties
        ensures { empty_cells result ≡ shifted_cells self.now }
    {
        self.cells.to_column(self.x)
    }

    /// The set with its columns counted from that one.
    #[inline(always)]
    pub fn counted(&self) -> Empties
        ensures { empty_cells result ≡ from_column self.now.x (shifted_cells self.now) }
    {
        self.cells
    }

    /// Whether the set has at most four cells.
    #[inline(always)]
    pub fn is_few(&self) -> bool
        ensures { IsTrue result
            ↔ (run_empties (all_but (from_column self.now.x (shifted_cells self.now))) 8 0 9 ≤ 4) }
    {
        self.cells.is_few()
    }

    /// The rows in which the set has all cells of a span whose first column is the one from which they are counted.
    #[inline(always)]
    pub fn rows_with(&self, span: Span) -> u8
        ensures { (y : ℕ) → y < 8 → has_bit result y ≡ has_span (shifted_cells self.now) self.now.x span y }
    {
        self.cells.rows_with(0, span)
    }

    /// The set without the cells of such a span in a row.
    #[inline(always)]
    pub fn without_span(&self, span: Span, y: u8) -> Shifted
        requires { y ≤ 7 }
        ensures cells { shifted_cells result ≡ without_span (shifted_cells self.now) self.now.x span y }
        ensures column { result.x ≡ self.now.x }
    {
        Shifted {
            cells: self.cells.without_span(0, span, y),
            x: self.x,
        }
    }

    /// Whether a wall in the first four columns from that one on, or parity, shows that there is no tiling.
    #[inline(always)]
    pub fn is_refused(&self, supply: SupplyWord) -> bool
        ensures exact { IsTrue result
            ↔ (HasUnevenStart (from_column self.now.x (shifted_cells self.now))
            ⊎ HasWrongParity (from_column self.now.x (shifted_cells self.now)) (supply_of supply)) }
        ensures none { IsTrue result → Tiling (all_but (shifted_cells self.now)) 8 (supply_of supply) → ⊥ }
    {
        self.cells.has_uneven_start() || self.cells.has_wrong_parity(supply)
    }
}
