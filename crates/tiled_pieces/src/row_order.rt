// Which rows go before which.
ghost use Rattle.std.specs.Prelude.{ℕ, ◌≡◌, ◌<◌, ◌+◌, ◌*◌, ◌&&◌, ◌==◌, IsTrue, List, MatchOption, ◌∷◌};
ghost use Rattle.lane_board.specs.Lanes.{has_bit};
ghost use Rattle.empty_cells.specs.Empties.{empty_cells};
ghost use Rattle.srs.specs.declared.piece.Piece.{Piece};
ghost use Rattle.tiled_pieces.specs.TilingLists.{LaidPiece};

use crate::words::between;
use empty_cells::{Empties, has_row, lowest_row, without_row};

/// Which rows go before which: bit `8 * z + r` is set if row `z` goes before row `r`.
#[derive(Clone, Copy)]
pub(crate) struct RowOrder {
    /// Whether pieces have to keep to it. If not, no bit is set.
    pub(crate) is_kept: bool,
    pub(crate) before: u64,
}

impl RowOrder {
    ghost use Rattle.tiled_pieces.specs.RowBits.{Agrees, Follows, GoBefore, GoesBefore};

    /// No row has to go before another one yet.
    pub(crate) fn new(is_kept: bool) -> RowOrder
        ensures kept { result.is_kept ≡ is_kept }
        ensures none { result.before ≡ 0 }
    {
        RowOrder { is_kept, before: 0 }
    }

    /// Whether both are the same.
    #[inline(always)]
    pub(crate) fn is_equal(self, other: RowOrder) -> bool
        ensures { IsTrue result → self ≡ other }
    {
        self.before == other.before && self.is_kept == other.is_kept
    }

    /// A number that differs for most orders.
    #[inline(always)]
    pub(crate) fn mixed(self) -> u64 {
        self.before.wrapping_mul(0x9e37_79b9_7f4a_7c15) >> 20
    }

    /// The order once a piece with these cells is put. `None` only if it cannot be put.
    #[inline(always)]
    pub(crate) fn with_piece(self, cells: &Empties) -> Option<RowOrder>
        ensures { (piece : Piece) (more : List LaidPiece)
            → Follows self (record { piece = piece; cells = empty_cells cells.now } ∷ more)
            → MatchOption result ⊥ (λ order. Follows order more) }
    {
        if !self.is_kept {
            return Some(self);
        }
        let rows = cells.rows();
        let gaps = between(rows);
        if gaps == 0 {
            return Some(self);
        }
        self.with(gaps, rows)
    }

    /// The order in which also each of these gaps goes before each of these rows. `None` only if a row would go before
    /// itself.
    fn with(self, gaps: u8, rows: u8) -> Option<RowOrder>
        ensures { (turn : ℕ → ℕ) → Agrees turn self.before → GoBefore turn gaps rows
            → MatchOption result ⊥ (λ order. Agrees turn order.before) }
    {
        let later = self.later(rows);
        if later & gaps != 0 {
            return None;
        }
        let mut order = self;
        for row in 0..8u8 {
            if order.leads_to(row, gaps) {
                order = order.with_row(row, later);
            }
        }
        Some(order)
    }

    /// The rows before which a row goes.
    #[inline(always)]
    fn after(self, row: u8) -> u8
        requires { row < 8 }
        ensures { (r : ℕ) → r < 8 → has_bit result r ≡ has_bit self.before (8 * row + r) }
    {
        (self.before >> (8 * row) & 255) as u8
    }

    /// Some rows, and those before which they go.
    #[inline(always)]
    fn later(self, rows: u8) -> u8
        ensures { (turn : ℕ → ℕ) (z : ℕ) → Agrees turn self.before → GoesBefore turn z rows
            → GoesBefore turn z result }
    {
        let mut later = rows;
        let mut rest = rows;
        while rest > 0 {
            let row = lowest_row(rest);
            later |= self.after(row);
            rest = without_row(rest, row);
        }
        later
    }

    /// Whether a row is one of these or goes before one.
    #[inline(always)]
    fn leads_to(self, row: u8, gaps: u8) -> bool
        requires { row < 8 }
        ensures { IsTrue result → (turn : ℕ → ℕ) (rows : ℕ) → Agrees turn self.before → GoBefore turn gaps rows
            → GoesBefore turn row rows }
    {
        if has_row(gaps, row) {
            return true;
        }
        self.after(row) & gaps != 0
    }

    /// The order in which also a row goes before these.
    #[inline(always)]
    fn with_row(self, row: u8, later: u8) -> RowOrder
        requires { row < 8 }
        ensures { (turn : ℕ → ℕ) → Agrees turn self.before → GoesBefore turn row later
            → Agrees turn result.before }
    {
        RowOrder {
            is_kept: self.is_kept,
            before: self.before | u64::from(later) << (8 * row),
        }
    }
}
