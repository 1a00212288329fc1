// The rows of pieces, from the lowest up: which neighbouring columns each row takes.
ghost use Rattle.std.specs.Prelude.{◌≡◌, ℕ, ◌+◌, ◌*◌, ◌==◌, ◌<◌, ◌^◌};
ghost use Rattle.std.specs.List.{list_all, list_any};
ghost use Rattle.lane_board.specs.Lanes.{has_bit};
ghost use Rattle.empty_cells.specs.Spans.{columns_of, has_first};

/// Neighbouring columns of a piece, counted from its leftmost one.
#[derive(Clone, Copy)]
pub enum Span {
    First,
    Second,
    Third,
    FirstTwo,
    SecondTwo,
    FirstThree,
    AllFour,
}

impl Span {
    /// Whether the span has the leftmost column.
    #[inline(always)]
    pub(crate) fn has_first(self) -> bool
        ensures { result ≡ has_first self }
    {
        match self {
            Span::First | Span::FirstTwo | Span::FirstThree | Span::AllFour => true,
            Span::Second | Span::Third | Span::SecondTwo => false,
        }
    }

    /// The columns as a set of cells of row 0: bit `8 * column`.
    #[inline(always)]
    pub(crate) fn cells(self) -> u64
        ensures bits { (k : ℕ)
            → has_bit result k ≡ list_any (λ column. 8 * column == k) (columns_of self) }
        ensures low { result < 2 ^ 32 }
    {
        match self {
            Span::First => 1,
            Span::Second => 0x100,
            Span::Third => 0x1_0000,
            Span::FirstTwo => 0x101,
            Span::SecondTwo => 0x1_0100,
            Span::FirstThree => 0x1_0101,
            Span::AllFour => 0x101_0101,
        }
    }

    /// The cells from which a set has the whole span, to the right of them. Bit `8 * column + row` stands for a cell.
    #[inline(always)]
    pub(crate) fn starts(self, cells: u128) -> u128
        ensures { (k : ℕ)
            → has_bit result k ≡ list_all (λ column. has_bit cells (8 * column + k)) (columns_of self) }
    {
        match self {
            Span::First => cells,
            Span::Second => cells >> 8,
            Span::Third => cells >> 16,
            Span::FirstTwo => cells & cells >> 8,
            Span::SecondTwo => cells >> 8 & cells >> 16,
            Span::FirstThree => cells & cells >> 8 & cells >> 16,
            Span::AllFour => cells & cells >> 8 & cells >> 16 & cells >> 24,
        }
    }
}
