// Why a problem is refused.

/// The first condition of a fit problem that fails, in this order.
#[derive(Clone, Copy, Debug, PartialEq, Eq)]
pub enum ProblemFault {
    /// The height is not 1 to 8.
    BadHeight { height: u8 },
    /// A cell at or above the height is filled; `row` is the lowest such row.
    FieldTooHigh { row: u8 },
    /// A row is full; `row` is the lowest full row.
    FullRow { row: u8 },
    /// Fewer pieces are at hand than a solution needs.
    TooFewPieces { have: u8, need: u8 },
}
