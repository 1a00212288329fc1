// Why pages are not written.

/// Why pages can't be written as a fumen text. Pages are counted from 1.
#[derive(Clone, Copy, Debug, PartialEq, Eq)]
pub enum EncodeFault {
    /// There are more than 10,000 pages.
    TooManyPages,
    /// This page has a cell above 8.
    BadCell { page: u32 },
    /// The operation of this page has a cell outside the columns or the dialect's rows.
    PieceOutside { page: u32 },
    /// The escaped comment of this page has more than 4,095 characters.
    CommentTooLong { page: u32 },
    /// This page has a cell that is not 0 in a row that the dialect doesn't have.
    RowTooHigh { page: u32 },
}
