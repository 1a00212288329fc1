// Why a rows text is refused.

/// Why a text is not a rows text. A `place` is the index of a byte of the text, from 0. Rows are counted from 1 at the
/// top.
#[derive(Clone, Copy, Debug, PartialEq, Eq)]
pub enum RowsFault {
    /// A byte that is neither a row character nor `/`.
    BadRowChar { place: usize },
    /// A row has an eleventh character, or fewer than ten.
    BadRowLength { row: u8 },
    /// A 24th row begins.
    TooManyRows,
}
