// The faults of a list of pages.

/// Why a line is refused. Its faults are looked for in this order.
#[derive(Clone, Copy, Debug, PartialEq, Eq)]
pub enum ListKind {
    /// The line follows 10,000 pages.
    TooManyPages,
    /// The line doesn't have exactly four fields, separated by single blanks, or a field is empty.
    BadLine,
    /// The first field doesn't have the form of cells.
    BadCells,
    /// The second field doesn't have the form of an operation.
    BadOperation,
    /// The third field doesn't have the form of flags.
    BadFlags,
    /// The fourth field is neither `-` nor `#` followed by bytes 33 to 126.
    BadComment,
}

/// The first line with a fault, and the fault.
#[derive(Clone, Copy, Debug, PartialEq, Eq)]
pub struct ListFault {
    /// The number of the line, counted from 1.
    pub line: u32,
    /// Why the line is refused.
    pub kind: ListKind,
}
