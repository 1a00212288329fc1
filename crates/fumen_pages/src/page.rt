// One page of a fumen, and how many pages a list may have.
use fumen_comment::Comment;
use srs::Placement;

/// The most pages of one list.
pub const MOST_PAGES: usize = 10_000;

/// A page: its cells, and what is done on it.
///
/// The 240 cells stand row by row from row 22 down to row 0, each from left to right, with the garbage row last: column
/// x of row y has the index `(22 - y) * 10 + x`. 0 is empty, 1 to 7 are the codes of the pieces, and 8 is grey. In the
/// dialect of 21 rows, the first 20 cells are 0.
#[derive(Debug, Drop, PartialEq, Eq)]
pub struct Page {
    /// The colours of the cells.
    pub cells: [u8; 240],
    /// The piece that is placed, if any.
    pub operation: Option<Placement>,
    /// Whether the garbage row comes in from below when the page locks.
    pub rise: bool,
    /// Whether the rows are mirrored when the page locks.
    pub mirror: bool,
    /// Whether the colours are those of the guideline. Fumen sets this on the first page.
    pub colour: bool,
    /// Whether the page locks. Only then do its operation, rise and mirror change the cells that it leaves.
    pub lock: bool,
    /// The comment. A page without one shows the comment of the page before.
    pub comment: Option<Comment>,
}
