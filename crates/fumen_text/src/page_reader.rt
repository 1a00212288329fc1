// Where a reader of pages stands.

/// Where a reader of pages stands: its place among the digits, the cells at that point, and how many pages are promised
/// to keep their cells.
#[derive(Clone, Copy, Debug, PartialEq, Eq)]
pub(crate) struct PageReader {
    pub(crate) place: usize,
    pub(crate) cells: [u8; 240],
    pub(crate) promised: u32,
}
