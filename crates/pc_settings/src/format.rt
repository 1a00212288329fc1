// The formats of a report.

/// The format in which each sequence of a report is written.
#[derive(Clone, Copy, Debug, PartialEq, Eq)]
pub enum Format {
    /// Its placements, separated by blanks.
    Text,
    /// A fumen text with one page for each placement.
    Fumen,
    /// Its placements, and then a picture of each.
    Grid,
}
