// The faults of lines of sequences.

/// What is wrong with a line that should be a sequence.
#[derive(Clone, Copy, Debug, PartialEq, Eq)]
pub enum CoverKind {
    /// The line is not the text of a sequence of the needed length.
    BadSequence,
    /// 100,000 sequences, the most that may be given, stand before the line.
    TooManySequences,
}

/// The first fault of lines of sequences.
#[derive(Clone, Copy, Debug, PartialEq, Eq)]
pub struct CoverFault {
    /// The number of the line, counted from 1.
    pub line: u32,
    /// What is wrong with it.
    pub kind: CoverKind,
}
