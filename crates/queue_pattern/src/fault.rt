// Why a pattern text is refused.

/// Why a text is not a pattern. A `place` is the index of a byte of the text, from 0.
#[derive(Clone, Copy, Debug, PartialEq, Eq)]
pub enum PatternFault {
    /// A byte that no pattern can have here, or the text ends within an element.
    Unexpected { place: usize },
    /// The same piece stands twice between brackets; the place is that of the second.
    RepeatedPiece { place: usize },
    /// An element chooses more pieces than its set has, or its set is empty. The place is the element's first byte.
    TooManyChosen { place: usize },
    /// Each queue would have more than 22 pieces.
    PatternTooLong,
    /// There would be more than 10,000,000 queues.
    TooManyQueues,
}
