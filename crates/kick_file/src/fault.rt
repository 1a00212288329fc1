// Why a table text is refused.

/// Why a text spells no table. A `place` is the index of a byte of the text, from 0.
#[derive(Clone, Copy, Debug, PartialEq, Eq)]
pub enum KickFault {
    /// A byte that no text of entries can have here, or the text ends within an entry or after a `;`.
    Unexpected { place: usize },
    /// The piece and rotation of this entry had an entry before. The place is this entry's first byte.
    RepeatedEntry { place: usize },
}
