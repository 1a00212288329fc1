// What is wrong with the input.
use crate::cover_fault::CoverFault;
use crate::words_fault::WordsFault;
use fumen_digits::FumenFault;
use fumen_pages::{EncodeFault, ListFault};
use kick_file::KickFault;
use queue_pattern::PatternFault;
use well::RowsFault;

/// The first fault of the input. Faults are looked for in this order: the words, the offsets, the source, the field,
/// the pattern, the number of queues or of pieces, the given sequence or sequences. `encode` looks for faults of its
/// lines, and then of their pages, after the source.
#[derive(Clone, Copy, Debug, PartialEq, Eq)]
pub enum Fault {
    /// The words are not a command with its options.
    Words(WordsFault),
    /// The text of offsets spells no table.
    Kicks(KickFault),
    /// The source has more than 4,194,304 bytes.
    SourceTooLong,
    /// The text is not a fumen.
    Fumen(FumenFault),
    /// The page that is asked for doesn't exist: its number, and how many pages there are.
    NoPage { asked: u32, there: u32 },
    /// The source is not a list of pages.
    List(ListFault),
    /// The pages can't be written.
    Encode(EncodeFault),
    /// The text is not a rows text. Its fault counts rows from 1 at the top.
    Rows(RowsFault),
    /// A cell at or above the height is filled; `row` is the lowest such row, counted from 0 at the bottom.
    FieldTooHigh { row: u8 },
    /// A row is full; `row` is the lowest full row, counted from 0 at the bottom.
    FullRow { row: u8 },
    /// The text is not a pattern, or one of too many pieces or queues.
    Pattern(PatternFault),
    /// The pattern doesn't stand for exactly one queue, but for this many.
    NotOneQueue { count: u32 },
    /// The queues have fewer pieces than a solution needs.
    TooFewPieces { have: u8, need: u8 },
    /// The text is not a sequence of the needed length. Its first `place` bytes are the longest front that begins such
    /// a text.
    BadAfter { place: usize },
    /// A line of the source is not a sequence, or is one too many.
    Cover(CoverFault),
}
