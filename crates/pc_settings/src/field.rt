// A field, how many of its rows are to be removed, and with which pieces and rules.
use hold_queue::Hold;
use moves::DropMode;
use srs::{Piece, Rules};

/// The words that give the field.
#[derive(Clone, Copy, Debug, PartialEq, Eq)]
pub enum FieldWords<'a> {
    /// Rows text: rows from the top one down, separated by `/`.
    Rows(&'a str),
    /// A fumen text, or `-` for the one in the source. The field is one of its pages.
    Tetfu(&'a str),
}

/// What every call of a command on a field asks for.
#[derive(Clone, Copy, Debug, PartialEq, Eq)]
pub struct FieldSettings<'a> {
    pub field: FieldWords<'a>,
    /// If the field is a fumen's, the number of its page, counted from 1.
    pub page: u32,
    /// How many rows are to be removed, 1 to 8.
    pub height: u8,
    /// The text of a pattern of queues.
    pub patterns: &'a str,
    pub hold: Hold,
    /// The piece that is held at the start. If hold is avoided, it is never played.
    pub held: Option<Piece>,
    pub drop_mode: DropMode,
    /// The table of offsets that gives the kicks of all turns.
    pub rules: Rules,
}
