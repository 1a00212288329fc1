// The settings of `combo`.
use crate::field::FieldWords;
use hold_queue::Hold;
use moves::DropMode;
use srs::{Piece, Rules};

/// What a call of `combo` asks for.
#[derive(Clone, Copy, Debug, PartialEq, Eq)]
pub struct ComboSettings<'a> {
    pub field: FieldWords<'a>,
    /// If the field is a fumen's, the number of its page, counted from 1.
    pub page: u32,
    /// The text of a pattern, which must stand for exactly one queue.
    pub patterns: &'a str,
    pub hold: Hold,
    /// The piece that is held at the start.
    pub held: Option<Piece>,
    pub drop_mode: DropMode,
    /// The table of offsets that gives the kicks of all turns.
    pub rules: Rules,
    /// Whether each placement is written with its keys.
    pub keys: bool,
}
