// Reading the values of options that are no plain numbers.
ghost use Rattle.std.specs.Prelude.{◌≡◌};
ghost use Rattle.pc_words.specs.Values.{dialect_in, drop_in, format_in, height_in, held_in, hold_in, yes_in};

use crate::numbers::number_in;
use fumen_digits::Dialect;
use hold_queue::Hold;
use moves::DropMode;
use pc_settings::Format;
use srs::Piece;

/// The most rows that may be removed.
const MOST_ROWS: u32 = 8;

/// How many rows are to be removed: 1 to 8.
pub fn height_in(text: &str) -> Option<u8>
    ensures { result ≡ height_in text.now }
{
    Some(number_in(1, MOST_ROWS, text.as_bytes())? as u8)
}

/// Whether pieces may be held: `use` or `avoid`.
#[tactic(auto, unfolding(crate::specs::Values::hold_in))]
pub fn hold_in(text: &str) -> Option<Hold>
    ensures { result ≡ hold_in text.now }
{
    match text {
        "use" => Some(Hold::Allowed),
        "avoid" => Some(Hold::Avoided),
        _ => None,
    }
}

/// The piece that is held at the start: one piece letter, capital or small.
pub fn held_in(text: &str) -> Option<Piece>
    ensures { result ≡ held_in text.now }
{
    match text.as_bytes() {
        [letter] => Piece::from_letter(*letter),
        _ => None,
    }
}

/// How pieces drop: `soft` or `hard`.
#[tactic(auto, unfolding(crate::specs::Values::drop_in))]
pub fn drop_in(text: &str) -> Option<DropMode>
    ensures { result ≡ drop_in text.now }
{
    match text {
        "soft" => Some(DropMode::Soft),
        "hard" => Some(DropMode::Hard),
        _ => None,
    }
}

/// Whether something is wanted: `yes` or `no`.
#[tactic(auto, unfolding(crate::specs::Values::yes_in))]
pub fn yes_in(text: &str) -> Option<bool>
    ensures { result ≡ yes_in text.now }
{
    match text {
        "yes" => Some(true),
        "no" => Some(false),
        _ => None,
    }
}

/// The format in which sequences are written: `text`, `fumen` or `grid`.
#[tactic(auto, unfolding(crate::specs::Values::format_in))]
pub fn format_in(text: &str) -> Option<Format>
    ensures { result ≡ format_in text.now }
{
    match text {
        "text" => Some(Format::Text),
        "fumen" => Some(Format::Fumen),
        "grid" => Some(Format::Grid),
        _ => None,
    }
}

/// The dialect of a fumen text: `110` or `115`.
#[tactic(auto, unfolding(crate::specs::Values::dialect_in))]
pub fn dialect_in(text: &str) -> Option<Dialect>
    ensures { result ≡ dialect_in text.now }
{
    match text {
        "110" => Some(Dialect::V110),
        "115" => Some(Dialect::V115),
        _ => None,
    }
}
