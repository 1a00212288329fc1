// The faults of a fumen text, for all crates that read one.
use crate::number::DigitFault;

/// Why a text is not a fumen. A place is an index among the digits; pages are counted from 1.
#[derive(Clone, Copy, Debug, PartialEq, Eq)]
pub enum FumenFault {
    /// The text has none of the six prefixes.
    NoFumen,
    /// The byte at this place is not a digit.
    BadDigit { place: usize },
    /// The digits end within the number that begins at this place.
    Truncated { place: usize },
    /// The run at this place is longer than the cells that are left.
    RunPastEnd { place: usize },
    /// The run at this place fits, but makes a cell below 0 or above 8.
    BadCell { place: usize },
    /// The action number at this place is at least 1,024 times the number of cells of a page.
    BadAction { place: usize },
    /// The operation of this page has a cell outside the columns or the dialect's rows.
    PieceOutside { page: u32 },
    /// The group at this place is 96^4 or more, or has a character of value 95 within the length.
    BadComment { place: usize },
    /// Another page follows after 10,000 pages.
    TooManyPages,
}

impl From<DigitFault> for FumenFault {
    ghost use Rattle.std.specs.Prelude.{◌≡◌};
    ghost use Rattle.fumen_digits.specs.Fault.{digit_fault};

    ghost from_gives = { λ fault text. text ≡ digit_fault fault };

    fn from(fault: DigitFault) -> FumenFault {
        match fault {
            DigitFault::Bad { place } => FumenFault::BadDigit { place },
            DigitFault::Truncated { place } => FumenFault::Truncated { place },
        }
    }
}
