// Reading the text of a placement.
ghost use Rattle.std.specs.Prelude.{◌≡◌};
ghost use Rattle.placement_form.specs.Reading.{capital_piece, digit_in, placement_in, row_in, two_digit_row};

use srs::{Piece, Placement, Rotation};

/// The piece with this capital letter. `None` exactly if the byte is no piece's capital letter.
pub fn capital_piece(letter: u8) -> Option<Piece>
    ensures { result ≡ capital_piece letter }
{
    Piece::ALL
        .iter()
        .copied()
        .find(|piece| piece.letter() == letter)
}

/// The value of a digit. `None` exactly if the byte is not a digit.
pub fn digit_in(letter: u8) -> Option<u8>
    ensures { result ≡ digit_in letter }
{
    if b'0' <= letter && letter <= b'9' {
        Some(letter - b'0')
    } else {
        None
    }
}

/// The row that two digits make, tens first. `None` exactly if the tens are 0 or the row is above 22.
pub fn two_digit_row(tens: u8, ones: u8) -> Option<u8>
    ensures { result ≡ two_digit_row tens ones }
{
    let row = 10 * u16::from(tens) + u16::from(ones);
    if 0 < tens && row <= 22 {
        Some(row as u8)
    } else {
        None
    }
}

/// A row from 0 to 22, without a leading zero.
#[tactic(auto, unfolding(crate::specs::Reading::row_in))]
fn row_in(text: &[u8]) -> Option<u8>
    ensures { result ≡ row_in text.now }
{
    match text {
        [digit] => digit_in(*digit),
        [tens, ones] => two_digit_row(digit_in(*tens)?, digit_in(*ones)?),
        _ => None,
    }
}

/// The placement that this is the text of, in columns 0 to 9 and rows 0 to 22. Some of its cells may lie outside.
/// `None` exactly if the text is that of no such placement.
#[tactic(auto, unfolding(crate::specs::Reading::placement_in))]
pub fn read_placement(text: &[u8]) -> Option<Placement>
    ensures { result ≡ placement_in text.now }
{
    match text {
        [piece, rotation, b':', column, b',', row @ ..] => Some(Placement {
            piece: capital_piece(*piece)?,
            rotation: Rotation::from_letter(*rotation)?,
            x: digit_in(*column)?,
            y: row_in(row)?,
        }),
        _ => None,
    }
}
