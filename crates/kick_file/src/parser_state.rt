// Where a table text stands between two bytes.
ghost use Rattle.std.specs.Prelude.{◌≡◌, IsTrue, IfSome};
ghost use Rattle.kick_file.specs.Reading.{next_state, number_with_digit, is_sound_state};

use crate::turned::TurnedPiece;
use srs::{Offset, Piece, Rotation};

/// What stands before the next byte of a text. Tests count from 1 to 5.
#[derive(Clone, Copy, Debug)]
pub enum ParserState {
    /// Nothing.
    Beginning,
    /// The `;` after an entry.
    Division,
    /// The letter of a piece, at the place `start`.
    Letter {
        piece: Piece,
        start: usize,
    },
    /// The letters of a piece and of a rotation. The first is at the place `start`.
    Letters {
        turned: TurnedPiece,
        start: usize,
    },
    /// What comes before the columns of an offset, possibly with a `-`.
    Columns {
        turned: TurnedPiece,
        test: u8,
        is_negative: bool,
    },
    /// The columns of an offset.
    Comma {
        turned: TurnedPiece,
        test: u8,
        dx: i8,
    },
    /// The comma of an offset, possibly with a `-` after it.
    Rows {
        turned: TurnedPiece,
        test: u8,
        dx: i8,
        is_negative: bool,
    },
    /// A whole offset.
    Whole {
        turned: TurnedPiece,
        test: u8,
        offset: Offset,
    },
}

/// The number that this digit gives: from 0 to 3, or from -1 to -3 after a `-`.
fn number(digit: u8, is_negative: bool) -> Option<i8>
    ensures { result ≡ number_with_digit is_negative digit }
{
    match (digit, is_negative) {
        (b'0', false) => Some(0),
        (b'1', false) => Some(1),
        (b'2', false) => Some(2),
        (b'3', false) => Some(3),
        (b'1', true) => Some(-1),
        (b'2', true) => Some(-2),
        (b'3', true) => Some(-3),
        _ => None,
    }
}

impl ParserState {
    /// Where the text stands after this byte, which is at `place`. `None` exactly if no text of entries goes on like
    /// that.
    pub fn next(self, place: usize, byte: u8) -> Option<ParserState>
        requires { IsTrue (is_sound_state self) }
        ensures next { result ≡ next_state self place byte }
        ensures sound { IfSome result (λ state. IsTrue (is_sound_state state)) }
    {
        match self {
            ParserState::Beginning | ParserState::Division => Some(ParserState::Letter {
                piece: Piece::from_letter(byte)?,
                start: place,
            }),
            ParserState::Letter { piece, start } => letters(piece, start, byte),
            ParserState::Letters { turned, .. } => colon(turned, byte),
            ParserState::Columns {
                turned,
                test,
                is_negative,
            } => columns(turned, test, is_negative, byte),
            ParserState::Comma { turned, test, dx } => comma(turned, test, dx, byte),
            ParserState::Rows {
                turned,
                test,
                dx,
                is_negative,
            } => rows(turned, test, dx, is_negative, byte),
            ParserState::Whole {
                turned,
                test,
                offset,
            } => after_offset(turned, test, offset, byte),
        }
    }
}

/// The letter of a rotation, behind that of a piece at the place `start`.
fn letters(piece: Piece, start: usize, byte: u8) -> Option<ParserState>
    ensures next { result ≡ next_state (ParserState.Letter piece start) 0 byte }
    ensures sound { IfSome result (λ state. IsTrue (is_sound_state state)) }
{
    let rotation = Rotation::from_letter(byte)?;
    let turned = TurnedPiece { piece, rotation };
    Some(ParserState::Letters { turned, start })
}

/// The `:` behind the letters of a piece and of a rotation.
fn colon(turned: TurnedPiece, byte: u8) -> Option<ParserState>
    ensures next { result ≡ next_state (ParserState.Letters turned 0) 0 byte }
    ensures sound { IfSome result (λ state. IsTrue (is_sound_state state)) }
{
    if byte == b':' {
        return Some(ParserState::Columns {
            turned,
            test: 1,
            is_negative: false,
        });
    }
    None
}

/// The comma behind the columns of an offset.
fn comma(turned: TurnedPiece, test: u8, dx: i8, byte: u8) -> Option<ParserState>
    requires { IsTrue (is_sound_state (ParserState.Comma turned test dx)) }
    ensures next { result ≡ next_state (ParserState.Comma turned test dx) 0 byte }
    ensures sound { IfSome result (λ state. IsTrue (is_sound_state state)) }
{
    if byte == b',' {
        return Some(ParserState::Rows {
            turned,
            test,
            dx,
            is_negative: false,
        });
    }
    None
}

/// What stands behind the offset of a test: the `/` before the next one, or the `;` after the last.
fn after_offset(turned: TurnedPiece, test: u8, offset: Offset, byte: u8) -> Option<ParserState>
    requires { IsTrue (is_sound_state (ParserState.Whole turned test offset)) }
    ensures next { result ≡ next_state (ParserState.Whole turned test offset) 0 byte }
    ensures sound { IfSome result (λ state. IsTrue (is_sound_state state)) }
{
    if test < 5 && byte == b'/' {
        return Some(ParserState::Columns {
            turned,
            test: test + 1,
            is_negative: false,
        });
    }
    if test == 5 && byte == b';' {
        return Some(ParserState::Division);
    }
    None
}

/// The columns of an offset, or the `-` before them.
fn columns(turned: TurnedPiece, test: u8, is_negative: bool, byte: u8) -> Option<ParserState>
    requires { IsTrue (is_sound_state (ParserState.Columns turned test is_negative)) }
    ensures next { result ≡ next_state (ParserState.Columns turned test is_negative) 0 byte }
    ensures sound { IfSome result (λ state. IsTrue (is_sound_state state)) }
{
    if byte == b'-' && !is_negative {
        return Some(ParserState::Columns {
            turned,
            test,
            is_negative: true,
        });
    }
    let dx = number(byte, is_negative)?;
    Some(ParserState::Comma { turned, test, dx })
}

/// The rows of an offset, or the `-` before them.
fn rows(turned: TurnedPiece, test: u8, dx: i8, is_negative: bool, byte: u8) -> Option<ParserState>
    requires { IsTrue (is_sound_state (ParserState.Rows turned test dx is_negative)) }
    ensures next { result ≡ next_state (ParserState.Rows turned test dx is_negative) 0 byte }
    ensures sound { IfSome result (λ state. IsTrue (is_sound_state state)) }
{
    if byte == b'-' && !is_negative {
        return Some(ParserState::Rows {
            turned,
            test,
            dx,
            is_negative: true,
        });
    }
    let dy = number(byte, is_negative)?;
    Some(ParserState::Whole {
        turned,
        test,
        offset: Offset { dx, dy },
    })
}
