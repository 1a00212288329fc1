// The text of one placement, with or without keys, read byte by byte.
ghost use Rattle.std.specs.Prelude.{◌≡◌, ◌<◌};
ghost use Rattle.sequence_text.specs.Reading.{step, step_at, after_row_step, keys_step, key_step, is_key_letter, may_end, unread};

use moves::Key;
use placement_form::{capital_piece, digit_in, two_digit_row};
use srs::{Piece, Placement, Rotation};

/// What may come next.
#[derive(Clone, Copy, Debug, PartialEq, Eq)]
pub enum Due {
    PieceLetter,
    RotationLetter,
    Colon,
    Column,
    Comma,
    Row,
    /// A second digit of the row, or what follows the placement.
    AfterRow,
    Key,
    AfterKeys,
}

/// What has been read of a placement.
#[derive(Clone, Copy, Debug, PartialEq, Eq)]
pub struct Reading {
    pub due: Due,
    pub placement: Placement,
}

fn is_key_letter(byte: u8) -> bool
    ensures { result ≡ is_key_letter byte }
{
    Key::ALL.iter().any(|key| key.letter() == byte)
}

fn keys_step(placement: Placement, byte: u8) -> Option<Reading>
    ensures { result ≡ keys_step placement byte }
{
    (byte == b':').then_some(Reading {
        due: Due::Key,
        placement,
    })
}

/// The step after a row: after a 0 or two digits, no further digit makes a row up to 22.
fn after_row_step(placement: Placement, byte: u8) -> Option<Reading>
    ensures { result ≡ after_row_step placement byte }
{
    let Some(ones) = digit_in(byte) else {
        return keys_step(placement, byte);
    };
    let y = two_digit_row(placement.y, ones)?;
    Some(Reading {
        due: Due::AfterRow,
        placement: Placement { y, ..placement },
    })
}

fn key_step(placement: Placement, byte: u8) -> Option<Reading>
    ensures { result ≡ key_step placement byte }
{
    if is_key_letter(byte) {
        return Some(Reading {
            due: Due::Key,
            placement,
        });
    }
    (byte == b'H').then_some(Reading {
        due: Due::AfterKeys,
        placement,
    })
}

fn piece_step(placement: Placement, byte: u8) -> Option<Reading>
    ensures { result ≡ step_at Due.PieceLetter placement byte }
{
    let piece = capital_piece(byte)?;
    Some(Reading {
        due: Due::RotationLetter,
        placement: Placement { piece, ..placement },
    })
}

fn rotation_step(placement: Placement, byte: u8) -> Option<Reading>
    ensures { result ≡ step_at Due.RotationLetter placement byte }
{
    let rotation = Rotation::from_letter(byte)?;
    Some(Reading {
        due: Due::Colon,
        placement: Placement {
            rotation,
            ..placement
        },
    })
}

fn column_step(placement: Placement, byte: u8) -> Option<Reading>
    ensures { result ≡ step_at Due.Column placement byte }
{
    let x = digit_in(byte)?;
    Some(Reading {
        due: Due::Comma,
        placement: Placement { x, ..placement },
    })
}

fn row_step(placement: Placement, byte: u8) -> Option<Reading>
    ensures { result ≡ step_at Due.Row placement byte }
{
    let y = digit_in(byte)?;
    Some(Reading {
        due: Due::AfterRow,
        placement: Placement { y, ..placement },
    })
}

impl Reading {
    /// No byte has been read yet.
    pub fn unread() -> Reading
        ensures { result ≡ unread }
    {
        Reading {
            due: Due::PieceLetter,
            placement: Placement {
                piece: Piece::I,
                rotation: Rotation::Spawn,
                x: 0,
                y: 0,
            },
        }
    }

    /// Whether the placement may end here.
    pub fn may_end(self) -> bool
        ensures { result ≡ may_end self.due }
    {
        matches!(self.due, Due::AfterRow | Due::AfterKeys)
    }

    /// The reading after one more byte. `None` exactly if the byte may not come here.
    #[tactic(auto, unfolding(crate::specs::Reading::step))]
    pub fn step(self, byte: u8) -> Option<Reading>
        ensures { result ≡ step self byte }
    {
        let placement = self.placement;
        match self.due {
            Due::PieceLetter => piece_step(placement, byte),
            Due::RotationLetter => rotation_step(placement, byte),
            Due::Colon => (byte == b':').then_some(Reading {
                due: Due::Column,
                placement,
            }),
            Due::Column => column_step(placement, byte),
            Due::Comma => (byte == b',').then_some(Reading {
                due: Due::Row,
                placement,
            }),
            Due::Row => row_step(placement, byte),
            Due::AfterRow => after_row_step(placement, byte),
            Due::Key => key_step(placement, byte),
            Due::AfterKeys => None,
        }
    }
}
