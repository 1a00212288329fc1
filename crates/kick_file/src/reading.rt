// Reading a table text.
ghost use Rattle.std.specs.Prelude.{◌≡◌, IsTrue, Ok, Err, Some};
ghost use Rattle.kick_file.specs.Form.{are_distinct, is_repeated};
ghost use Rattle.kick_file.specs.Reading.{beginning, after_byte, reading_at, ended, kick_text, MovesOn, AnswersTable, is_sound_state};

use crate::fault::KickFault;
use crate::parser_state::ParserState;
use crate::turned::TurnedPiece;
use arrayvec::ArrayVec;
use srs::Rules;

/// What has been read of a text: which pieces and rotations have an entry, the table that the entries make, and where
/// the text stands.
#[derive(Drop)]
struct Reader {
    given: ArrayVec<TurnedPiece, 28>,
    rules: Rules,
    state: ParserState,
    ghost distinct: { IsTrue (are_distinct given.items) },
    ghost sound: { IsTrue (is_sound_state state) },
}

impl Reader {
    ghost use Rattle.kick_file.specs.Reader.{reading_of};

    /// A reader before the first byte.
    fn new() -> Reader
        ensures { reading_of result ≡ beginning }
    {
        Reader {
            given: ArrayVec::new(),
            rules: Rules::srs(),
            state: ParserState::Beginning,
        }
    }

    /// Whether this piece in this rotation has an entry.
    fn has(&self, turned: TurnedPiece) -> bool
        ensures { result ≡ is_repeated self.now.given.items turned }
    {
        self.given.iter().any(|other| turned.is_same(*other))
    }

    /// Takes the next byte, which is at this place of the text.
    #[tactic(auto, unfolding(crate::specs::Reading::after_byte))]
    fn take(&mut self, place: usize, byte: u8) -> Result<(), KickFault>
        ensures { MovesOn result (after_byte (reading_of self.old) place byte) (reading_of self.new) }
    {
        match self.state.next(place, byte) {
            Some(state) => self.enter(state),
            None => Err(KickFault::Unexpected { place }),
        }
    }

    /// Moves on to this state of the text.
    fn enter(&mut self, state: ParserState) -> Result<(), KickFault>
        requires { IsTrue (is_sound_state state) }
        ensures { MovesOn result (reading_at (reading_of self.old) 0 (Some state)) (reading_of self.new) }
    {
        match state {
            ParserState::Letters { turned, start } => return self.begin(turned, start),
            ParserState::Whole {
                turned,
                test,
                offset,
            } => {
                self.rules = self
                    .rules
                    .with_offset(turned.piece, turned.rotation, test, offset);
            }
            ParserState::Beginning
            | ParserState::Division
            | ParserState::Letter { .. }
            | ParserState::Columns { .. }
            | ParserState::Comma { .. }
            | ParserState::Rows { .. } => {}
        }
        self.state = state;
        Ok(())
    }

    /// Begins the entry of this piece in this rotation, which starts at the place `start`.
    fn begin(&mut self, turned: TurnedPiece, start: usize) -> Result<(), KickFault>
        ensures { MovesOn result (reading_at (reading_of self.old) 0 (Some (ParserState.Letters turned start)))
            (reading_of self.new) }
    {
        if self.has(turned) {
            return Err(KickFault::RepeatedEntry { place: start });
        }
        self.given.push(turned);
        self.state = ParserState::Letters { turned, start };
        Ok(())
    }

    /// The table of a text that ends at this place.
    fn end(&self, place: usize) -> Result<Rules, KickFault>
        ensures { AnswersTable result (ended (reading_of self.now).table place (reading_of self.now).state) }
    {
        match self.state {
            ParserState::Beginning => Ok(self.rules),
            ParserState::Whole { test: 5, .. } => Ok(self.rules),
            _ => Err(KickFault::Unexpected { place }),
        }
    }
}

/// The table that a text spells, or the first fault from the left.
///
/// A text is a list of entries separated by `;`. No piece and rotation has two entries. An entry is the letter of a
/// piece, capital or small, the letter `0`, `R`, `2` or `L` of a rotation, a colon, and five offsets separated by `/`.
/// An offset is columns to the right and rows up, each from -3 to 3, separated by a comma. A piece and rotation without
/// an entry has its offsets of the Super Rotation System.
#[tactic(auto, using(crate::proofs::Steps::goes_on, std::proofs::lemmas::Result::err_from_is_err_and, crate::proofs::Steps::stops, crate::proofs::Steps::ends))]
pub fn parse(text: &str) -> Result<Rules, KickFault>
    ensures { AnswersTable result (kick_text text.now) }
{
    let bytes = text.as_bytes();
    let mut reader = Reader::new();
    for place in 0..bytes.len() {
        reader.take(place, bytes[place])?;
    }
    reader.end(bytes.len())
}
