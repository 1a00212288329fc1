// How a piece is taken from the tails of a state.
ghost use Rattle.std.specs.Prelude.{◌≡◌, ◌+◌, ◌<◌, ◌≤◌, ◌++◌, length};
ghost use Rattle.arrayvec.specs.ArrayVec.{array_vec_len};
ghost use Rattle.srs.specs.Piece.{piece_code};
ghost use Rattle.tails.specs.Takings.{AreTakings, taken_at};

use crate::numbers::tail_number;
use crate::states::State;
use crate::tree::TailTree;
use arrayvec::ArrayVec;
use queue_pattern::sets::is_in;
use srs::Piece;

/// Tails of one state from which a piece can be taken: those that begin with some letter stand side by side. What is
/// left of them stands side by side too, in the same order.
#[derive(Clone, Copy, Default)]
pub(crate) struct Taking {
    /// The place of the first of these tails, and how many they are.
    pub(crate) first: u32,
    pub(crate) count: u32,
    /// The number of what is left of the first.
    pub(crate) base: u64,
}

/// A state has at most seven letters. All can be drawn where the held piece is taken, and one of them can be taken.
pub(crate) type Takings = ArrayVec<Taking, 8>;

/// The tails that begin with a letter, from the place of the first of them on.
fn push_letter(takings: &mut Takings, state: &State, first: u32, held: u8, code: u8, letter: Piece)
    requires held { held < 8 }
    requires next { length state.now.next ≡ 8 }
    requires room { array_vec_len takings.old + length (taken_at state.now first held code letter) ≤ 8 }
    ensures { takings.new.items ≡ takings.old.items ++ taken_at state.now first held code letter }
{
    let next = state.next[usize::from(letter.code())];
    let run = Taking {
        first,
        count: state.each,
        base: 0,
    };
    if held == code {
        takings.push(Taking {
            base: tail_number(next, letter.code(), 0),
            ..run
        });
    }
    if letter.code() == code {
        takings.push(Taking {
            base: tail_number(next, held, 0),
            ..run
        });
    }
}

impl TailTree {
    /// How a piece can be taken from the tails of a state behind a held piece.
    pub(crate) fn takings(&self, state_number: u16, held: u8, piece: Piece) -> Takings
        requires { held < 8 }
        ensures { AreTakings self.now state_number held (piece_code piece) result.items }
    {
        let mut takings = Takings::new();
        let code = piece.code();
        let index = usize::from(state_number);
        if self.states.len() <= index {
            return takings;
        }
        let state = self.states[index];
        if state.count == 0 {
            return takings;
        }
        if state.draws == 0 {
            if held == code {
                takings.push(Taking {
                    first: 0,
                    count: 1,
                    base: tail_number(state_number, 0, 0),
                });
            }
            return takings;
        }
        let mut first = 0;
        for letter in Piece::ALL {
            if is_in(letter, state.set) {
                push_letter(&mut takings, &state, first, held, code, letter);
                first += state.each;
            }
        }
        takings
    }
}
