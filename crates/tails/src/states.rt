// The states of a pattern: what is left of its elements when some pieces are drawn.
ghost use Rattle.std.specs.Prelude.{◌≡◌, ◌↔◌, ◌+◌, ◌-◌, ◌*◌, ◌<◌, ◌≤◌, IfOk, IsTrue, Some, drop, length, slice_get, true};
ghost use Rattle.srs.specs.declared.piece.Piece.{Piece};
ghost use Rattle.queue_pattern.specs.Pattern.{elements_of};
ghost use Rattle.queue_pattern.specs.Queues.{is_in, pieces_in, queues};
ghost use Rattle.tails.specs.MadeStates.{AreAfter, IsAfter, LeadsTo, tail_count};
ghost use Rattle.tails.specs.Trees.{AreStates, first_number};

use pc_outside::NoMemory;
use queue_pattern::sets::{is_in, size, without};
use queue_pattern::{Element, Pattern};
use srs::Piece;
use std::alloc::Global;

/// A state of a pattern. The states of an element with each set of pieces have numbers side by side.
#[derive(Clone, Copy)]
pub(crate) struct State {
    /// The pieces that may be drawn next: bit `c - 1` stands for the piece with code `c`.
    pub(crate) set: u8,
    /// How many pieces of the element that is drawn from are still to be drawn: 0 only where nothing is.
    pub(crate) draws: u8,
    /// The number of the first element behind that one.
    pub(crate) behind: u8,
    /// How many tails the state has. 0 if it is no state of the pattern.
    pub(crate) count: u32,
    /// How many of them begin with each piece that may be drawn next.
    pub(crate) each: u32,
    /// The numbers of the states after these pieces, by their codes.
    pub(crate) next: [u16; 8],
}

/// The number of the state at which no piece of an element, or of those behind it, is drawn.
pub(crate) fn first_of(pattern: &Pattern, index: u8) -> u16
    requires { index ≤ length (elements_of pattern.now) }
    ensures { result ≡ first_number (elements_of pattern.now) index }
{
    let mut set = 0;
    if index < pattern.elements() {
        set = pattern.element(index).set;
    }
    u16::from(index) * 128 + u16::from(set)
}

/// Whether each piece of a set is in another one.
fn is_part(set: u8, whole: u8) -> bool
    ensures { IsTrue result ↔ ((piece : Piece) → is_in piece set ≡ true → is_in piece whole ≡ true) }
{
    for piece in Piece::ALL {
        if is_in(piece, set) && !is_in(piece, whole) {
            return false;
        }
    }
    true
}

/// How many tails there are where a set is left of an element's pieces.
fn count_at(pattern: &Pattern, index: u8, element: Element, set: u8) -> u32
    requires there { slice_get (elements_of pattern.now) index ≡ Some element }
    requires fewer { length (pieces_in set) ≤ length (pieces_in element.set) }
    requires drawn { length (pieces_in element.set) - length (pieces_in set) ≤ element.chosen }
    ensures value { result ≡ tail_count (length (pieces_in set))
        (element.chosen - (length (pieces_in element.set) - length (pieces_in set)))
        (drop (index + 1) (elements_of pattern.now)) }
    ensures few { result ≤ 10000000 }
{
    let most = size(element.set);
    let mut count = pattern.count_from(index);
    for drawn in 0..most - size(set) {
        count /= u32::from(most - drawn);
    }
    count
}

/// The number of the state after a piece, which is the last that is drawn of the element or not.
fn after(pattern: &Pattern, index: u8, set: u8, last: bool, piece: Piece) -> u16
    requires within { index < length (elements_of pattern.now) }
    requires set { set < 128 }
    ensures { IsAfter (elements_of pattern.now) index set last piece result }
{
    if last {
        return first_of(pattern, index + 1);
    }
    u16::from(index) * 128 + u16::from(without(set, piece))
}

/// The numbers of the states after all pieces, by their codes.
fn all_after(pattern: &Pattern, index: u8, set: u8, last: bool) -> [u16; 8]
    requires within { index < length (elements_of pattern.now) }
    requires set { set < 128 }
    ensures { AreAfter (elements_of pattern.now) index set last result }
{
    let mut next = [0; 8];
    for piece in Piece::ALL {
        next[usize::from(piece.code())] = after(pattern, index, set, last, piece);
    }
    next
}

impl State {
    ghost use Rattle.tails.specs.MadeStates.{IsMadeAt, end_state};
    ghost use Rattle.tails.specs.States.{no_state};

    /// No state of a pattern.
    fn none() -> State
        ensures { result ≡ no_state }
    {
        State {
            set: 0,
            draws: 0,
            behind: 0,
            count: 0,
            each: 0,
            next: [0; 8],
        }
    }

    /// The state at which nothing is to be drawn.
    fn ended(pattern: &Pattern) -> State
        ensures { result ≡ end_state (length (elements_of pattern.now)) }
    {
        State {
            set: 0,
            draws: 0,
            behind: pattern.elements(),
            count: 1,
            each: 0,
            next: [0; 8],
        }
    }

    /// The state at which this set is left of an element's pieces.
    fn of(pattern: &Pattern, index: u8, element: Element, set: u8) -> State
        requires there { slice_get (elements_of pattern.now) index ≡ Some element }
        requires set { set < 128 }
        ensures { IsMadeAt (elements_of pattern.now) index set element result }
    {
        let drawn = size(element.set).saturating_sub(size(set));
        if drawn >= element.chosen || !is_part(set, element.set) {
            return State::none();
        }
        let draws = element.chosen - drawn;
        let count = count_at(pattern, index, element, set);
        State {
            set,
            draws,
            behind: index + 1,
            count,
            each: count / u32::from(size(set)),
            next: all_after(pattern, index, set, draws == 1),
        }
    }
}

/// The states of a pattern, by their numbers.
pub(crate) fn states_of(alloc: Global, pattern: &Pattern) -> Result<Vec<State>, NoMemory>
    ensures size { IfOk result (λ states. length states.items ≡ length (elements_of pattern.now) * 128 + 1) }
    ensures states { IfOk result (λ states. AreStates (elements_of pattern.now) states.items) }
    ensures first { IfOk result (λ states. LeadsTo (elements_of pattern.now) states.items
        (first_number (elements_of pattern.now) 0) (queues (elements_of pattern.now))) }
{
    let mut states = Vec::new(alloc);
    for index in 0..pattern.elements() {
        let element = pattern.element(index);
        for set in 0..128 {
            states.push(State::of(pattern, index, element, set))?;
        }
    }
    states.push(State::ended(pattern))?;
    Ok(states)
}
