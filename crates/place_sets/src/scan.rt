// The first state from a given one on, by rotation, then row, then column, in a set of numbers.
ghost use Rattle.std.specs.Prelude.{◌≡◌, ℕ, ◌<◌, ◌≤◌, ◌↔◌, ◌/◌, ◌%◌};
ghost use Rattle.srs.specs.Rotation.{rotation_index};
ghost use Rattle.place_sets.specs.Numbers.{number_of_state, states_in};
ghost use Rattle.place_sets.specs.Scan.{rising_number, IsStateFrom};

use crate::numbers::Numbers;
use srs::{Piece, Placement, Rotation};

/// The first state at or after this rotation, row and column.
pub(crate) fn first_state(
    numbers: &Numbers,
    piece: Piece,
    first: u8,
    y: u8,
    x: u16,
) -> Option<Placement>
    requires rotation { first < 4 }
    requires column { x ≤ 256 }
    ensures { IsStateFrom (states_in numbers.now) piece (rising_number first y x) result }
{
    match numbers.first_from(number_from(first, y, x)) {
        None => None,
        Some(number) => Some(state_with(piece, number)),
    }
}

/// The least number that a state at or after this rotation, row and column can have.
#[tactic(auto, using(crate::proofs::PlaceNumbers::starts_high, crate::proofs::PlaceNumbers::starts_low))]
fn number_from(first: u8, y: u8, x: u16) -> u16
    requires rotation { first < 4 }
    requires column { x ≤ 256 }
    ensures small { result ≤ 1536 }
    ensures start { (index b a : ℕ) → b < 24 → a < 16 → (rising_number first y x ≤ rising_number index b a)
        ↔ (result ≤ number_of_state index b a) }
{
    let index = u16::from(first);
    if y >= 24 {
        return 384 * (index + 1);
    }
    384 * index + 16 * u16::from(y) + x.min(16)
}

/// The number of a state.
#[inline(always)]
pub(crate) fn number_of(state: &Placement) -> u16
    requires column { state.now.x < 16 }
    requires row { state.now.y < 24 }
    ensures value { result ≡ number_of_state (rotation_index state.now.rotation) state.now.y state.now.x }
    ensures small { result < 1536 }
{
    384 * u16::from(state.rotation.index()) + 16 * u16::from(state.y) + u16::from(state.x)
}

/// The state with a number.
#[inline(always)]
pub(crate) fn state_with(piece: Piece, number: u16) -> Placement
    requires { number < 1536 }
    ensures piece { result.piece ≡ piece }
    ensures rotation { rotation_index result.rotation ≡ number / 384 }
    ensures row { result.y ≡ number % 384 / 16 }
    ensures column { result.x ≡ number % 16 }
{
    Placement {
        piece,
        rotation: rotation_at((number / 384) as u8),
        x: (number % 16) as u8,
        y: (number % 384 / 16) as u8,
    }
}

/// The rotation with this index in the order 0, R, 2, L.
#[inline(always)]
pub(crate) fn rotation_at(index: u8) -> Rotation
    requires { index < 4 }
    ensures { rotation_index result ≡ index }
{
    match index {
        0 => Rotation::Spawn,
        1 => Rotation::Right,
        2 => Rotation::Reverse,
        _ => Rotation::Left,
    }
}
