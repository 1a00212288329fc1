// The flood: from a set of states to all states that allowed keys lead to.
ghost use Rattle.std.specs.Prelude.{◌≡◌, ◌⊎◌};
ghost use Rattle.lane_board.specs.Field.{empty_field, union};
ghost use Rattle.srs.specs.Rotation.{clockwise_of, anticlockwise_of};
ghost use Rattle.srs.specs.Rules.{table_of};
ghost use Rattle.whole_flood.specs.Flood.{IsSettled, IsFlood, shifts_in};
ghost use Rattle.srs.specs.Kick.{kicks_of};
ghost use Rattle.place_sets.specs.States.{states_of, states_with};
ghost use Rattle.whole_flood.specs.Kicks.{turned_from};

use crate::turn::turned;
use moves::DropMode;
use place_sets::{Pivots, Shifts, spread};
use srs::{Piece, Rotation, Rules};

/// All states that allowed keys lead to from the start states, given the free states. A rotation is visited again only
/// if its states have changed.
pub(crate) fn flood<const N: usize>(
    free: &Pivots<N>,
    rules: &Rules,
    piece: Piece,
    mode: DropMode,
    start: &Pivots<N>,
) -> Pivots<N>
    ensures { IsFlood (record { table = table_of rules.now; piece = piece; mode = mode; free = states_of free.now })
        (states_of start.now) (states_of result) }
{
    let mut reached = *start;
    let mut done = Pivots::empty();
    'rounds: while let Some(rotation) = done.difference(&reached) {
        reached = settle(free, rules, piece, mode, rotation, &reached);
        done = done.with(rotation, reached.board(rotation));
    }
    reached
}

/// The states, plus all that single moves within one rotation and then a quarter turn lead to.
fn settle<const N: usize>(
    free: &Pivots<N>,
    rules: &Rules,
    piece: Piece,
    mode: DropMode,
    rotation: Rotation,
    reached: &Pivots<N>,
) -> Pivots<N>
    ensures { IsSettled (record { table = table_of rules.now; piece = piece; mode = mode; free = states_of free.now })
        rotation (states_of reached.now) (states_of result) }
{
    let wide = spread(free.board(rotation), shifts(mode), reached.board(rotation));
    let reached = reached.with(rotation, &wide);
    let reached = turn(free, rules, piece, rotation, rotation.clockwise(), &reached);
    turn(
        free,
        rules,
        piece,
        rotation,
        rotation.anticlockwise(),
        &reached,
    )
}

/// The moves within a rotation that the drop mode allows.
fn shifts(mode: DropMode) -> Shifts
    ensures { result ≡ shifts_in mode }
{
    match mode {
        DropMode::Soft => Shifts::All,
        DropMode::Hard => Shifts::Sideways,
    }
}

/// The states, plus those that a quarter turn leads to from the states in one rotation.
fn turn<const N: usize>(
    free: &Pivots<N>,
    rules: &Rules,
    piece: Piece,
    from: Rotation,
    to: Rotation,
    reached: &Pivots<N>,
) -> Pivots<N>
    requires { (to ≡ clockwise_of from) ⊎ (to ≡ anticlockwise_of from) }
    ensures { states_of result ≡ states_with (states_of reached.now) to
        (union (states_of reached.now to) (turned_from (states_of free.now to) N
        (kicks_of (table_of rules.now) piece from to) (states_of reached.now from) empty_field)) }
{
    let arrivals = turned(free.board(to), rules, piece, from, to, reached.board(from));
    reached.with(to, &reached.board(to).or(&arrivals))
}
