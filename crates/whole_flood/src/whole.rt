// Places in any field and by any table of offsets, from a flood of the whole well.
ghost use Rattle.std.specs.Prelude.{◌≡◌};
ghost use Rattle.lane_board.specs.Board.{field_of};
ghost use Rattle.srs.specs.Rules.{table_of};
ghost use Rattle.moves.specs.Place.{IsPlace};
ghost use Rattle.place_sets.specs.States.{HasExactly, states_of};
ghost use Rattle.whole_flood.specs.Started.{started};

use crate::flood::flood;
use crate::fold::folded;
use crate::free::free_states;
use crate::rest::resting;
use lane_board::LaneBoard;
use moves::DropMode;
use place_sets::Pivots;
use srs::{Piece, Rotation, Rules};

/// The places of a piece.
#[inline(never)]
pub fn whole_places(
    filled: &LaneBoard<24>,
    rules: &Rules,
    piece: Piece,
    drop_mode: DropMode,
) -> Pivots<24>
    ensures { HasExactly (IsPlace (table_of rules.now) (field_of filled.now) drop_mode) piece (states_of result) }
{
    let free = free_states(filled, piece);
    let reached = flood(&free, rules, piece, drop_mode, &started(&free));
    folded(piece, &resting(&free, &reached))
}

#[tactic(auto, unfolding(crate::specs::Started::started, place_sets::specs::States::states_of))]
/// The state in which a piece spawns, with its pivot in column 4 and row 20 in rotation 0, if that state is free.
fn started(free: &Pivots<24>) -> Pivots<24>
    ensures { states_of result ≡ started (states_of free.now) }
{
    let appearing = LaneBoard::empty().with(4, 20).and(&free.spawn);
    Pivots::empty().with(Rotation::Spawn, &appearing)
}
