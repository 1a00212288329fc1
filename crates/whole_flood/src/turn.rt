// How a set of pivots turns, by the five tests of a table of offsets.
ghost use Rattle.std.specs.Prelude.{◌≡◌, ◌⊎◌};
ghost use Rattle.lane_board.specs.Board.{field_of};
ghost use Rattle.lane_board.specs.Field.{empty_field};
ghost use Rattle.srs.specs.Kick.{pair_of, kicks_of};
ghost use Rattle.srs.specs.Rotation.{clockwise_of, anticlockwise_of};
ghost use Rattle.srs.specs.Rules.{table_of};
ghost use Rattle.moves.specs.Step.{IsShort};
ghost use Rattle.whole_flood.specs.Kicks.{reversed, kicked_to, left_by, turned_from};

use lane_board::LaneBoard;
use srs::{Offset, Piece, Rotation, Rules, kick};

/// Where a quarter turn takes the pivots of one rotation, each by the first of the five tests that succeeds.
pub(crate) fn turned<const N: usize>(
    free: &LaneBoard<N>,
    rules: &Rules,
    piece: Piece,
    from: Rotation,
    to: Rotation,
    pivots: &LaneBoard<N>,
) -> LaneBoard<N>
    requires { (to ≡ clockwise_of from) ⊎ (to ≡ anticlockwise_of from) }
    ensures { field_of result ≡ turned_from (field_of free.now) N (kicks_of (table_of rules.now) piece from to)
        (field_of pivots.now) empty_field }
{
    let mut left = *pivots;
    let mut reached = LaneBoard::empty();
    for test in 1..6 {
        let offset = kick(rules, piece, from, to, test);
        let hits = kicked_to(free, offset, &left);
        reached = reached.or(&hits);
        left = left_by(&hits, offset, &left);
    }
    reached
}

/// The free pivots that one test takes these pivots to.
#[tactic(auto, unfolding(crate::specs::Kicks::kicked_to))]
#[inline(always)]
fn kicked_to<const N: usize>(
    free: &LaneBoard<N>,
    offset: Offset,
    pivots: &LaneBoard<N>,
) -> LaneBoard<N>
    requires { IsShort offset }
    ensures { field_of result ≡ kicked_to (field_of free.now) N (pair_of offset) (field_of pivots.now) }
{
    free.and(&pivots.moved(offset.dx, offset.dy))
}

/// The pivots that the test takes nowhere, given those that it takes them to.
#[tactic(auto, using(lane_board::proofs::CallerLemmas::few_rows), unfolding(crate::specs::Kicks::left_by))]
#[inline(always)]
fn left_by<const N: usize>(
    hits: &LaneBoard<N>,
    offset: Offset,
    pivots: &LaneBoard<N>,
) -> LaneBoard<N>
    requires { IsShort offset }
    ensures { field_of result ≡ left_by N (pair_of offset) (field_of hits.now) (field_of pivots.now) }
{
    let back = reversed(offset);
    pivots.minus(&hits.moved(back.dx, back.dy))
}

/// The opposite move.
#[inline(always)]
fn reversed(offset: Offset) -> Offset
    requires { IsShort offset }
    ensures back { pair_of result ≡ reversed (pair_of offset) }
    ensures short { IsShort result }
{
    Offset {
        dx: 0 - offset.dx,
        dy: 0 - offset.dy,
    }
}
