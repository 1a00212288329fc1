// A quarter turn of lane states. `KIND`, `TO` and `CLOCKWISE` number the compiled copies, as in `soft`.
ghost use Rattle.std.specs.Prelude.{◌≡◌, ◌-◌, ◌≤ℤ◌, pos, IsTrue};
ghost use Rattle.lane_board.specs.Board.{field_of};
ghost use Rattle.lane_board.specs.Field.{empty_field, difference, intersection, union, moved_within};
ghost use Rattle.srs.specs.Canonical.{canonical_rotation};
ghost use Rattle.srs.specs.Cells.{minus};
ghost use Rattle.lane_board.specs.Lanes.{is_lane_count};
ghost use Rattle.low_flood.specs.LaneTests.{opening, not_below_zero};
ghost use Rattle.low_flood.specs.LaneTurns.{arrivals};

use crate::lane_kicks::lane_kick;
use crate::lane_map::inside_lanes;
use lane_board::LaneBoard;
use srs::{Piece, Rotation, canonical_change};

/// The lane states that a quarter turn leads to, each by the first test that succeeds. `free` are the free ones of the
/// new rotation.
#[inline(always)]
pub(crate) fn arrivals<const KIND: u8, const TO: u8, const CLOCKWISE: bool, const N: usize>(
    piece: Piece,
    from: Rotation,
    to: Rotation,
    free: &LaneBoard<N>,
    states: &LaneBoard<N>,
) -> LaneBoard<N>
    ensures { field_of result ≡ arrivals piece from to N (field_of free.now) (field_of states.now) empty_field }
{
    let inside = inside_lanes(piece, canonical_of(piece, to));
    let start = Turning {
        left: *states,
        reached: LaneBoard::empty(),
    };
    let one = tested(free, &inside, lane_kick(piece, from, to, 1), &start);
    let two = tested(free, &inside, lane_kick(piece, from, to, 2), &one);
    let three = tested(free, &inside, lane_kick(piece, from, to, 3), &two);
    let four = tested(free, &inside, lane_kick(piece, from, to, 4), &three);
    tested(free, &inside, lane_kick(piece, from, to, 5), &four).reached
}

/// The lane states that a test leaves to the next test, and those that are reached.
#[derive(Clone, Copy)]
struct Turning<const N: usize> {
    left: LaneBoard<N>,
    reached: LaneBoard<N>,
}

/// One test: each lane state from which the move leads to an open one goes there.
#[inline(always)]
fn tested<const N: usize>(
    free: &LaneBoard<N>,
    inside: &LaneBoard<N>,
    change: (i8, i8),
    before: &Turning<N>,
) -> Turning<N>
    requires left { minus 5 ≤ℤ change.0 }
    requires right { change.0 ≤ℤ pos 5 }
    requires down { minus 6 ≤ℤ change.1 }
    requires up { change.1 ≤ℤ pos 6 }
    ensures left { field_of result.left ≡ difference (field_of before.now.left)
        (opening N (field_of free.now) (field_of inside.now) change) }
    ensures reached { field_of result.reached
        ≡ union (field_of before.now.reached) (moved_within (intersection (field_of before.now.left)
        (opening N (field_of free.now) (field_of inside.now) change)) N change.0 change.1) }
{
    let back = opening(free, inside, change);
    let hits = before.left.and(&back);
    Turning {
        left: before.left.minus(&back),
        reached: before.reached.or(&hits.moved(change.0, change.1)),
    }
}

/// The lane states from which the move leads to a free one, or to one above the lanes in a column that fits.
#[tactic(auto, unfolding(crate::specs::LaneTests::opening))]
#[inline(always)]
fn opening<const N: usize>(
    free: &LaneBoard<N>,
    inside: &LaneBoard<N>,
    change: (i8, i8),
) -> LaneBoard<N>
    requires left { minus 5 ≤ℤ change.0 }
    requires right { change.0 ≤ℤ pos 5 }
    requires down { minus 6 ≤ℤ change.1 }
    requires up { change.1 ≤ℤ pos 6 }
    ensures { field_of result ≡ opening N (field_of free.now) (field_of inside.now) change }
{
    let staying = LaneBoard::rows_below(lanes_staying::<N>(change.1));
    let above = inside.moved(0 - change.0, 0).minus(&staying);
    free.moved(0 - change.0, 0 - change.1).or(&above)
}

/// How many lanes stay on the board when lane states move by this many rows.
#[inline(always)]
#[tactic(auto, using(crate::proofs::LaneTests::staying_all, crate::proofs::LaneTests::staying_some))]
fn lanes_staying<const N: usize>(rows: i8) -> u8
    requires lanes { IsTrue (is_lane_count N) }
    requires few { rows ≤ℤ pos 6 }
    ensures { result ≡ N - not_below_zero rows }
{
    if rows <= 0 {
        return N as u8;
    }
    N as u8 - rows as u8
}

/// The earliest rotation in which the piece can have the cells of this one.
#[inline(always)]
pub(crate) fn canonical_of(piece: Piece, rotation: Rotation) -> Rotation
    ensures { result ≡ canonical_rotation piece rotation }
{
    canonical_change(piece, rotation).0
}
