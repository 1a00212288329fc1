// The places of a soft drop in a low field. `KIND` and `TO` are in no contract. They number the compiled copies, one
// for each piece and rotation, in which shapes and kicks are constants.
ghost use Rattle.std.specs.Prelude.{◌≡◌, ◌-◌, ◌≤◌, IsTrue};
ghost use Rattle.lane_board.specs.Board.{field_of};
ghost use Rattle.lane_board.specs.Field.{intersection, rows_below};
ghost use Rattle.lane_board.specs.Lanes.{is_lane_count};
ghost use Rattle.srs.specs.Kick.{srs_table};
ghost use Rattle.well.specs.LockLaws.{LiesBelow};
ghost use Rattle.moves.specs.declared.key.DropMode.{DropMode};
ghost use Rattle.moves.specs.Place.{IsPlace};
ghost use Rattle.place_sets.specs.States.{HasExactly, IsUnder, states_of};
ghost use Rattle.low_flood.specs.SoftLanes.{free_boards, skies, with_rotation, states_of_canonical, rests_in, lacking};
ghost use Rattle.low_flood.specs.SoftLanes.{soft_board, HaveAllRests, AreSpread, IsTurnedInto, IsRound, IsSoftFlood};

use crate::hard::{has_own_cells, lane_pivots};
use crate::lane_map::{free_lanes, resting_lanes, sky_board};
use crate::lane_turn::{arrivals, canonical_of};
use lane_board::LaneBoard;
use moves::DropMode;
use place_sets::{Pivots, Shifts, spread};
use srs::{Piece, Rotation};

/// The canonical placements that have the cells of resting states that keys lead to, with the pivot below row `M`, if
/// two lanes lie above all cells.
pub(crate) fn soft_places<const KIND: u8, const N: usize, const M: usize>(
    filled: &LaneBoard<N>,
    piece: Piece,
) -> Pivots<M>
    requires clear { LiesBelow (field_of filled.now) (N - 2) }
    requires few { N ≤ 16 }
    requires lane_count { IsTrue (is_lane_count M) }
    requires within { M ≤ 24 }
    ensures { HasExactly (IsUnder M (IsPlace srs_table (field_of filled.now) DropMode.Soft)) piece (states_of result) }
{
    let free = free_boards::<KIND, N>(filled, piece);
    let reached = flood::<KIND, N>(piece, &free);
    Pivots {
        spawn: soft_board(piece, Rotation::Spawn, &free, &reached),
        right: soft_board(piece, Rotation::Right, &free, &reached),
        reverse: soft_board(piece, Rotation::Reverse, &free, &reached),
        left: soft_board(piece, Rotation::Left, &free, &reached),
    }
}

/// The free lane states of each rotation, on the board of its canonical rotation.
fn free_boards<const KIND: u8, const N: usize>(filled: &LaneBoard<N>, piece: Piece) -> Pivots<N>
    ensures { states_of result ≡ free_boards piece N (field_of filled.now) }
{
    Pivots {
        spawn: free_lanes(filled, piece, canonical_of(piece, Rotation::Spawn)),
        right: free_lanes(filled, piece, canonical_of(piece, Rotation::Right)),
        reverse: free_lanes(filled, piece, canonical_of(piece, Rotation::Reverse)),
        left: free_lanes(filled, piece, canonical_of(piece, Rotation::Left)),
    }
}

/// The lane states that single moves and turns lead to from the sky, or enough of them to have every rest. It is
/// inlined, so that its boards need no memory between it and what it is made for.
#[inline(always)]
fn flood<const KIND: u8, const N: usize>(piece: Piece, free: &Pivots<N>) -> Pivots<N>
    ensures { IsSoftFlood piece N (states_of free.now) (states_of result) }
{
    let sky = skies::<KIND, N>(piece, free);
    if has_all_rests::<KIND, N>(piece, free, &sky) {
        return sky;
    }
    let mut reached = spread_all::<KIND, N>(free, &sky);
    'rounds: loop {
        if has_all_rests::<KIND, N>(piece, free, &reached) {
            return reached;
        }
        let next = round::<KIND, N>(piece, free, &reached);
        match next.difference(&reached) {
            None => return reached,
            Some(_) => reached = next,
        }
    }
}

/// The lane states under the open sky, for each rotation.
fn skies<const KIND: u8, const N: usize>(piece: Piece, free: &Pivots<N>) -> Pivots<N>
    ensures { states_of result ≡ skies piece N (states_of free.now) }
{
    Pivots {
        spawn: sky_board(piece, canonical_of(piece, Rotation::Spawn), &free.spawn),
        right: sky_board(piece, canonical_of(piece, Rotation::Right), &free.right),
        reverse: sky_board(piece, canonical_of(piece, Rotation::Reverse), &free.reverse),
        left: sky_board(piece, canonical_of(piece, Rotation::Left), &free.left),
    }
}

/// The lane states of each rotation, plus all that single moves lead to from them.
#[tactic(auto, using(crate::proofs::SoftLemmas::spread_each), unfolding(place_sets::specs::States::states_of))]
fn spread_all<const KIND: u8, const N: usize>(free: &Pivots<N>, states: &Pivots<N>) -> Pivots<N>
    ensures { AreSpread N (states_of free.now) (states_of states.now) (states_of result) }
{
    Pivots {
        spawn: spread(&free.spawn, Shifts::All, &states.spawn),
        right: spread(&free.right, Shifts::All, &states.right),
        reverse: spread(&free.reverse, Shifts::All, &states.reverse),
        left: spread(&free.left, Shifts::All, &states.left),
    }
}

/// Turns into each rotation, one after the other.
fn round<const KIND: u8, const N: usize>(
    piece: Piece,
    free: &Pivots<N>,
    states: &Pivots<N>,
) -> Pivots<N>
    ensures { IsRound piece N (states_of free.now) (states_of states.now) (states_of result) }
{
    let one = turned_into::<KIND, 0, N>(piece, Rotation::Spawn, free, states);
    let two = turned_into::<KIND, 1, N>(piece, Rotation::Right, free, &one);
    let three = turned_into::<KIND, 2, N>(piece, Rotation::Reverse, free, &two);
    turned_into::<KIND, 3, N>(piece, Rotation::Left, free, &three)
}

/// The lane states, plus those that both turns into a rotation lead to, plus all that single moves lead to from there.
#[inline(always)]
fn turned_into<const KIND: u8, const TO: u8, const N: usize>(
    piece: Piece,
    to: Rotation,
    free: &Pivots<N>,
    states: &Pivots<N>,
) -> Pivots<N>
    ensures { IsTurnedInto piece N (states_of free.now) to (states_of states.now) (states_of result) }
{
    let there = free.board(to);
    let before = to.anticlockwise();
    let after = to.clockwise();
    let clockwise = arrivals::<KIND, TO, true, N>(piece, before, to, there, states.board(before));
    let anticlockwise = arrivals::<KIND, TO, false, N>(
        piece,
        after,
        to,
        there,
        states.board(after),
    );
    let wide = states.board(to).or(&clockwise.or(&anticlockwise));
    states.with(to, &spread(there, Shifts::All, &wide))
}

/// Whether the lane states include every resting one.
#[tactic(auto, using(crate::proofs::SoftLemmas::all_rests_by))]
fn has_all_rests<const KIND: u8, const N: usize>(
    piece: Piece,
    free: &Pivots<N>,
    states: &Pivots<N>,
) -> bool
    ensures { IsTrue result → HaveAllRests piece N (states_of free.now) (states_of states.now) }
{
    lacks(piece, Rotation::Spawn, free, states)
        .or(&lacks(piece, Rotation::Right, free, states))
        .or(&lacks(piece, Rotation::Reverse, free, states))
        .or(&lacks(piece, Rotation::Left, free, states))
        .is_empty()
}

/// The rests of a canonical rotation that are not among the lane states.
#[tactic(auto, unfolding(crate::specs::SoftLanes::lacking))]
#[inline(always)]
fn lacks<const N: usize>(
    piece: Piece,
    rotation: Rotation,
    free: &Pivots<N>,
    states: &Pivots<N>,
) -> LaneBoard<N>
    ensures { field_of result ≡ lacking piece N (states_of free.now) (states_of states.now) rotation }
{
    if !has_own_cells(piece, rotation) {
        return LaneBoard::empty();
    }
    rests_in(free, rotation).minus(&states_of_canonical(piece, states, rotation))
}

/// All free lane states of a rotation that rest.
#[tactic(auto, unfolding(crate::specs::SoftLanes::rests_in))]
#[inline(always)]
fn rests_in<const N: usize>(free: &Pivots<N>, rotation: Rotation) -> LaneBoard<N>
    ensures { field_of result ≡ rests_in N (states_of free.now) rotation }
{
    let board = free.board(rotation);
    resting_lanes(board, board)
}

/// The lane states of all rotations that have the given canonical rotation.
#[tactic(auto, unfolding(crate::specs::SoftLanes::states_of_canonical))]
#[inline(always)]
fn states_of_canonical<const N: usize>(
    piece: Piece,
    states: &Pivots<N>,
    canonical: Rotation,
) -> LaneBoard<N>
    ensures { field_of result ≡ states_of_canonical piece (states_of states.now) canonical }
{
    let none = LaneBoard::empty();
    let one = with_rotation(piece, states, canonical, Rotation::Spawn, &none);
    let two = with_rotation(piece, states, canonical, Rotation::Right, &one);
    let three = with_rotation(piece, states, canonical, Rotation::Reverse, &two);
    with_rotation(piece, states, canonical, Rotation::Left, &three)
}

/// The board, plus the lane states of a rotation if its canonical rotation is the given one.
#[tactic(auto, unfolding(crate::specs::SoftLanes::with_rotation))]
#[inline(always)]
fn with_rotation<const N: usize>(
    piece: Piece,
    states: &Pivots<N>,
    canonical: Rotation,
    rotation: Rotation,
    board: &LaneBoard<N>,
) -> LaneBoard<N>
    ensures { field_of result ≡ with_rotation piece (states_of states.now) canonical rotation (field_of board.now) }
{
    if canonical_of(piece, rotation).index() != canonical.index() {
        return *board;
    }
    board.or(states.board(rotation))
}

/// The canonical placements in a rotation that rest and have one of the lane states, with the pivot below row `M`.
#[tactic(auto, unfolding(crate::specs::SoftLanes::soft_board), using(crate::proofs::LanePlaceLemmas::cut_of_none))]
#[inline(always)]
fn soft_board<const N: usize, const M: usize>(
    piece: Piece,
    rotation: Rotation,
    free: &Pivots<N>,
    states: &Pivots<N>,
) -> LaneBoard<M>
    requires lane_count { IsTrue (is_lane_count M) }
    requires within { M ≤ 24 }
    ensures { field_of result ≡ intersection
        (soft_board piece N (states_of free.now) (states_of states.now) rotation) (rows_below M) }
{
    if !has_own_cells(piece, rotation) {
        return LaneBoard::empty();
    }
    let rests = rests_in(free, rotation).and(&states_of_canonical(piece, states, rotation));
    lane_pivots(piece, rotation, &rests)
}
