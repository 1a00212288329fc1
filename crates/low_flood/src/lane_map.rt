// The lane states of a rotation: free ones, ones under an open sky, and ones at rest.
ghost use Rattle.std.specs.Prelude.{◌≡◌, ◌≤◌, IsTrue};
ghost use Rattle.lane_board.specs.Board.{field_of};
ghost use Rattle.lane_board.specs.Field.{rows_below, empty_field};
ghost use Rattle.lane_board.specs.Lanes.{is_lane_count};
ghost use Rattle.low_flood.specs.LaneMap.{fitting, fitting_all, hit, hit_all, free_lanes, resting_lanes};
ghost use Rattle.low_flood.specs.LaneShapes.{is_near_lane, lane_cells};
ghost use Rattle.low_flood.specs.SkyBoard.{inside_lanes, with_lower, sky_board};

use crate::lane_shapes::lane_cells;
use lane_board::LaneBoard;
use srs::{Piece, Rotation};

/// The lane states in columns in which the piece fits.
#[tactic(auto, using(crate::proofs::LaneMaps::fitting_inside))]
#[inline(always)]
pub(crate) fn inside_lanes<const N: usize>(piece: Piece, rotation: Rotation) -> LaneBoard<N>
    requires { IsTrue (is_lane_count N) }
    ensures { field_of result ≡ inside_lanes piece rotation N }
{
    fitting_all(piece, rotation)
}

/// The lane states in columns from which each offset of the piece leads to a column of the well.
#[tactic(auto, unfolding(crate::specs::LaneMap::fitting_all))]
#[inline(always)]
fn fitting_all<const N: usize>(piece: Piece, rotation: Rotation) -> LaneBoard<N>
    requires { IsTrue (is_lane_count N) }
    ensures { field_of result ≡ fitting_all N (lane_cells piece rotation) (rows_below N) }
{
    let all = LaneBoard::rows_below(N as u8);
    let [a, b, c, d] = lane_cells(piece, rotation);
    let first = fitting(&all, a, &all);
    let second = fitting(&all, b, &first);
    let third = fitting(&all, c, &second);
    fitting(&all, d, &third)
}

/// The lane states among these in columns from which the offset leads to a column of the well. `all` is the board of
/// all cells.
#[tactic(auto, unfolding(crate::specs::LaneMap::fitting))]
#[inline(always)]
fn fitting<const N: usize>(
    all: &LaneBoard<N>,
    offset: (i8, i8),
    states: &LaneBoard<N>,
) -> LaneBoard<N>
    requires all { field_of all.now ≡ rows_below N }
    requires near { IsTrue (is_near_lane offset) }
    ensures { field_of result ≡ fitting N offset (field_of states.now) }
{
    states.and(&all.moved(0 - offset.0, 0))
}

/// The lane states in which all cells of the piece are inside the columns and none is filled.
#[tactic(auto, unfolding(crate::specs::LaneMap::free_lanes))]
#[inline(always)]
pub(crate) fn free_lanes<const N: usize>(
    filled: &LaneBoard<N>,
    piece: Piece,
    rotation: Rotation,
) -> LaneBoard<N>
    ensures { field_of result ≡ free_lanes piece rotation N (field_of filled.now) }
{
    inside_lanes(piece, rotation).minus(&hit_all(filled, piece, rotation))
}

/// The lane states from which some offset of the piece leads to a filled cell.
#[tactic(auto, unfolding(crate::specs::LaneMap::hit_all))]
#[inline(always)]
fn hit_all<const N: usize>(filled: &LaneBoard<N>, piece: Piece, rotation: Rotation) -> LaneBoard<N>
    ensures { field_of result ≡ hit_all (field_of filled.now) N (lane_cells piece rotation) empty_field }
{
    let [a, b, c, d] = lane_cells(piece, rotation);
    let first = hit(filled, a, &LaneBoard::empty());
    let second = hit(filled, b, &first);
    let third = hit(filled, c, &second);
    hit(filled, d, &third)
}

/// The lane states, plus those from which the offset leads to a filled cell.
#[tactic(auto, unfolding(crate::specs::LaneMap::hit))]
#[inline(always)]
fn hit<const N: usize>(
    filled: &LaneBoard<N>,
    offset: (i8, i8),
    states: &LaneBoard<N>,
) -> LaneBoard<N>
    requires { IsTrue (is_near_lane offset) }
    ensures { field_of result ≡ hit (field_of filled.now) N offset (field_of states.now) }
{
    states.or(&filled.moved(0 - offset.0, 0 - offset.1))
}

/// Given the free lane states: those in columns that fit with no blocked one at or above them.
#[tactic(auto, unfolding(crate::specs::SkyBoard::sky_board))]
#[inline(always)]
pub(crate) fn sky_board<const N: usize>(
    piece: Piece,
    rotation: Rotation,
    free: &LaneBoard<N>,
) -> LaneBoard<N>
    ensures { field_of result ≡ sky_board piece rotation N (field_of free.now) }
{
    let inside = inside_lanes(piece, rotation);
    let one = with_lower(&inside.minus(free), 1);
    let two = with_lower(&one, 2);
    let four = with_lower(&two, 4);
    let eight = with_lower(&four, 8);
    inside.minus(&eight)
}

/// The lane states, plus the same ones `rows` rows lower.
#[tactic(auto, unfolding(crate::specs::SkyBoard::with_lower))]
#[inline(always)]
fn with_lower<const N: usize>(states: &LaneBoard<N>, rows: u8) -> LaneBoard<N>
    requires { rows ≤ 8 }
    ensures { field_of result ≡ with_lower N rows (field_of states.now) }
{
    states.or(&states.moved(0, 0 - rows as i8))
}

/// The lane states among these with no free one just below.
#[tactic(auto, unfolding(crate::specs::LaneMap::resting_lanes))]
#[inline(always)]
pub(crate) fn resting_lanes<const N: usize>(
    free: &LaneBoard<N>,
    states: &LaneBoard<N>,
) -> LaneBoard<N>
    ensures { field_of result ≡ resting_lanes N (field_of free.now) (field_of states.now) }
{
    states.minus(&free.moved(0, 1))
}
