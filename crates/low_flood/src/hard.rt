// The places of a hard drop: the resting states under an open sky. They need no flood. `KIND` numbers the compiled
// copies, as in `soft`.
ghost use Rattle.std.specs.Prelude.{◌≡◌, ◌≤◌, ◌≤ℤ◌, pos, neg_ℤ, IsTrue};
ghost use Rattle.lane_board.specs.Board.{field_of};
ghost use Rattle.lane_board.specs.Field.{intersection, rows_below};
ghost use Rattle.lane_board.specs.Lanes.{is_lane_count};
ghost use Rattle.srs.specs.Cells.{shape};
ghost use Rattle.moves.specs.Lanes.{lowest};
ghost use Rattle.place_sets.specs.States.{states_of};
ghost use Rattle.low_flood.specs.LanePlaces.{IsCut, lane_pivots, has_own_cells, hard_board};

use crate::lane_kicks::lowest_row;
use crate::lane_map::{free_lanes, resting_lanes, sky_board};
use crate::lane_turn::canonical_of;
use lane_board::LaneBoard;
use place_sets::Pivots;
use srs::{Piece, Rotation};

/// The canonical placements that have the cells of resting states under an open sky, with the pivot below row `M`.
#[tactic(auto, using(crate::proofs::LanePlaceLemmas::each_cut), unfolding(place_sets::specs::States::states_of))]
pub(crate) fn hard_places<const KIND: u8, const N: usize, const M: usize>(
    filled: &LaneBoard<N>,
    piece: Piece,
) -> Pivots<M>
    requires lane_count { IsTrue (is_lane_count M) }
    requires within { M ≤ 24 }
    ensures { IsCut M (hard_board piece N (field_of filled.now)) (states_of result) }
{
    Pivots {
        spawn: hard_board(filled, piece, Rotation::Spawn),
        right: hard_board(filled, piece, Rotation::Right),
        reverse: hard_board(filled, piece, Rotation::Reverse),
        left: hard_board(filled, piece, Rotation::Left),
    }
}

/// Those in one rotation.
#[tactic(auto, unfolding(crate::specs::LanePlaces::hard_board), using(crate::proofs::LanePlaceLemmas::cut_of_none))]
#[inline(always)]
fn hard_board<const N: usize, const M: usize>(
    filled: &LaneBoard<N>,
    piece: Piece,
    rotation: Rotation,
) -> LaneBoard<M>
    requires lane_count { IsTrue (is_lane_count M) }
    requires within { M ≤ 24 }
    ensures { field_of result ≡ intersection (hard_board piece N (field_of filled.now) rotation) (rows_below M) }
{
    if !has_own_cells(piece, rotation) {
        return LaneBoard::empty();
    }
    let free = free_lanes(filled, piece, rotation);
    let sky = sky_board(piece, rotation, &free);
    lane_pivots(piece, rotation, &resting_lanes(&free, &sky))
}

/// Whether the placements of a rotation are canonical.
#[tactic(auto, using(crate::proofs::LanePlaceLemmas::own_is))]
#[inline(always)]
pub(crate) fn has_own_cells(piece: Piece, rotation: Rotation) -> bool
    ensures { result ≡ has_own_cells piece rotation }
{
    canonical_of(piece, rotation).index() == rotation.index()
}

/// The pivots of lane states, below row `M`.
#[tactic(auto, using(crate::proofs::LanePlaceLemmas::cut_before))]
#[inline(always)]
pub(crate) fn lane_pivots<const N: usize, const M: usize>(
    piece: Piece,
    rotation: Rotation,
    states: &LaneBoard<N>,
) -> LaneBoard<M>
    requires lane_count { IsTrue (is_lane_count M) }
    requires within { M ≤ 24 }
    ensures { field_of result ≡ intersection (lane_pivots piece rotation (field_of states.now)) (rows_below M) }
{
    let rows = rows_over_lane(piece, rotation);
    states.resized::<M>().moved(0, rows)
}

/// How many rows the pivot lies above the lowest cell.
#[inline(always)]
fn rows_over_lane(piece: Piece, rotation: Rotation) -> i8
    ensures rows { result ≡ neg_ℤ (lowest (shape piece rotation)) }
    ensures low { pos 0 ≤ℤ result }
    ensures high { result ≤ℤ pos 2 }
{
    0 - lowest_row(piece, rotation)
}
