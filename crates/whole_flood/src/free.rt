// The free states of a piece in a field.
ghost use Rattle.std.specs.Prelude.{◌≡◌, IsTrue};
ghost use Rattle.lane_board.specs.Board.{field_of};
ghost use Rattle.srs.specs.Cells.{shape, is_near};
ghost use Rattle.place_sets.specs.States.{states_of};
ghost use Rattle.whole_flood.specs.FreePivots.{IsFreeMap};
ghost use Rattle.whole_flood.specs.Opened.{opened, opened_at, AreFreePivots};

use lane_board::LaneBoard;
use place_sets::Pivots;
use srs::{Piece, Rotation, shape};

/// The states of a piece whose cells all lie in the well and are not filled. The columns and rows of the boards are
/// those of the pivots.
#[tactic(auto, using(crate::proofs::OpenedLemmas::free_map), unfolding(place_sets::specs::States::states_of))]
pub fn free_states(filled: &LaneBoard<24>, piece: Piece) -> Pivots<24>
    ensures { IsFreeMap (field_of filled.now) piece (states_of result) }
{
    Pivots {
        spawn: free_pivots(filled, piece, Rotation::Spawn),
        right: free_pivots(filled, piece, Rotation::Right),
        reverse: free_pivots(filled, piece, Rotation::Reverse),
        left: free_pivots(filled, piece, Rotation::Left),
    }
}

/// The pivots at which a piece in a rotation is free: its cells all lie in the well and are not filled.
fn free_pivots(filled: &LaneBoard<24>, piece: Piece, rotation: Rotation) -> LaneBoard<24>
    ensures { AreFreePivots (field_of filled.now) piece rotation (field_of result) }
{
    let blank = LaneBoard::rows_below(23).minus(filled);
    blank_pivots(&blank, piece, rotation)
}

#[tactic(auto, unfolding(crate::specs::Opened::opened_at))]
/// The pivots at which all cells of the piece are blank.
fn blank_pivots(blank: &LaneBoard<24>, piece: Piece, rotation: Rotation) -> LaneBoard<24>
    ensures { field_of result ≡ opened_at (field_of blank.now) 24 (shape piece rotation) (field_of blank.now) }
{
    let [a, b, c, d] = shape(piece, rotation);
    let first = opened(blank, a, blank);
    let second = opened(blank, b, &first);
    let third = opened(blank, c, &second);
    opened(blank, d, &third)
}

/// The pivots among these with a blank cell at the offset.
#[tactic(auto, unfolding(crate::specs::Opened::opened))]
#[inline(always)]
fn opened(blank: &LaneBoard<24>, offset: (i8, i8), pivots: &LaneBoard<24>) -> LaneBoard<24>
    requires { IsTrue (is_near offset) }
    ensures { field_of result ≡ opened (field_of blank.now) 24 offset (field_of pivots.now) }
{
    pivots.and(&blank.moved(0 - offset.0, 0 - offset.1))
}
