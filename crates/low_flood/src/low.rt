// Places in low fields under the Super Rotation System: a board of eight or sixteen lanes is enough.
ghost use Rattle.std.specs.Prelude.{◌-◌, ◌≤◌, ◌↔◌, IsTrue};
ghost use Rattle.lane_board.specs.Board.{field_of};
ghost use Rattle.lane_board.specs.Lanes.{is_lane_count};
ghost use Rattle.srs.specs.Kick.{srs_table};
ghost use Rattle.well.specs.LockLaws.{LiesBelow};
ghost use Rattle.moves.specs.declared.key.DropMode.{DropMode};
ghost use Rattle.moves.specs.Place.{IsPlace};
ghost use Rattle.place_sets.specs.States.{HasExactly, IsUnder, states_of};
ghost use Rattle.low_flood.specs.LanePlaces.{IsCut, hard_board};

use crate::hard::hard_places;
use crate::soft::soft_places;
use lane_board::LaneBoard;
use moves::DropMode;
use place_sets::Pivots;
use srs::Piece;

/// The places of a piece by the Super Rotation System, with the pivot below row `M`, which is 8, 16 or 24, if all
/// cells lie below row 8.
pub fn low_places<const M: usize>(
    filled: &LaneBoard<24>,
    piece: Piece,
    drop_mode: DropMode,
) -> Pivots<M>
    requires clear { LiesBelow (field_of filled.now) 8 }
    requires lane_count { IsTrue (is_lane_count M) }
    requires within { M ≤ 24 }
    ensures { HasExactly (IsUnder M (IsPlace srs_table (field_of filled.now) drop_mode)) piece (states_of result) }
{
    match drop_mode {
        DropMode::Soft => low_soft_places(filled, piece),
        DropMode::Hard => low_hard_places(filled, piece),
    }
}

/// The places of a soft drop.
fn low_soft_places<const M: usize>(filled: &LaneBoard<24>, piece: Piece) -> Pivots<M>
    requires clear { LiesBelow (field_of filled.now) 8 }
    requires lane_count { IsTrue (is_lane_count M) }
    requires within { M ≤ 24 }
    ensures { HasExactly (IsUnder M (IsPlace srs_table (field_of filled.now) DropMode.Soft)) piece (states_of result) }
{
    if is_clear_from(filled, 6) {
        return soft_copies(&filled.resized::<8>(), piece);
    }
    soft_copies(&filled.resized::<16>(), piece)
}

/// The places of a soft drop on lanes, by the copy of the flood that is compiled for the piece.
fn soft_copies<const N: usize, const M: usize>(filled: &LaneBoard<N>, piece: Piece) -> Pivots<M>
    requires clear { LiesBelow (field_of filled.now) (N - 2) }
    requires few { N ≤ 16 }
    requires lane_count { IsTrue (is_lane_count M) }
    requires within { M ≤ 24 }
    ensures { HasExactly (IsUnder M (IsPlace srs_table (field_of filled.now) DropMode.Soft)) piece (states_of result) }
{
    match piece {
        Piece::I => soft_places::<0, N, M>(filled, Piece::I),
        Piece::L => soft_places::<1, N, M>(filled, Piece::L),
        Piece::O => soft_places::<2, N, M>(filled, Piece::O),
        Piece::Z => soft_places::<3, N, M>(filled, Piece::Z),
        Piece::T => soft_places::<4, N, M>(filled, Piece::T),
        Piece::J => soft_places::<5, N, M>(filled, Piece::J),
        Piece::S => soft_places::<6, N, M>(filled, Piece::S),
    }
}

/// The places of a hard drop.
fn low_hard_places<const M: usize>(filled: &LaneBoard<24>, piece: Piece) -> Pivots<M>
    requires clear { LiesBelow (field_of filled.now) 8 }
    requires lane_count { IsTrue (is_lane_count M) }
    requires within { M ≤ 24 }
    ensures { HasExactly (IsUnder M (IsPlace srs_table (field_of filled.now) DropMode.Hard)) piece (states_of result) }
{
    if is_clear_from(filled, 6) {
        return hard_copies(&filled.resized::<8>(), piece);
    }
    hard_copies(&filled.resized::<16>(), piece)
}

/// The places of a hard drop on lanes, by the copy that is compiled for the piece: the canonical placements that have
/// the cells of resting states under an open sky.
fn hard_copies<const N: usize, const M: usize>(filled: &LaneBoard<N>, piece: Piece) -> Pivots<M>
    requires lane_count { IsTrue (is_lane_count M) }
    requires within { M ≤ 24 }
    ensures { IsCut M (hard_board piece N (field_of filled.now)) (states_of result) }
{
    match piece {
        Piece::I => hard_places::<0, N, M>(filled, Piece::I),
        Piece::L => hard_places::<1, N, M>(filled, Piece::L),
        Piece::O => hard_places::<2, N, M>(filled, Piece::O),
        Piece::Z => hard_places::<3, N, M>(filled, Piece::Z),
        Piece::T => hard_places::<4, N, M>(filled, Piece::T),
        Piece::J => hard_places::<5, N, M>(filled, Piece::J),
        Piece::S => hard_places::<6, N, M>(filled, Piece::S),
    }
}

/// Whether no cell lies at or above a row.
#[inline(always)]
pub fn is_clear_from(filled: &LaneBoard<24>, row: u8) -> bool
    requires { row ≤ 24 }
    ensures { IsTrue result ↔ LiesBelow (field_of filled.now) row }
{
    filled.is_clear_from(row)
}
