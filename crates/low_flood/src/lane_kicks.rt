// How far the tests of a turn move a lane state, under the Super Rotation System.
ghost use Rattle.std.specs.Prelude.{◌≡◌, ◌≤◌, ◌≤ℤ◌, pos};
ghost use Rattle.srs.specs.Canonical.{canonical_move};
ghost use Rattle.srs.specs.Cells.{minus, shape};
ghost use Rattle.srs.specs.Kick.{srs_table, kick_in, offset_in};
ghost use Rattle.moves.specs.Lanes.{lowest};
ghost use Rattle.low_flood.specs.LaneTurns.{lane_move};

use srs::{Piece, Rotation, canonical_change};

/// How far test 1 to 5 of a turn moves a lane state: by columns of its canonical pivot, and by lanes.
#[inline(always)]
pub(crate) fn lane_kick(piece: Piece, from: Rotation, to: Rotation, test: u8) -> (i8, i8)
    requires first { 1 ≤ test }
    requires last { test ≤ 5 }
    ensures change { result ≡ lane_move piece from to (kick_in srs_table piece from to test) }
    ensures left { minus 5 ≤ℤ result.0 }
    ensures right { result.0 ≤ℤ pos 5 }
    ensures down { minus 6 ≤ℤ result.1 }
    ensures up { result.1 ≤ℤ pos 6 }
{
    let (left_x, left_y) = srs_offset(piece, from, test);
    let (reached_x, reached_y) = srs_offset(piece, to, test);
    let dx = canonical_columns(piece, to) - canonical_columns(piece, from);
    let dy = lowest_row(piece, to) - lowest_row(piece, from);
    (left_x - reached_x + dx, left_y - reached_y + dy)
}

/// The offset of the Super Rotation System for test 1 to 5 of a turn.
#[inline(always)]
pub fn srs_offset(piece: Piece, rotation: Rotation, test: u8) -> (i8, i8)
    requires first { 1 ≤ test }
    requires last { test ≤ 5 }
    ensures offset { result ≡ offset_in srs_table piece rotation test }
    ensures left { minus 2 ≤ℤ result.0 }
    ensures right { result.0 ≤ℤ pos 2 }
    ensures down { minus 2 ≤ℤ result.1 }
    ensures up { result.1 ≤ℤ pos 2 }
{
    match (piece, rotation) {
        (Piece::I, Rotation::Spawn) => [(0, 0), (-1, 0), (2, 0), (-1, 0), (2, 0)][test as usize
            - 1],
        (Piece::I, Rotation::Right) => [(-1, 0), (0, 0), (0, 0), (0, 1), (0, -2)][test as usize
            - 1],
        (Piece::I, Rotation::Reverse) => [(-1, 1), (1, 1), (-2, 1), (1, 0), (-2, 0)][test as usize
            - 1],
        (Piece::I, Rotation::Left) => [(0, 1), (0, 1), (0, 1), (0, -1), (0, 2)][test as usize - 1],
        (Piece::O, Rotation::Spawn) => (0, 0),
        (Piece::O, Rotation::Right) => (0, -1),
        (Piece::O, Rotation::Reverse) => (-1, -1),
        (Piece::O, Rotation::Left) => (-1, 0),
        (_, Rotation::Right) => [(0, 0), (1, 0), (1, -1), (0, 2), (1, 2)][test as usize - 1],
        (_, Rotation::Left) => [(0, 0), (-1, 0), (-1, -1), (0, 2), (-1, 2)][test as usize - 1],
        _ => (0, 0),
    }
}

/// How many columns the canonical pivot lies to the right of the pivot.
#[inline(always)]
fn canonical_columns(piece: Piece, rotation: Rotation) -> i8
    ensures columns { result ≡ (canonical_move piece rotation).0 }
    ensures low { minus 1 ≤ℤ result }
    ensures high { result ≤ℤ pos 0 }
{
    canonical_change(piece, rotation).1.0
}

/// How many rows the lowest cell lies above the pivot.
#[inline(always)]
pub(crate) fn lowest_row(piece: Piece, rotation: Rotation) -> i8
    ensures rows { result ≡ lowest (shape piece rotation) }
    ensures low { minus 2 ≤ℤ result }
    ensures high { result ≤ℤ pos 0 }
{
    match (piece, rotation) {
        (_, Rotation::Spawn) => 0,
        (Piece::I, Rotation::Right) => -2,
        (Piece::I, Rotation::Reverse) => 0,
        (Piece::O, Rotation::Left) => 0,
        _ => -1,
    }
}
