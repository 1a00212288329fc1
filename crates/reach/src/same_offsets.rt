// Whether a table has the offsets of the Super Rotation System for one piece. No other offset matters to its places.
// `KIND` numbers the compiled copies, as in `soft` of `low_flood`.
ghost use Rattle.std.specs.Prelude.{◌≡◌, ◌≤◌, ◌↔◌, IsTrue};
ghost use Rattle.srs.specs.Kick.{srs_table, offset_in};
ghost use Rattle.srs.specs.Rules.{table_of};
ghost use Rattle.reach.specs.SameOffsets.{AgreeIn, HaveSameOffsets};

use low_flood::srs_offset;
use srs::{Piece, Rotation, Rules};

/// Whether all offsets of the piece are those of the Super Rotation System.
pub(crate) fn has_srs_offsets(rules: &Rules, piece: Piece) -> bool
    ensures { IsTrue result ↔ HaveSameOffsets (table_of rules.now) srs_table piece }
{
    match piece {
        Piece::I => agrees::<0>(rules, Piece::I),
        Piece::L => agrees::<1>(rules, Piece::L),
        Piece::O => agrees::<2>(rules, Piece::O),
        Piece::Z => agrees::<3>(rules, Piece::Z),
        Piece::T => agrees::<4>(rules, Piece::T),
        Piece::J => agrees::<5>(rules, Piece::J),
        Piece::S => agrees::<6>(rules, Piece::S),
    }
}

/// The same for its offsets in each rotation.
fn agrees<const KIND: u8>(rules: &Rules, piece: Piece) -> bool
    ensures { IsTrue result ↔ HaveSameOffsets (table_of rules.now) srs_table piece }
{
    if !agrees_in(rules, piece, Rotation::Right) {
        return false;
    }
    if !agrees_in(rules, piece, Rotation::Left) {
        return false;
    }
    if !agrees_in(rules, piece, Rotation::Spawn) {
        return false;
    }
    agrees_in(rules, piece, Rotation::Reverse)
}

/// The same for its offsets in one rotation.
#[inline(always)]
fn agrees_in(rules: &Rules, piece: Piece, rotation: Rotation) -> bool
    ensures { IsTrue result ↔ AgreeIn (table_of rules.now) srs_table piece rotation }
{
    if !agrees_at(rules, piece, rotation, 1) {
        return false;
    }
    if !agrees_at(rules, piece, rotation, 2) {
        return false;
    }
    if !agrees_at(rules, piece, rotation, 3) {
        return false;
    }
    if !agrees_at(rules, piece, rotation, 4) {
        return false;
    }
    agrees_at(rules, piece, rotation, 5)
}

/// The same for its offset in one test.
#[inline(always)]
fn agrees_at(rules: &Rules, piece: Piece, rotation: Rotation, test: u8) -> bool
    requires first { 1 ≤ test }
    requires last { test ≤ 5 }
    ensures { IsTrue result ↔ (offset_in (table_of rules.now) piece rotation test
        ≡ offset_in srs_table piece rotation test) }
{
    let offset = rules.offset(piece, rotation, test);
    let (dx, dy) = srs_offset(piece, rotation, test);
    offset.dx == dx && offset.dy == dy
}
