// A board moved by columns and rows.
ghost use Rattle.std.specs.Prelude.{◌≡◌, ℕ, ◌+◌, ◌%◌, ◌<◌, ◌≤◌, pos, negsuc, ◌-ℤ◌, ◌≤ℤ◌, slice_index, length};
ghost use Rattle.lane_board.specs.Board.{field_of};
ghost use Rattle.lane_board.specs.Field.{moved_within};
ghost use Rattle.lane_board.specs.Lanes.{moved_row, row_at};

use super::LaneBoard;
use crate::eights::{eight_from, load, load_or_none, moved_columns, store};
use std::simd::prelude::*;

impl<const N: usize> LaneBoard<N> {
    /// Every cell moved `dx` columns to the right and `dy` rows up, each from -9 to 9. Cells that leave the board are
    /// dropped.
    #[inline(always)]
    pub fn moved(&self, dx: i8, dy: i8) -> LaneBoard<N>
        requires left { negsuc 8 ≤ℤ dx }
        requires right { dx ≤ℤ pos 9 }
        requires down { negsuc 8 ≤ℤ dy }
        requires up { dy ≤ℤ pos 9 }
        ensures { field_of result ≡ moved_within (field_of self.now) N dx dy }
    {
        let rows = moved_rows(&self.rows, dx, dy);
        LaneBoard { rows }
    }
}

/// The furthest that a board is moved, in columns or in rows.
const FURTHEST: usize = 9;

/// The most rows that a board has, and nine more below and above them.
const FRAME: usize = 50;

/// The rows moved `dx` columns to the right and `dy` rows up.
#[inline(always)]
fn moved_rows<const N: usize>(rows: &[u16; N], dx: i8, dy: i8) -> [u16; N]
    requires eights { N % 8 ≡ 0 }
    requires few { N ≤ 32 }
    requires left { negsuc 8 ≤ℤ dx }
    requires right { dx ≤ℤ pos 9 }
    requires down { negsuc 8 ≤ℤ dy }
    requires up { dy ≤ℤ pos 9 }
    ensures { (y : ℕ) → y < N → slice_index result y ≡ moved_row dx (row_at rows.now (pos y -ℤ dy)) }
{
    if dy == -9 || dy == 9 {
        let framed = framed(rows, dx);
        let from = FURTHEST as i8 - dy;
        return window(&framed, from as usize);
    }
    near_rows(rows, dx, dy)
}

/// The same, for moves of at most eight rows.
#[inline(always)]
fn near_rows<const N: usize>(rows: &[u16; N], dx: i8, dy: i8) -> [u16; N]
    requires eights { N % 8 ≡ 0 }
    requires few { N ≤ 32 }
    requires left { negsuc 8 ≤ℤ dx }
    requires right { dx ≤ℤ pos 9 }
    requires down { negsuc 7 ≤ℤ dy }
    requires up { dy ≤ℤ pos 8 }
    ensures { (y : ℕ) → y < N → slice_index result y ≡ moved_row dx (row_at rows.now (pos y -ℤ dy)) }
{
    let mut moved = [0; N];
    for eight in 0..N / 8 {
        let at = 8 * eight;
        store(&mut moved, at, moved_columns(eight_below(rows, at, dy), dx));
    }
    moved
}

/// The eight rows that lie `dy` rows below those from row `at` on. Rows outside the board are empty.
#[inline(always)]
fn eight_below(rows: &[u16], at: usize, dy: i8) -> u16x8
    requires in_eights { length rows.now % 8 ≡ 0 }
    requires at_eight { at % 8 ≡ 0 }
    requires within { at + 8 ≤ length rows.now }
    requires few { length rows.now ≤ 32 }
    requires down { negsuc 7 ≤ℤ dy }
    requires up { dy ≤ℤ pos 8 }
    ensures lanes { (k : ℕ) → k < 8 → slice_index result k ≡ row_at rows.now (pos (at + k) -ℤ dy) }
    ensures eight { length result ≡ 8 }
{
    let lanes = load(rows, at);
    if dy < 0 {
        return eight_from(lanes, load_or_none(rows, at + 8), (0 - dy) as u8);
    }
    eight_from(load_before(rows, at), lanes, (8 - dy) as u8)
}

/// The eight rows before row `at`, or eight empty rows if `at` is the first.
#[inline(always)]
#[tactic(auto, using(crate::proofs::MovedLanes::none_before, crate::proofs::MovedLanes::eight_before))]
fn load_before(rows: &[u16], at: usize) -> u16x8
    requires at_eight { at % 8 ≡ 0 }
    requires within { at + 8 ≤ length rows.now }
    ensures lanes { (k : ℕ) → k < 8 → slice_index result k ≡ row_at rows.now (pos (at + k) -ℤ pos 8) }
    ensures eight { length result ≡ 8 }
{
    if at == 0 {
        return u16x8::splat(0);
    }
    load(rows, at - 8)
}

/// The rows moved `dx` columns to the right, in a frame of empty rows: nine below them, and at least nine above.
#[inline(always)]
fn framed<const N: usize>(rows: &[u16; N], dx: i8) -> [u16; FRAME]
    requires eights { N % 8 ≡ 0 }
    requires few { N ≤ 32 }
    requires left { negsuc 8 ≤ℤ dx }
    requires right { dx ≤ℤ pos 9 }
    ensures { (z : ℕ) → slice_index result z ≡ moved_row dx (row_at rows.now (pos z -ℤ pos FURTHEST)) }
{
    let mut framed = [0; FRAME];
    for eight in 0..N / 8 {
        let at = 8 * eight;
        let moved = moved_columns(load(rows, at), dx);
        store(&mut framed, FURTHEST + at, moved);
    }
    framed
}

/// The rows from row `from` on.
#[inline(always)]
fn window<const N: usize>(framed: &[u16; FRAME], from: usize) -> [u16; N]
    requires eights { N % 8 ≡ 0 }
    requires within { from + N ≤ FRAME }
    ensures { (y : ℕ) → y < N → slice_index result y ≡ slice_index framed.now (from + y) }
{
    let mut rows = [0; N];
    for eight in 0..N / 8 {
        let at = 8 * eight;
        store(&mut rows, at, load(framed, from + at));
    }
    rows
}
