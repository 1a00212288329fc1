// Rows taken eight at a time, one to each lane of a vector.
ghost use Rattle.std.specs.Prelude.{◌≡◌, ℕ, pos, negsuc, ◌≤ℤ◌, map, ◌+◌, ◌*◌, ◌/◌, ◌%◌, ◌^◌, ◌<◌, ◌≤◌, ◌↔◌, length, slice_index, IsTrue, ◌==◌, ◌++◌, bit_and, bit_or, bit_xor, count_ones, sum_by};
ghost use Rattle.std.specs.Simd.Lanes.{chunk, put_chunk, zip2};
ghost use Rattle.lane_board.specs.Lanes.{has_bit, moved_row};

use std::simd::prelude::*;

/// The eight rows from row `at` on.
#[inline(always)]
pub(crate) fn load(rows: &[u16], at: usize) -> u16x8
    requires { at + 8 ≤ length rows.now }
    ensures lanes { result ≡ chunk at 8 rows.now }
    ensures eight { length result ≡ 8 }
{
    u16x8::from_slice(&rows[at..])
}

/// The eight rows from row `at` on, or eight empty rows if `at` is past the last.
#[inline(always)]
#[tactic(auto, using(crate::proofs::EightRows::loaded))]
pub(crate) fn load_or_none(rows: &[u16], at: usize) -> u16x8
    requires fits { at + 8 < 2 ^ 64 }
    requires in_eights { length rows.now % 8 ≡ 0 }
    requires at_eight { at % 8 ≡ 0 }
    ensures lanes { (k : ℕ) → k < 8 → slice_index result k ≡ slice_index rows.now (at + k) }
    ensures eight { length result ≡ 8 }
{
    if at + 8 <= rows.len() {
        return load(rows, at);
    }
    u16x8::splat(0)
}

/// Writes the eight rows from row `at` on.
#[inline(always)]
pub(crate) fn store(rows: &mut [u16], at: usize, lanes: u16x8)
    requires within { at + 8 ≤ length rows.old }
    requires eight { length lanes ≡ 8 }
    ensures { rows.new ≡ put_chunk at rows.old lanes }
{
    lanes.copy_to_slice(&mut rows[at..])
}

/// How a row of one board and the same row of another become one row.
pub(crate) trait Combine {
    ghost of_rows: { ℕ → ℕ → ℕ };

    /// The same for eight rows of each.
    fn of_lanes(a: u16x8, b: u16x8) -> u16x8
        ensures { result ≡ zip2 of_rows a b };
}

pub(crate) struct And;

impl Combine for And {
    ghost of_rows = { bit_and };

    #[inline(always)]
    fn of_lanes(a: u16x8, b: u16x8) -> u16x8 {
        a & b
    }
}

pub(crate) struct Or;

impl Combine for Or {
    ghost of_rows = { bit_or };

    #[inline(always)]
    fn of_lanes(a: u16x8, b: u16x8) -> u16x8 {
        a | b
    }
}

pub(crate) struct AndNot;

impl Combine for AndNot {
    ghost of_rows = { λ a b. bit_xor a (bit_and a b) };

    #[inline(always)]
    fn of_lanes(a: u16x8, b: u16x8) -> u16x8 {
        a ^ (a & b)
    }
}

/// The rows of two boards combined, row by row.
#[inline(always)]
pub(crate) fn combined<C: Combine, const N: usize>(a: &[u16; N], b: &[u16; N]) -> [u16; N]
    requires { N % 8 ≡ 0 }
    ensures { (y : ℕ) → y < N → slice_index result y ≡ C.of_rows (slice_index a.now y) (slice_index b.now y) }
{
    let mut rows = [0; N];
    for eight in 0..N / 8 {
        let at = 8 * eight;
        let left = load(a, at);
        let right = load(b, at);
        store(&mut rows, at, C::of_lanes(left, right));
    }
    rows
}

/// Whether two boards are the same in the eight rows from row `at` on.
#[inline(always)]
pub(crate) fn agree(a: &[u16], b: &[u16], at: usize) -> bool
    requires left { at + 8 ≤ length a.now }
    requires right { at + 8 ≤ length b.now }
    ensures { IsTrue result ↔ ((y : ℕ) → at ≤ y → y < at + 8 → slice_index a.now y ≡ slice_index b.now y) }
{
    load(a, at).simd_ne(load(b, at)).to_bitmask() == 0
}

/// A row with all ten cells.
pub(crate) const FULL: u16 = 1023;

/// Which of the eight rows from row `at` on are full: bit `k` is for row `at + k`.
#[inline(always)]
pub(crate) fn full_in(rows: &[u16], at: usize) -> u32
    requires { at + 8 ≤ length rows.now }
    ensures within { result < 256 }
    ensures rows { (k : ℕ) → k < 8 → has_bit result k ≡ (slice_index rows.now (at + k) == FULL) }
{
    let mask = load(rows, at).simd_eq(u16x8::splat(FULL)).to_bitmask();
    mask as u32
}

/// How many cells are in the eight rows from row `at` on.
#[inline(always)]
pub(crate) fn count_in(rows: &[u16], at: usize) -> u16
    requires { at + 8 ≤ length rows.now }
    ensures { result ≡ sum_by count_ones (chunk at 8 rows.now) }
{
    load(rows, at).count_ones().reduce_sum()
}

/// Eight rows moved `left` columns to the left.
#[inline(always)]
fn moved_left(lanes: u16x8, left: u16) -> u16x8
    requires eight { length lanes ≡ 8 }
    requires few { left ≤ 9 }
    ensures { result ≡ map (λ row. row / 2 ^ left) lanes }
{
    lanes >> u16x8::splat(left)
}

/// Eight rows moved `right` columns to the right.
#[inline(always)]
fn moved_right(lanes: u16x8, right: u16) -> u16x8
    requires eight { length lanes ≡ 8 }
    requires few { right ≤ 9 }
    ensures { result ≡ map (λ row. row * 2 ^ right % 1024) lanes }
{
    (lanes << u16x8::splat(right)) & u16x8::splat(FULL)
}

/// Eight rows moved `dx` columns to the right. Cells that leave columns 0 to 9 are dropped.
#[inline(always)]
pub(crate) fn moved_columns(lanes: u16x8, dx: i8) -> u16x8
    requires eight { length lanes ≡ 8 }
    requires left { negsuc 8 ≤ℤ dx }
    requires right { dx ≤ℤ pos 9 }
    ensures lanes { result ≡ map (moved_row dx) lanes }
    ensures eight { length result ≡ 8 }
{
    if dx < 0 {
        let left = (0 - dx) as u16;
        return moved_left(lanes, left);
    }
    let right = dx as u16;
    moved_right(lanes, right)
}

/// Eight of sixteen rows, from row `from` on.
#[inline(always)]
pub(crate) fn eight_from(low: u16x8, high: u16x8, from: u8) -> u16x8
    requires low { length low ≡ 8 }
    requires high { length high ≡ 8 }
    requires from { from ≤ 8 }
    ensures lanes { (k : ℕ) → k < 8 → slice_index result k ≡ slice_index (low ++ high) (from + k) }
    ensures eight { length result ≡ 8 }
{
    match from {
        0 => low,
        1 => low.shuffle(high, [1, 2, 3, 4, 5, 6, 7, 8]),
        2 => low.shuffle(high, [2, 3, 4, 5, 6, 7, 8, 9]),
        3 => low.shuffle(high, [3, 4, 5, 6, 7, 8, 9, 10]),
        4 => low.shuffle(high, [4, 5, 6, 7, 8, 9, 10, 11]),
        5 => low.shuffle(high, [5, 6, 7, 8, 9, 10, 11, 12]),
        6 => low.shuffle(high, [6, 7, 8, 9, 10, 11, 12, 13]),
        7 => low.shuffle(high, [7, 8, 9, 10, 11, 12, 13, 14]),
        _ => high,
    }
}
