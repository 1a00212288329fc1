// The walk over the sets of pieces.
ghost use Rattle.std.specs.Prelude.{ℕ, ◌≡◌, ◌<◌, ◌≤◌, ◌+◌, ◌^◌, ◌↔◌, length, slice_index, true};
ghost use Rattle.lane_board.specs.Lanes.{has_bit};
ghost use Rattle.empty_cells.specs.Empties.{cells_by_column};
ghost use Rattle.tiled_pieces.specs.Orders.{
  Carries,
  HasOrder,
  IsCarried,
  Visits,
  left_after,
  number_after,
};

use crate::laid::Laid;
use crate::left::Left;
use crate::listed::MOST_PIECES;
use crate::words::without;

/// How many sets of so many pieces there are.
const SETS: usize = 1 << MOST_PIECES;

/// Whether a set has an index.
#[inline(always)]
fn has(set: usize, index: usize) -> bool
    requires { index < MOST_PIECES }
    ensures { result ≡ has_bit set index }
{
    set >> index & 1 == 1
}

/// What the pieces of a set leave, and the sum of their weights.
#[inline(always)]
fn after(pieces: &[Laid], cells: u128, set: usize) -> (u128, usize)
    requires few { length pieces.now ≤ MOST_PIECES }
    requires small { cells < 2 ^ 80 }
    ensures small { result.0 < 2 ^ 80 }
    ensures left { cells_by_column result.0 ≡ left_after pieces.now (cells_by_column cells) set (length pieces.now) }
    ensures number { result.1 ≡ number_after pieces.now set (length pieces.now) }
    ensures low { result.1 < 2 ^ 20 }
{
    let mut left = cells;
    let mut number = 0;
    for index in 0..pieces.len() {
        if has(set, index) {
            let piece = pieces[index];
            left = without(left, piece.cells);
            number += usize::from(piece.weight);
        }
    }
    (left, number)
}

/// The hands that a number allows.
#[inline(always)]
fn allowed_at(allowed: &[u64], number: usize) -> u64
    ensures { result ≡ slice_index allowed.now number }
{
    if number < allowed.len() {
        allowed[number]
    } else {
        0
    }
}

/// The hands of a set that a piece carries on to the set with it.
#[inline(always)]
fn carried(
    hands: u64,
    set: usize,
    index: usize,
    number: usize,
    left: &Left,
    pieces: &[Laid],
    allowed: &[u64],
) -> u64
    requires index { index < length pieces.now }
    requires few { length pieces.now ≤ MOST_PIECES }
    requires number { number < 2 ^ 20 }
    ensures { (bit : ℕ) → has_bit result bit ≡ true ↔ IsCarried pieces.now left.now.drops allowed.now hands set
        (cells_by_column left.now.cells) number index bit }
{
    if has(set, index) {
        return 0;
    }
    let piece = pieces[index];
    let bits = hands & allowed_at(allowed, number + usize::from(piece.weight));
    if bits == 0 {
        return 0;
    }
    if !left.fits(&piece) {
        return 0;
    }
    bits
}

/// Carries the hands of a set on to the sets with one piece more.
#[inline(always)]
fn carry(
    table: &mut [u64; SETS],
    set: usize,
    number: usize,
    left: &Left,
    pieces: &[Laid],
    allowed: &[u64],
)
    requires few { length pieces.now ≤ MOST_PIECES }
    requires set { set < SETS }
    requires number { number < 2 ^ 20 }
    ensures { Carries pieces.now left.now.drops allowed.now (slice_index table.old set) set (cells_by_column left.now.cells)
        number table.old table.new (length pieces.now) }
{
    let hands = table[set];
    for index in 0..pieces.len() {
        let bits = carried(hands, set, index, number, left, pieces, allowed);
        table[set | 1 << index] |= bits;
    }
}

/// The hands of a set that are found, since its pieces use up the cells. Else they are carried on.
#[inline(always)]
fn visit(
    table: &mut [u64; SETS],
    set: usize,
    pieces: &[Laid],
    cells: u128,
    drops: bool,
    allowed: &[u64],
) -> u64
    requires few { length pieces.now ≤ MOST_PIECES }
    requires set { set < SETS }
    requires small { cells < 2 ^ 80 }
    ensures { Visits pieces.now drops allowed.now (cells_by_column cells) set table.old table.new result }
{
    let hands = table[set];
    if hands == 0 {
        return 0;
    }
    let (left, number) = after(pieces, cells, set);
    if left == 0 {
        return hands;
    }
    carry(table, set, number, &Left::new(left, drops), pieces, allowed);
    0
}

/// A set up to which no hand waits: the one itself, or the eighth after it. Eight of them are looked at together.
#[inline(always)]
fn waiting_from(table: &[u64; SETS], set: usize) -> usize
    requires { set < SETS }
    ensures from { set ≤ result }
    ensures near { result ≤ set + 8 }
    ensures none { (k : ℕ) → set ≤ k → k < result → slice_index table.now k ≡ 0 }
{
    if set % 8 != 0 {
        return set;
    }
    let low = table[set] | table[set + 1] | table[set + 2] | table[set + 3];
    let high = table[set + 4] | table[set + 5] | table[set + 6] | table[set + 7];
    if low | high != 0 {
        return set;
    }
    set + 8
}

/// The hands for which some order of the pieces uses up a set of cells.
pub(crate) fn served(
    pieces: &[Laid],
    cells: u128,
    drops: bool,
    allowed: &[u64],
    pending: u64,
) -> u64
    requires few { length pieces.now ≤ MOST_PIECES }
    requires small { cells < 2 ^ 80 }
    ensures { (bit : ℕ) → has_bit result bit ≡ true
        ↔ ((has_bit pending bit ≡ true) × HasOrder pieces.now drops allowed.now bit (cells_by_column cells)) }
{
    let mut table = [0; SETS];
    table[0] = pending;
    let mut found = 0;
    let sets = 1 << pieces.len();
    let mut set = 0;
    while set < sets {
        let next = waiting_from(&table, set);
        if next == set {
            found |= visit(&mut table, set, pieces, cells, drops, allowed);
            set += 1;
        } else {
            set = next;
        }
    }
    found
}
