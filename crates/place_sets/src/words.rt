// Rows in words of 64 bits.
ghost use Rattle.std.specs.Prelude.{◌≡◌, ℕ, ◌*◌, ◌+◌, ◌-◌, ◌<◌, ◌≤◌, nat_le, nat_lt, ◌&&◌};
ghost use Rattle.lane_board.specs.Board.{field_of};
ghost use Rattle.lane_board.specs.Lanes.{has_bit};
ghost use Rattle.place_sets.specs.FourRows.{IsFourRows};

use lane_board::LaneBoard;

/// Four rows of a board from this row on, sixteen bits each.
#[inline(always)]
pub(crate) fn four_rows<const N: usize>(board: &LaneBoard<N>, row: u8) -> u64
    requires { row + 4 ≤ N }
    ensures { IsFourRows (field_of board.now) row result }
{
    u64::from(board.row(row))
        | u64::from(board.row(row + 1)) << 16
        | u64::from(board.row(row + 2)) << 32
        | u64::from(board.row(row + 3)) << 48
}

/// The bits of a word from bit `low` on.
#[inline(always)]
pub(crate) fn bits_from(word: u64, low: u16) -> u64
    requires { low < 64 }
    ensures { (k : ℕ) → k < 64 → has_bit result k ≡ (nat_le low k && has_bit word k) }
{
    word >> low << low
}

/// For no row up to eight: all bits of these rows, in two words of four rows.
const LOW_ROWS: [u64; 18] = [
    0,
    0,
    0xffff,
    0,
    0xffff_ffff,
    0,
    0xffff_ffff_ffff,
    0,
    u64::MAX,
    0,
    u64::MAX,
    0xffff,
    u64::MAX,
    0xffff_ffff,
    u64::MAX,
    0xffff_ffff_ffff,
    u64::MAX,
    u64::MAX,
];

/// Of the first or second four rows of a board, the bits below row `rows`. How many rows that are differs from word to
/// word, so there is no branch.
#[inline(always)]
pub(crate) fn bits_under(word: u64, four: u8, rows: u8) -> u64
    requires four { four ≤ 1 }
    requires eight { rows ≤ 8 }
    ensures { (k : ℕ) → k < 64 → has_bit result k ≡ (has_bit word k && nat_lt k (16 * (rows - 4 * four))) }
{
    word & LOW_ROWS[usize::from(2 * rows + four)]
}

/// The bits of the first `rows` of the four rows of a word.
#[inline(always)]
pub(crate) fn in_low_rows(word: u64, rows: u8) -> u64
    ensures { (k : ℕ) → k < 64 → has_bit result k ≡ (has_bit word k && nat_lt k (16 * rows)) }
{
    bits_under(word, 0, rows.min(4))
}
