// Blocks of tails: 64 tails side by side.
ghost use Rattle.std.specs.Prelude.{◌≡◌, ℕ, ◌+◌, ◌-◌, ◌*◌, ◌%◌, ◌^◌, ◌<◌, ◌&&◌, ◌||◌, nat_le, nat_lt};
ghost use Rattle.lane_board.specs.Lanes.{has_bit};
ghost use Rattle.tails.specs.Blocks.{in_block};
ghost use Rattle.tails.specs.Takings.{IsTaking, is_sent};

use crate::takings::Taking;

/// Tails side by side. The key is the number of the first of them divided by 64, and bit `k` is set if the tail with
/// `k` added to that is there.
#[derive(Clone, Copy)]
pub(crate) struct Block {
    pub(crate) key: u64,
    pub(crate) bits: u64,
}

/// The bits below an index.
#[inline(always)]
pub(crate) fn bits_below(count: u64) -> u64
    ensures { (k : ℕ) → has_bit result k ≡ (nat_lt k 64 && nat_lt k count) }
{
    if count < 64 {
        (1 << count) - 1
    } else {
        u64::MAX
    }
}

/// The bits with an index that much less.
#[inline(always)]
pub(crate) fn bits_down(bits: u64, by: u64) -> u64
    ensures { (k : ℕ) → has_bit result k ≡ has_bit bits (k + by) }
{
    if by < 64 { bits >> by } else { 0 }
}

/// The bits with an index that much greater, below 64.
#[inline(always)]
pub(crate) fn bits_up(bits: u64, by: u64) -> u64
    ensures { (k : ℕ) → has_bit result k ≡ (nat_lt k 64 && (nat_le by k && has_bit bits (k - by))) }
{
    if by < 64 { bits << by } else { 0 }
}

impl Block {
    /// The place of its first tail among the tails of its state.
    #[inline(always)]
    pub(crate) fn place(self) -> u64
        ensures { result ≡ self.key % 2 ^ 26 * 64 }
    {
        self.key % (1 << 26) * 64
    }

    /// What is left of those tails that are in a run: in at most two blocks.
    #[inline(always)]
    pub(crate) fn sent(self, taking: &Taking) -> (Block, Block)
        requires { IsTaking taking.now }
        ensures low { result.0.key < 2 ^ 58 }
        ensures high { result.1.key < 2 ^ 58 }
        ensures sent { (tail : ℕ) → (in_block result.0 tail || in_block result.1 tail) ≡ is_sent self taking.now tail }
    {
        let place = self.place();
        let first = u64::from(taking.first);
        let count = u64::from(taking.count);
        let key = taking.base / 64;
        let none = Block { key, bits: 0 };
        if place < first {
            let before = first - place;
            let bits = bits_down(self.bits, before) & bits_below(count);
            return (Block { key, bits }, none);
        }
        let behind = place - first;
        if count <= behind {
            return (none, none);
        }
        let bits = self.bits & bits_below(count - behind);
        let key = key + behind / 64;
        let shift = behind % 64;
        let low = Block {
            key,
            bits: bits_up(bits, shift),
        };
        let high = Block {
            key: key + 1,
            bits: bits_down(bits, 64 - shift),
        };
        (low, high)
    }
}
