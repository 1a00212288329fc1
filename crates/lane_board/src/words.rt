// Bits of words of 64 bits.
ghost use Rattle.std.specs.Prelude.{◌≡◌, ℕ, ◌<◌, ◌&&◌, ◌||◌, ◌==◌, ◌↔◌, IsTrue, not, false};
ghost use Rattle.lane_board.specs.Lanes.{has_bit};
ghost use Rattle.lane_board.specs.LowestBit.{IsLowestBit};

/// The index of the lowest bit.
#[inline(always)]
pub fn lowest_bit(word: u64) -> u16
    requires { 0 < word }
    ensures below { result < 64 }
    ensures lowest { IsLowestBit word result }
{
    word.trailing_zeros() as u16
}

/// Whether a bit is set.
#[tactic(auto, unfolding(crate::specs::Lanes::has_bit))]
#[inline(always)]
pub fn has_bit(word: u64, bit: u16) -> bool
    requires { bit < 64 }
    ensures { result ≡ has_bit word bit }
{
    word >> bit & 1 == 1
}

/// The word without its lowest bit.
#[inline(always)]
pub fn without_lowest(word: u64) -> u64
    requires { 0 < word }
    ensures less { result < word }
    ensures bits { (bit k : ℕ) → IsLowestBit word bit → k < 64
        → has_bit result k ≡ (has_bit word k && not (k == bit)) }
{
    word & (word - 1)
}

/// The bits of a word that aren't in another one.
#[inline(always)]
pub fn bits_without(word: u64, others: u64) -> u64
    ensures bits { (k : ℕ) → has_bit result k ≡ (has_bit word k && not (has_bit others k)) }
    ensures nothing { word ≡ 0 → result ≡ 0 }
{
    word ^ (word & others)
}

/// The bits that either word has.
#[inline(always)]
pub fn bits_of_either(one: u64, other: u64) -> u64
    ensures { (k : ℕ) → has_bit result k ≡ (has_bit one k || has_bit other k) }
{
    one | other
}

/// Whether a word has no bit.
#[inline(always)]
pub fn has_none(word: u64) -> bool
    ensures { IsTrue result ↔ ((k : ℕ) → k < 64 → has_bit word k ≡ false) }
{
    word == 0
}
