// What hands allow: the sums of the weights of pieces that can be taken from them one after the other.
ghost use Rattle.std.specs.Prelude.{◌≡◌, ℕ, ◌≤◌, ◌<◌, ◌+◌, ◌*◌, length, slice_index, true};
ghost use Rattle.lane_board.specs.Lanes.{has_bit};
ghost use Rattle.hold_queue.specs.declared.hold.Hold.TheVariants;
ghost use Rattle.hands.specs.Weights;
ghost use Rattle.hands.specs.Weights.{AllowsTaken, AreNoted, KeepsBits, code_at};

use hold_queue::Hold;

/// A table that has for each sum of weights below 512 the hands that allow it, as bits.
pub type Sums = [u64; 512];

/// Weights of kinds by which any two choices of so many pieces of each kind have different sums, if these are small.
pub fn weights_of(counts: &[u8; 8]) -> [u16; 8] {
    let mut weights = [0; 8];
    let mut unit = 1u16;
    for code in 0..8 {
        weights[code] = unit;
        unit = unit.saturating_mul(u16::from(counts[code]).saturating_add(1));
    }
    weights
}

/// The sum of the weights of the first `count` pieces of a hand.
fn first_weights(weights: &[u16; 8], count: u8, hand: u64) -> usize
    ensures { result ≡ Weights.first_weights weights.now count hand }
{
    let mut sum = 0;
    let mut rest = hand;
    for _ in 0..count {
        sum += usize::from(weights[(rest % 8) as usize]);
        rest /= 8;
    }
    sum
}

/// Sets a bit at a sum, and says whether the sum is in the table.
fn set_at(allowed: &mut Sums, sum: usize, bit: u8) -> bool
    requires { bit < 64 }
    ensures kept { KeepsBits allowed.old allowed.new }
    ensures set { result ≡ true → has_bit (slice_index allowed.new sum) bit ≡ true }
{
    if allowed.len() <= sum {
        return false;
    }
    allowed[sum] |= 1 << bit;
    true
}

/// Without hold: sets a hand's bit at the sums of its first pieces, and says whether all of them are in the table.
fn allow_first(allowed: &mut Sums, weights: &[u16; 8], left: u8, hand: u64, bit: u8) -> bool
    requires few { left ≤ 20 }
    requires bit { bit < 64 }
    ensures kept { KeepsBits allowed.old allowed.new }
    ensures allows { result ≡ true → AllowsTaken TheVariants.Avoided left hand weights.now allowed.new bit }
{
    let mut sum = 0;
    let mut rest = hand;
    for _ in 0..left {
        sum += usize::from(weights[(rest % 8) as usize]);
        rest /= 8;
        if !set_at(allowed, sum, bit) {
            return false;
        }
    }
    true
}

/// Sets a hand's bit at the sums of its first `count` pieces but one, and says whether all of them are in the table.
fn allow_all_but_one(allowed: &mut Sums, weights: &[u16; 8], count: u8, hand: u64, bit: u8) -> bool
    requires { bit < 64 }
    ensures kept { KeepsBits allowed.old allowed.new }
    ensures allows { result ≡ true → (index sum : ℕ) → index < count
        → sum + slice_index weights.now (code_at hand index) ≡ Weights.first_weights weights.now count hand
        → has_bit (slice_index allowed.new sum) bit ≡ true }
{
    let whole = first_weights(weights, count, hand);
    let mut rest = hand;
    for _ in 0..count {
        let weight = usize::from(weights[(rest % 8) as usize]);
        if !set_at(allowed, whole.saturating_sub(weight), bit) {
            return false;
        }
        rest /= 8;
    }
    true
}

/// With hold: sets a hand's bit at the sums of its first pieces but one, and says whether all of them are in the table.
fn allow_held(allowed: &mut Sums, weights: &[u16; 8], left: u8, hand: u64, bit: u8) -> bool
    requires few { left ≤ 20 }
    requires bit { bit < 64 }
    ensures kept { KeepsBits allowed.old allowed.new }
    ensures allows { result ≡ true → AllowsTaken TheVariants.Allowed left hand weights.now allowed.new bit }
{
    for count in 0..left {
        if !allow_all_but_one(allowed, weights, count + 2, hand, bit) {
            return false;
        }
    }
    true
}

/// Sets a hand's bit at the sums of the pieces that can be taken from it, and says whether all of them are in the
/// table.
fn allow(allowed: &mut Sums, hold: Hold, weights: &[u16; 8], left: u8, hand: u64, bit: u8) -> bool
    requires few { left ≤ 20 }
    requires bit { bit < 64 }
    ensures kept { KeepsBits allowed.old allowed.new }
    ensures allows { result ≡ true → AllowsTaken hold left hand weights.now allowed.new bit }
{
    match hold {
        Hold::Avoided => allow_first(allowed, weights, left, hand, bit),
        Hold::Allowed => allow_held(allowed, weights, left, hand, bit),
    }
}

/// A table that has each hand's bit at all sums that the hand allows, and the bits of hands for which it may not: some
/// sum of theirs is past the table. One bit stands for `size` hands side by side, of which any may allow a sum. No
/// clause says that no other bit is set.
pub fn sums_of(hold: Hold, weights: &[u16; 8], left: u8, hands: &[u64], size: usize) -> (Sums, u64)
    requires few { left ≤ 20 }
    requires some { 0 < size }
    requires hands { length hands.now ≤ 64 * size }
    ensures { AreNoted hold left hands.now weights.now size result.0 result.1 (length hands.now) }
{
    let mut allowed = [0; 512];
    let mut open = 0;
    for index in 0..hands.len() {
        let bit = index / size;
        if !allow(&mut allowed, hold, weights, left, hands[index], bit as u8) {
            open |= 1 << bit;
        }
    }
    (allowed, open)
}
