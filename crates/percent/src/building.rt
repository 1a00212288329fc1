// The hands that may be good because a listed tiling serves them: its pieces can be put in place one after the other,
// in an order that the hand permits. And the tilings that serve such hands.
ghost use Rattle.std.specs.Prelude.{◌≡◌, ◌↔◌, ◌≤◌, ◌<◌, ◌==◌, ◌||◌, ℕ, length, not, true, false};
ghost use Rattle.lane_board.specs.Lanes.{has_bit};
ghost use Rattle.empty_cells.specs.Empties.{empty_cells};
ghost use Rattle.tiled_pieces.specs.Served.{IsServed};

use crate::marks::{Mark, Marks};
use empty_cells::Empties;
use hands::{Sums, sums_of, weights_of};
use lane_board::words::{bits_without, has_bit};
use tiled_pieces::{ListedTiling, served_hands};

/// The lowest `count` bits.
fn lowest(count: usize) -> u64 {
    if count < 64 {
        (1 << count) - 1
    } else {
        u64::MAX
    }
}

/// Whether something is so, or a bit is set.
#[inline(always)]
fn or_some(is_so: bool, bits: u64) -> bool
    ensures { result ≡ (is_so || not (bits == 0)) }
{
    is_so || bits != 0
}

/// The hands about which a tiling is asked: those that are pending, and all if it is not used so far.
#[inline(always)]
fn asked_about(is_used: bool, pending: u64) -> u64
    ensures pending { (k : ℕ) → k < 64 → has_bit pending k ≡ true → has_bit result k ≡ true }
    ensures all { is_used ≡ false → (k : ℕ) → k < 64 → has_bit result k ≡ true }
{
    if is_used {
        return pending;
    }
    u64::MAX
}

/// Of some hands, one bit each, those that a tiling serves.
#[inline(always)]
fn served_among(
    tiling: &ListedTiling,
    cells: &Empties,
    drops: bool,
    weights: &[u16; 8],
    allowed: &Sums,
    hands: u64,
) -> u64
    ensures { (bit : ℕ) → has_bit result bit ≡ true ↔ ((has_bit hands bit ≡ true)
        × IsServed tiling.now (empty_cells cells.now) drops weights.now allowed.now bit) }
{
    if hands == 0 {
        return 0;
    }
    served_hands(tiling, cells, drops, weights, allowed, hands)
}

impl Marks {
    ghost use Rattle.std.specs.Prelude.{◌+◌, Contains, slice_index};
    ghost use Rattle.percent.specs.Building.{IsRefused, IsUsedBy, StaysUsed, Tests};

    /// Those of up to 64 hands that no tiling of a mark serves, one bit each. Notes which tilings serve some of them. A
    /// hand of which some sum of weights is not in the table is not among them, and any tiling may serve it.
    fn unserved(&self, mark: &Mark, left: u8, hands: &[u64], used: &mut Vec<bool>) -> u64
        requires left { left ≤ 20 }
        requires hands { length hands.now ≤ 64 }
        requires size { length used.old.items ≡ length mark.now.tilings.tilings.items }
        ensures stays { StaysUsed used.old.items used.new.items }
        ensures used { (k : ℕ) → k < length hands.now
            → IsUsedBy self.now left mark.now.tilings.tilings.items used.new.items (slice_index hands.now k) }
        ensures unserved { (k : ℕ) → k < length hands.now → has_bit result k ≡ true
            → IsRefused self.now left mark.now (slice_index hands.now k) }
    {
        let weights = weights_of(&mark.counts);
        let (allowed, open) = sums_of(self.game.hold, &weights, left, hands, 1);
        let all = lowest(hands.len());
        let mut pending = bits_without(all, open);
        for index in 0..mark.tilings.tilings.len() {
            let tiling = &mark.tilings.tilings[index];
            let is_used = or_some(used[index], open);
            let asked = asked_about(is_used, pending);
            let served = served_among(tiling, &self.cells, self.drops, &weights, &allowed, asked);
            pending = bits_without(pending, served);
            used[index] = or_some(is_used, served);
        }
        pending
    }

    /// Notes which tilings of a mark may serve some of these hands. One bit stands for all hands of a part of the list, so
    /// each tiling is looked at once. Some may be noted that serve none.
    pub fn note_used(&self, mark: &Mark, left: u8, hands: &[u64], used: &mut Vec<bool>)
        requires left { left ≤ 20 }
        requires size { length used.old.items ≡ length mark.now.tilings.tilings.items }
        ensures size { length used.new.items ≡ length mark.now.tilings.tilings.items }
        ensures used { (k : ℕ) → k < length hands.now
            → IsUsedBy self.now left mark.now.tilings.tilings.items used.new.items (slice_index hands.now k) }
    {
        let weights = weights_of(&mark.counts);
        let size = hands.len() / 64 + 1;
        let (allowed, open) = sums_of(self.game.hold, &weights, left, hands, size);
        for index in 0..mark.tilings.tilings.len() {
            let tiling = &mark.tilings.tilings[index];
            let served = served_among(
                tiling,
                &self.cells,
                self.drops,
                &weights,
                &allowed,
                u64::MAX,
            );
            used[index] = or_some(or_some(used[index], open), served);
        }
    }

    /// Notes that those of up to 64 hands of a mark are bad which none of its tilings serves, and which tilings serve some
    /// of them.
    fn note(
        &self,
        mark: &Mark,
        left: u8,
        own: &[u64],
        indexes: &[usize],
        may: &mut Vec<bool>,
        used: &mut Vec<bool>,
    )
        requires left { left ≤ 20 }
        requires among { Contains self.now.known.items mark.now }
        requires few { length own.now ≤ 64 }
        requires size { length indexes.now ≡ length own.now }
        requires within { (k : ℕ) → k < length own.now → slice_index indexes.now k < length may.old.items }
        requires used { length used.old.items ≡ length mark.now.tilings.tilings.items }
        ensures tested { Tests self.now mark.now.counts left own.now indexes.now may.old.items may.new.items }
        ensures stays { StaysUsed used.old.items used.new.items }
        ensures used { (k : ℕ) → k < length own.now
            → IsUsedBy self.now left mark.now.tilings.tilings.items used.new.items (slice_index own.now k) }
    {
        let unserved = self.unserved(mark, left, own, used);
        for k in 0..own.len() {
            if has_bit(unserved, k as u16) {
                may[indexes[k]] = false;
            }
        }
    }

    /// Notes which of the hands of a mark are bad, and which of its tilings serve some of them.
    pub fn test_mark(
        &self,
        mark: &Mark,
        left: u8,
        own: &[u64],
        indexes: &[usize],
        may: &mut Vec<bool>,
        used: &mut Vec<bool>,
    )
        requires left { left ≤ 20 }
        requires among { Contains self.now.known.items mark.now }
        requires size { length indexes.now ≡ length own.now }
        requires within { (k : ℕ) → k < length own.now → slice_index indexes.now k < length may.old.items }
        requires used { length used.old.items ≡ length mark.now.tilings.tilings.items }
        ensures tested { Tests self.now mark.now.counts left own.now indexes.now may.old.items may.new.items }
        ensures size { length used.new.items ≡ length mark.now.tilings.tilings.items }
        ensures used { (k : ℕ) → k < length own.now
            → IsUsedBy self.now left mark.now.tilings.tilings.items used.new.items (slice_index own.now k) }
    {
        let mut start = 0;
        while start < own.len() {
            let end = own.len().min(start.saturating_add(64));
            self.note(
                mark,
                left,
                &own[start..end],
                &indexes[start..end],
                may,
                used,
            );
            start = end;
        }
    }
}
