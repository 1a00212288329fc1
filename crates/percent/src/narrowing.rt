// Leaving out tails whose hands no listed tiling serves, and tilings that serve no hand.
ghost use Rattle.std.specs.Prelude.{◌≡◌, ◌≤◌, ◌<◌, ℕ, IfOk, Some, false, true, length, slice_get, slice_index_or};
ghost use Rattle.std.specs.List.{Contains};
ghost use Rattle.hands.specs.Numbers.{has_number};
ghost use Rattle.tiled_pieces.specs.declared.listed.ListedTiling.{ListedTiling};
ghost use Rattle.percent.specs.Building.{AreCountsOf, AreOwn, HasOwn};

use crate::fitting::{Counts, are_same, counts_of};
use crate::marks::Marks;
use hold_queue::Hold;
use pc_outside::NoMemory;
use std::alloc::Global;
use tails::{TailSet, TailTree};
use tiled_pieces::TilingList;

/// The counts of each hand.
fn counts_of_each(alloc: Global, left: u8, hands: &[u64]) -> Result<Vec<Counts>, NoMemory>
    requires { left ≤ 20 }
    ensures { IfOk result (λ counts. AreCountsOf left hands.now counts.items) }
{
    let mut counts = Vec::with_capacity(alloc, hands.len())?;
    for hand in hands {
        counts.push(counts_of(*hand, left + 1))?;
    }
    Ok(counts)
}

/// The hands that have these counts, and their indexes.
fn own_hands(
    alloc: Global,
    hands: &[u64],
    counts: &[Counts],
    wanted: &Counts,
) -> Result<(Vec<u64>, Vec<usize>), NoMemory>
    requires { length counts.now ≡ length hands.now }
    ensures own { IfOk result (λ own. (left : ℕ) → AreCountsOf left hands.now counts.now
        → AreOwn wanted.now left hands.now own.0.items own.1.items) }
    ensures all { IfOk result (λ own. (left : ℕ) → AreCountsOf left hands.now counts.now
        → HasOwn wanted.now left hands.now own.0.items) }
{
    let mut own = Vec::new(alloc);
    let mut indexes = Vec::new(alloc);
    for index in 0..hands.len() {
        if are_same(&counts[index], wanted) {
            own.push(hands[index])?;
            indexes.push(index)?;
        }
    }
    Ok((own, indexes))
}

/// The tilings of a list that are used, with room for so many.
fn used_among(
    alloc: Global,
    list: &TilingList,
    used: &[bool],
    room: usize,
) -> Result<TilingList, NoMemory>
    requires { length used.now ≡ length list.now.tilings.items }
    ensures { IfOk result (λ kept. (j : ℕ) (tiling : ListedTiling) → slice_get list.now.tilings.items j ≡ Some tiling
        → slice_index_or used.now j false ≡ true → Contains kept.tilings.items tiling) }
{
    let mut tilings = Vec::with_capacity(alloc, room)?;
    for index in 0..used.len() {
        if used[index] {
            tilings.push(list.tilings[index])?;
        }
    }
    Ok(TilingList { tilings })
}

impl Marks {
    ghost use Rattle.std.specs.Prelude.{List, OnOk, vec_len};
    ghost use Rattle.well.specs.Well.{filled};
    ghost use Rattle.tails.specs.TailSets.{has};
    ghost use Rattle.percent.specs.declared.marks.Mark.{Mark};
    ghost use Rattle.percent.specs.Building.{AreNarrowed, AreTested, IsUsedByAll, KeepsCounts};
    ghost use Rattle.percent.specs.GoodHands.{is_good};
    ghost use Rattle.percent.specs.GoodTails.{is_good_tail};
    ghost use Rattle.percent.specs.LeftOut.{LeavesOutBad};
    ghost use Rattle.percent.specs.ListedHands.{AreMarksOf, AreMarksOfTails};

    /// Leaves out the tilings of a mark that are not used. All stay if there is not enough memory for a list without
    /// those.
    fn keep_used(&mut self, alloc: Global, index: usize, used: &[bool])
        requires index { index < vec_len self.old.known }
        requires size { (mark : Mark) → slice_get self.old.known.items index ≡ Some mark
            → length used.now ≡ length mark.tilings.tilings.items }
        ensures narrowed { (left : ℕ) (hands : List ℕ) → AreMarksOf self.old left (has_number hands)
            → ((mark : Mark) → slice_get self.old.known.items index ≡ Some mark
            → IsUsedByAll self.old left hands mark used.now)
            → AreNarrowed self.old self.new left hands }
        ensures counts { KeepsCounts self.old self.new index }
    {
        let mark = &self.known[index];
        let count = used.iter().filter(|is_used| **is_used).count();
        if count == used.len() {
            return;
        }
        let kept = used_among(alloc, &mark.tilings, used, count);
        if let Ok(tilings) = kept {
            self.known[index].tilings = tilings;
        }
    }

    /// Leaves out tilings of one mark that serve no hand, where it has more hands than are tested at once, and so each
    /// tiling would be looked at for each 64 of them. With hard drops by the Super Rotation System all stay.
    fn narrow_at_once(
        &mut self,
        alloc: Global,
        index: usize,
        left: u8,
        own: &[u64],
    ) -> Result<(), NoMemory>
        requires left { left ≤ 20 }
        requires index { index < vec_len self.old.known }
        ensures narrowed { OnOk result ((hands : List ℕ) → AreMarksOf self.old left (has_number hands)
            → ((mark : Mark) → slice_get self.old.known.items index ≡ Some mark
            → HasOwn mark.counts left hands own.now)
            → AreNarrowed self.old self.new left hands) }
        ensures counts { OnOk result (KeepsCounts self.old self.new index) }
    {
        if self.drops || own.len() <= 64 {
            return Ok(());
        }
        let mark = &self.known[index];
        let mut used = vec![in alloc; false; mark.tilings.tilings.len()]?;
        self.note_used(mark, left, own, &mut used);
        self.keep_used(alloc, index, used.as_slice());
        Ok(())
    }

    /// Notes which hands with the pieces of one mark are bad, and leaves out its tilings that serve none of them. With
    /// hard drops by the Super Rotation System, where that costs more than it spares, all stay. `NoMemory` if there is
    /// not enough for its hands, or for a flag for each tiling.
    fn narrow_mark(
        &mut self,
        alloc: Global,
        index: usize,
        left: u8,
        hands: &[u64],
        counts: &[Counts],
        may: &mut Vec<bool>,
    ) -> Result<(), NoMemory>
        requires left { left ≤ 20 }
        requires index { index < vec_len self.old.known }
        requires lists { AreMarksOf self.old left (has_number hands.now) }
        requires counts { AreCountsOf left hands.now counts.now }
        requires tested { AreTested self.old.game self.old.position left hands.now may.old.items }
        ensures narrowed { OnOk result (AreNarrowed self.old self.new left hands.now) }
        ensures tested { OnOk result (AreTested self.old.game self.old.position left hands.now may.new.items) }
    {
        let (own, indexes) = own_hands(alloc, hands, counts, &self.known[index].counts)?;
        self.narrow_at_once(alloc, index, left, own.as_slice())?;
        let mark = &self.known[index];
        let mut used = vec![in alloc; self.drops; mark.tilings.tilings.len()]?;
        self.test_mark(
            mark,
            left,
            own.as_slice(),
            indexes.as_slice(),
            may,
            &mut used,
        );
        self.keep_used(alloc, index, used.as_slice());
        Ok(())
    }

    /// Which hands may be good. The others no listed tiling of their mark serves. Tilings that serve no hand are left
    /// out.
    fn narrow(&mut self, alloc: Global, left: u8, hands: &[u64]) -> Result<Vec<bool>, NoMemory>
        requires left { left ≤ 20 }
        requires lists { AreMarksOf self.old left (has_number hands.now) }
        ensures narrowed { OnOk result (AreNarrowed self.old self.new left hands.now) }
        ensures tested { IfOk result (λ may. AreTested self.old.game self.old.position left hands.now may.items) }
    {
        let counts = counts_of_each(alloc, left, hands)?;
        let mut may = vec![in alloc; true; hands.len()]?;
        for index in 0..self.known.len() {
            self.narrow_mark(alloc, index, left, hands, counts.as_slice(), &mut may)?;
        }
        Ok(may)
    }

    /// Whether it pays to ask which hands a listed tiling may serve, with `left` placements to come. With fewer or more
    /// of them the test costs more than what it spares.
    pub fn asks_orders(&self, left: u8) -> bool {
        if self.is_empty() {
            return false;
        }
        match (self.drops, self.game.hold) {
            (true, _) => (4..=8).contains(&left),
            (false, Hold::Avoided) => left == 8,
            (false, Hold::Allowed) => false,
        }
    }

    /// Those of the tails whose hands a listed tiling may serve, with `left` placements to come. The others are not good.
    /// Tilings that serve none of these hands are left out.
    pub fn buildable(
        &mut self,
        alloc: Global,
        tree: &TailTree,
        left: u8,
        tails: &TailSet,
    ) -> Result<TailSet, NoMemory>
        requires left { left ≤ 20 }
        requires lists { AreMarksOfTails tree.now self.old left (has tails.now) }
        ensures game { OnOk result (self.new.game ≡ self.old.game) }
        ensures position { OnOk result (self.new.position ≡ self.old.position) }
        ensures lists { IfOk result (λ likely. AreMarksOfTails tree.now self.new left (has likely)) }
        ensures good { IfOk result (λ likely. LeavesOutBad (is_good_tail tree.now self.old.game
            (filled self.old.position.well) self.old.position.rows left) (has tails.now) (has likely)) }
    {
        let all = tails.numbers(alloc)?;
        let numbers = all.as_slice();
        let hands = tree.hands(alloc, numbers)?;
        let may = self.narrow(alloc, left, hands.as_slice())?;
        let mut likely = TailSet::with_room_of(alloc, tails)?;
        for index in 0..numbers.len() {
            if may[index] {
                likely.insert(numbers[index])?;
            }
        }
        Ok(likely)
    }
}
