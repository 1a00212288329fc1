// Leaving out tails whose pieces can't fill the empty cells, before anything is played.
ghost use Rattle.std.specs.Prelude.{◌≡◌, ◌↔◌, ℕ, ◌≤◌, ◌<◌, IsTrue, true, false, IfOk, length, slice_index};
ghost use Rattle.empty_cells.specs.Empties.{all_but, empty_cells};
ghost use Rattle.well.specs.Well.{filled};
ghost use Rattle.prune.specs.Tiling.{Tiling, supply_in};
ghost use Rattle.hands.specs.Numbers.{has_number};
ghost use Rattle.tails.specs.declared.tree.TailTree.{TailTree};
ghost use Rattle.tails.specs.TailSets.{has};
ghost use Rattle.tails.specs.Tails.{AreHandsAt, AreTails};
ghost use Rattle.percent.specs.declared.game.Game.{Game};
ghost use Rattle.percent.specs.Counts.{supply_by};
ghost use Rattle.percent.specs.Fitting.{codes_in};
ghost use Rattle.percent.specs.GoodTails.{is_good_tail};
ghost use Rattle.percent.specs.LeftOut.{LeavesOutBad};

use crate::position::{Position, hash_of};
use empty_cells::Empties;
use fact_table::{Entry, FactTable};
use packing::TilingStore;
use pc_outside::NoMemory;
use prune::cheap_no;
use std::alloc::Global;
use tails::{TailSet, TailTree};

/// How many pieces there are with each code. No piece has the code 0.
pub type Counts = [u8; 8];

/// What was found about some cells and some pieces: if `may_fit` is false, the pieces can't fill the cells.
#[derive(Clone, Copy)]
struct Verdict {
    cells: Empties,
    counts: Counts,
    may_fit: bool,
    ghost holds: { may_fit ≡ false → Tiling (all_but (empty_cells cells)) 8 (supply_by counts) → ⊥ },
}

impl Verdict {
    /// Whether it is about these cells and pieces with these counts.
    #[inline(always)]
    fn is_about(&self, cells: &Empties, counts: &Counts) -> bool
        ensures cells { IsTrue result → empty_cells self.now.cells ≡ empty_cells cells.now }
        ensures counts { IsTrue result → self.now.counts ≡ counts.now }
    {
        are_same(&self.counts, counts) && self.cells.is_equal(cells)
    }
}

impl Entry for Verdict {
    ghost says_nothing = { λ verdict. verdict.may_fit ≡ true };

    fn nothing(_alloc: Global) -> Verdict {
        Verdict {
            cells: Empties::empty(),
            counts: [0; 8],
            may_fit: true,
        }
    }
}

/// How many verdicts are remembered. Eight bits of a hash say where each stands.
const VERDICTS: usize = 256;

/// Remembers which pieces can fill which cells, and which cannot. A later verdict evicts an earlier one.
#[derive(Drop)]
pub struct FitMemory {
    tilings: TilingStore,
    verdicts: FactTable<Verdict>,
}

/// Whether these are the same counts. They are compared as one word.
#[inline(always)]
pub fn are_same(a: &Counts, b: &Counts) -> bool
    ensures { IsTrue result ↔ (a.now ≡ b.now) }
{
    u64::from_le_bytes(*a) == u64::from_le_bytes(*b)
}

/// The counts of the first `pieces` pieces of a hand.
pub fn counts_of(hand: u64, pieces: u8) -> Counts
    ensures size { length result ≡ 8 }
    ensures each { (code : ℕ) → code < 8 → slice_index result code ≡ codes_in pieces hand code }
{
    let mut counts = [0; 8];
    let mut rest = hand;
    for _ in 0..pieces {
        counts[(rest % 8) as usize] += 1;
        rest /= 8;
    }
    counts
}

/// The greater count for each code.
fn greater(a: &Counts, b: &Counts) -> Counts
    ensures first { (code : ℕ) → code < 8 → slice_index a.now code ≤ slice_index result code }
    ensures second { (code : ℕ) → code < 8 → slice_index b.now code ≤ slice_index result code }
{
    let mut counts = [0; 8];
    for code in 0..8 {
        counts[code] = a[code].max(b[code]);
    }
    counts
}

/// The greatest count for each code over some hands.
fn greatest_counts(hands: &[u64], pieces: u8) -> Counts
    ensures { (hand : ℕ) → has_number hands.now hand ≡ true → (code : ℕ) → code < 8 →
        codes_in pieces hand code ≤ slice_index result code }
{
    let mut counts = [0; 8];
    for hand in hands {
        counts = greater(&counts, &counts_of(*hand, pieces));
    }
    counts
}

/// How many pieces there are of each kind, in the order of the kinds.
#[inline(always)]
pub fn supply_from(counts: &Counts) -> [u8; 7]
    ensures { supply_in result ≡ supply_by counts.now }
{
    let [_, i, l, o, z, t, j, s] = *counts;
    [i, l, o, z, t, j, s]
}

/// Whether pieces with these counts can fill the cells. The search begins at the side nearer to a column.
fn fills(tilings: &mut TilingStore, cells: &Empties, near: u8, counts: &Counts) -> bool
    ensures { IsTrue result ↔ Tiling (all_but (empty_cells cells.now)) 8 (supply_by counts.now) }
{
    tilings.has_tiling_near(cells, near, &supply_from(counts))
}

impl FitMemory {
    /// An empty memory. What there is not enough memory for is not remembered.
    pub fn new(alloc: Global) -> FitMemory {
        FitMemory {
            tilings: TilingStore::within_memory(alloc),
            verdicts: FactTable::within_memory(alloc, VERDICTS),
        }
    }

    /// Whether pieces with these counts may fill the cells, which have this hash. The search begins at the side nearer
    /// to a column.
    #[inline(always)]
    fn may_fit(&mut self, cells: &Empties, cells_hash: u64, near: u8, counts: &Counts) -> bool
        ensures { result ≡ false → Tiling (all_but (empty_cells cells.now)) 8 (supply_by counts.now) → ⊥ }
    {
        let mixed = (u64::from_le_bytes(*counts) ^ cells_hash).wrapping_mul(0x9e37_79b9_7f4a_7c15);
        let hash = mixed >> 56;
        if let Some(verdict) = self.verdicts.entry(hash) {
            if verdict.is_about(cells, counts) {
                return verdict.may_fit;
            }
        }
        let verdict = Verdict {
            cells: *cells,
            counts: *counts,
            may_fit: fills(&mut self.tilings, cells, near, counts),
        };
        self.verdicts.put(hash, verdict);
        verdict.may_fit
    }
}

/// Those of the tails with these hands whose pieces may fill the empty cells at a position. The others are not good
/// there.
pub fn fitting(
    alloc: Global,
    fits: &mut FitMemory,
    position: &Position,
    left: u8,
    tails: &[u64],
    hands: &[u64],
) -> Result<TailSet, NoMemory>
    requires few { left ≤ 20 }
    requires size { length hands.now ≡ length tails.now }
    ensures { IfOk result (λ fit. (tree : TailTree) (game : Game) → AreHandsAt tree tails.now hands.now
        → LeavesOutBad (is_good_tail tree game (filled position.now.well) position.now.rows left)
        (has_number tails.now) (has fit)) }
{
    let mut fit = TailSet::none(alloc);
    if cheap_no(&position.well, position.rows, &[255; 7]) {
        return Ok(fit);
    }
    let cells = Empties::below(&position.well, position.rows);
    let pieces = left + 1;
    let hash = hash_of(cells.bits(), left);
    let near = position.near;
    if !fits.may_fit(&cells, hash, near, &greatest_counts(hands, pieces)) {
        return Ok(fit);
    }
    for index in 0..tails.len() {
        if fits.may_fit(&cells, hash, near, &counts_of(hands[index], pieces)) {
            fit.insert(tails[index])?;
        }
    }
    Ok(fit)
}

/// How many blocks of tails are looked at together.
const PART: usize = 16_384;

/// The tails of a set whose pieces may fill the empty cells at a position. The others are not good there. They are
/// looked for in parts of the set, so that no list of all tails is made.
pub fn fitting_in_parts(
    alloc: Global,
    fits: &mut FitMemory,
    tree: &TailTree,
    position: &Position,
    left: u8,
    tails: &TailSet,
) -> Result<TailSet, NoMemory>
    requires few { left ≤ 20 }
    requires tails { AreTails tree.now (has tails.now) }
    ensures { IfOk result (λ fit. (game : Game) → LeavesOutBad (is_good_tail tree.now game (filled position.now.well)
        position.now.rows left) (has tails.now) (has fit)) }
{
    let mut fit = TailSet::none(alloc);
    let mut rest = tails.copied(alloc)?;
    while rest.block_count() > 0 {
        let (part, others) = rest.split_at(alloc, PART)?;
        let numbers = part.numbers(alloc)?;
        let hands = tree.hands(alloc, numbers.as_slice())?;
        let more = fitting(
            alloc,
            fits,
            position,
            left,
            numbers.as_slice(),
            hands.as_slice(),
        )?;
        fit = fit.merged(alloc, &more)?;
        rest = others;
    }
    Ok(fit)
}
