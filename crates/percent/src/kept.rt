// Kept answers, each of them true. Entries may be evicted; that costs time, never correctness.
ghost use Rattle.std.specs.Prelude.{◌≡◌, ◌≤◌, ◌<◌, All, length};
ghost use Rattle.srs.specs.Rules.{table_of};
ghost use Rattle.reach.specs.FloodRules.{flood_table};
ghost use Rattle.percent.specs.Kept.{blocks_in, blocks_of, IsTrueSlot, Keeps};

use crate::fitting::FitMemory;
use crate::game::Game;
use crate::position::{Position, hash_of};
use fact_table::{Entry, FactTable};
use pc_outside::NoMemory;
use place_sets::LowPlaces;
use reach::{FloodRules, Steps};
use srs::Piece;
use std::alloc::Global;
use std::sync::ledger::Ledger;
use tails::{TailSet, TailTree};
use tiled_pieces::Lister;
use well::cells_below;

/// The tails that are known to be good at a position, and those that are known not to be.
#[derive(Drop)]
pub struct Slot {
    pub cells: u128,
    pub rows: u8,
    pub left: u8,
    pub found: TailSet,
    pub missed: TailSet,
}

impl Slot {
    /// How many blocks of answers it has.
    fn block_count(&self) -> usize
        ensures { result ≡ blocks_of self.now }
    {
        self.found.block_count() + self.missed.block_count()
    }
}

impl Entry for Slot {
    ghost says_nothing = { λ slot. blocks_of slot ≡ 0 };

    fn nothing(alloc: Global) -> Slot {
        Slot {
            cells: 0,
            rows: 0,
            left: 0,
            found: TailSet::none(alloc),
            missed: TailSet::none(alloc),
        }
    }
}

/// The most blocks of answers that are kept, of 16 bytes each. A union has room for twice its blocks at most.
const MOST: usize = 3_145_728;

/// A store of answers, and what else a search for good tails remembers. A later entry evicts an earlier one. All are
/// forgotten before there are too many answers.
#[derive(Drop)]
pub struct Kept {
    pub game: Game,
    pub tree: TailTree,
    pub flood: FloodRules,
    pub fits: FitMemory,
    pub lister: Lister,
    slots: FactTable<Slot>,
    /// How many blocks of answers are kept.
    count: usize,
    ghost same_hold: { tree.hold ≡ game.hold },
    ghost floods: { flood_table flood ≡ table_of game.rules },
    ghost are_true: { All (IsTrueSlot tree game) slots },
    ghost counted: { count ≡ blocks_in slots },
    ghost bounded: { count ≤ 3145728 },
}

impl Kept {
    ghost use Rattle.std.specs.Prelude.{◌↔◌, ℕ, ◌+◌, ◌&&◌, ◌||◌, true, false, Contains, IfOk, IfSome, IsTrue};
    ghost use Rattle.fact_table.specs.Entries.{with_entry};
    ghost use Rattle.hands.specs.Numbers.{has_number};
    ghost use Rattle.tails.specs.TailSets.{has};
    ghost use Rattle.tails.specs.Tails.{AreTails, hand_at};
    ghost use Rattle.srs.specs.declared.placement.Placement.{Placement};
    ghost use Rattle.well.specs.CellBits.{cells_in_bits};
    ghost use Rattle.well.specs.LockLaws.{is_below};
    ghost use Rattle.well.specs.Well.{filled};
    ghost use Rattle.moves.specs.Place.{IsPlace};
    ghost use Rattle.place_sets.specs.LowPlaces.{holds, piece_of};
    ghost use Rattle.percent.specs.GoodTails.{is_good_tail};

    /// A store for this many positions, best a power of two, without answers. If there is not enough memory for them,
    /// it keeps none.
    pub fn new(alloc: Global, game: Game, tree: TailTree, room: usize) -> Kept
        requires { tree.hold ≡ game.hold }
        ensures game { result.game ≡ game }
        ensures tree { result.tree ≡ tree }
    {
        Kept {
            game,
            tree,
            flood: FloodRules::new(&game.rules),
            fits: FitMemory::new(alloc),
            lister: Lister::new(alloc),
            slots: FactTable::within_memory(alloc, room),
            count: 0,
        }
    }

    /// The hands of some tails.
    pub fn hands_of(&self, alloc: Global, tails: &TailSet) -> Result<Vec<u64>, NoMemory>
        requires { AreTails self.now.tree (has tails.now) }
        ensures all { IfOk result (λ hands. (tail : ℕ) → has tails.now tail ≡ true
            → has_number hands.items (hand_at self.now.tree tail) ≡ true) }
        ensures only { IfOk result (λ hands. (hand : ℕ) → has_number hands.items hand ≡ true
            → (tail : ℕ) × (has tails.now tail ≡ true) × (hand_at self.now.tree tail ≡ hand)) }
    {
        let numbers = tails.numbers(alloc)?;
        self.tree.hands(alloc, numbers.as_slice())
    }

    /// The places of a piece at a position that lie below the rows left. Counts one flood.
    pub fn places_below<L: Ledger>(
        &self,
        position: &Position,
        piece: Piece,
        steps: &mut Steps<L>,
    ) -> LowPlaces
        ensures piece { piece_of result ≡ piece }
        ensures held { (q : Placement) → (IsTrue (holds result q)) ↔ ((q.piece ≡ piece)
            × IsPlace (flood_table self.now.flood) (filled position.now.well) self.now.game.drop_mode q
            × IsTrue (is_below position.now.rows q)) }
        ensures counted { steps.new ≡ steps.old + 1 }
    {
        let drop_mode = self.game.drop_mode;
        self.flood
            .places_below(&position.well, piece, drop_mode, position.rows, steps)
    }

    /// The tails that are known to be good at a position, and those that are known not to be, if it has an entry.
    fn known(&self, position: &Position, left: u8) -> Option<(&TailSet, &TailSet)>
        ensures found { IfSome result (λ known. (tail : ℕ) → has known.0.now tail ≡ true
            → is_good_tail self.now.tree self.now.game (filled position.now.well) position.now.rows left tail ≡ true) }
        ensures missed { IfSome result (λ known. (tail : ℕ) → has known.1.now tail ≡ true
            → is_good_tail self.now.tree self.now.game (filled position.now.well) position.now.rows left tail ≡ false) }
    {
        let cells = cells_below(&position.well, position.rows);
        if let Some(slot) = self.slots.entry(hash_of(cells, left)) {
            if slot.cells == cells && slot.rows == position.rows && slot.left == left {
                return Some((&slot.found, &slot.missed));
            }
        }
        None
    }

    /// Those of the tails that are known to be good at a position, and those about which nothing is known. `None` if
    /// nothing is known of the position. No clause says that what was kept is found again.
    pub fn recalled(
        &self,
        alloc: Global,
        position: &Position,
        left: u8,
        tails: &TailSet,
    ) -> Result<Option<(TailSet, TailSet)>, NoMemory>
        ensures fewer { IfOk result (λ recalled. IfSome recalled (λ v. (tail : ℕ) → has v.1 tail ≡ true
            → has tails.now tail ≡ true)) }
        ensures good { IfOk result (λ recalled. IfSome recalled (λ v. (tail : ℕ) → (has v.0 tail || (has v.1 tail
            && is_good_tail self.now.tree self.now.game (filled position.now.well) position.now.rows left tail))
            ≡ (has tails.now tail
            && is_good_tail self.now.tree self.now.game (filled position.now.well) position.now.rows left tail))) }
    {
        let Some((found, missed)) = self.known(position, left) else {
            return Ok(None);
        };
        let open = tails.without(alloc, missed)?;
        let unknown = open.without(alloc, found)?;
        let good = open.without(alloc, &unknown)?;
        Ok(Some((good, unknown)))
    }

    /// Puts an entry in the place of an earlier one. There must be room for its answers.
    fn replace(&mut self, hash: u64, slot: Slot)
        requires holds { IsTrueSlot self.old.tree self.old.game slot }
        requires room { self.old.count + blocks_of slot ≤ 3145728 }
        ensures game { self.new.game ≡ self.old.game }
        ensures tree { self.new.tree ≡ self.old.tree }
        ensures slots { self.new.slots ≡ with_entry self.old.slots hash slot }
    {
        if let Some(before) = self.slots.entry(hash) {
            self.count = self.count - before.block_count() + slot.block_count();
            self.slots.put(hash, slot);
        }
    }

    /// An entry for a position: what is known there, and tails that were found to be good or not.
    fn entry(
        &self,
        alloc: Global,
        position: &Position,
        left: u8,
        found: &TailSet,
        missed: &TailSet,
    ) -> Result<Slot, NoMemory>
        requires found_true { (tail : ℕ) → has found.now tail ≡ true
            → is_good_tail self.now.tree self.now.game (filled position.now.well) position.now.rows left tail ≡ true }
        requires missed_true { (tail : ℕ) → has missed.now tail ≡ true
            → is_good_tail self.now.tree self.now.game (filled position.now.well) position.now.rows left tail ≡ false }
        ensures holds { IfOk result (IsTrueSlot self.now.tree self.now.game) }
        ensures cells { IfOk result (λ slot. cells_in_bits slot.cells ≡ filled position.now.well) }
        ensures rows { IfOk result (λ slot. slot.rows ≡ position.now.rows) }
        ensures left { IfOk result (λ slot. slot.left ≡ left) }
        ensures found { IfOk result (λ slot. (tail : ℕ) → has found.now tail ≡ true
            → has slot.found tail ≡ true) }
        ensures missed { IfOk result (λ slot. (tail : ℕ) → has missed.now tail ≡ true
            → has slot.missed tail ≡ true) }
    {
        let (found, missed) = match self.known(position, left) {
            Some((found_before, missed_before)) => (
                found_before.merged(alloc, found)?,
                missed_before.merged(alloc, missed)?,
            ),
            None => (found.copied(alloc)?, missed.copied(alloc)?),
        };
        Ok(Slot {
            cells: cells_below(&position.well, position.rows),
            rows: position.rows,
            left,
            found,
            missed,
        })
    }

    /// Keeps an entry, and says whether it did: not if it alone has more answers than there is room for, or if there is
    /// no room at all. All others may be forgotten for it.
    fn note(&mut self, alloc: Global, slot: Slot) -> bool
        requires { IsTrueSlot self.old.tree self.old.game slot }
        ensures game { self.new.game ≡ self.old.game }
        ensures tree { self.new.tree ≡ self.old.tree }
        ensures bounded { blocks_in self.new.slots ≤ 3145728 }
        ensures room { IsTrue result ↔ (blocks_of slot ≤ 3145728) × (0 < length self.old.slots) }
        ensures kept { IsTrue result → Contains self.new.slots slot }
    {
        let count = slot.block_count();
        if count > MOST || self.slots.is_without_room() {
            return false;
        }
        if self.count > MOST - count {
            self.slots.forget(alloc);
            self.count = 0;
        }
        self.replace(hash_of(slot.cells, slot.left), slot);
        true
    }

    /// Keeps tails that are good at a position and tails that are not, beside those already known, and says whether it
    /// did. Others may be forgotten for them. If there is no room or no memory for them, they are not kept.
    pub fn keep(
        &mut self,
        alloc: Global,
        position: &Position,
        left: u8,
        found: &TailSet,
        missed: &TailSet,
    ) -> bool
        requires found_true { (tail : ℕ) → has found.now tail ≡ true
            → is_good_tail self.old.tree self.old.game (filled position.now.well) position.now.rows left tail ≡ true }
        requires missed_true { (tail : ℕ) → has missed.now tail ≡ true
            → is_good_tail self.old.tree self.old.game (filled position.now.well) position.now.rows left tail ≡ false }
        ensures game { self.new.game ≡ self.old.game }
        ensures tree { self.new.tree ≡ self.old.tree }
        ensures kept { IsTrue result → Keeps self.new.slots (filled position.now.well) position.now.rows left
            found.now missed.now }
    {
        if found.block_count() + missed.block_count() > MOST {
            return false;
        }
        match self.entry(alloc, position, left, found, missed) {
            Ok(entry) => self.note(alloc, entry),
            Err(_) => false,
        }
    }
}
