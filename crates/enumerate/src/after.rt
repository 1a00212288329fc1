// What placements leave at a state, and the state after one.
ghost use Rattle.std.specs.Prelude.{◌≡◌, ◌↔◌, ◌+◌, ◌-◌, ◌<◌, ◌≤◌, IsTrue, true, false, [], min};
ghost use Rattle.lane_board.specs.Field.{difference, rows_below};
ghost use Rattle.srs.specs.declared.piece.Piece.{Piece};
ghost use Rattle.srs.specs.declared.placement.Placement.{Placement};
ghost use Rattle.srs.specs.Kick.{Table};
ghost use Rattle.well.specs.Well.{filled};
ghost use Rattle.well.specs.Lock.{locked, rows_removed};
ghost use Rattle.well.specs.LockLaws.{is_below};
ghost use Rattle.moves.specs.declared.key.DropMode.{DropMode};
ghost use Rattle.moves.specs.Place.{IsPlace};
ghost use Rattle.place_sets.specs.LowPlaces.{holds, piece_of};
ghost use Rattle.reach.specs.FloodRules.{flood_table};
ghost use Rattle.hold_queue.specs.QueueSet.{queues_in_play};
ghost use Rattle.prune.specs.OnePart.{less_one};
ghost use Rattle.empty_cells.specs.Empties.{empty_cells};
ghost use Rattle.empty_cells.specs.HasTiling.{has_tiling};
ghost use Rattle.empty_cells.specs.SupplyWords.{supply_of};
ghost use Rattle.enumerate.specs.SearchState.{after_of, is_live, may_play};
ghost use Rattle.enumerate.specs.Setups.{IsSupplyAfter, LeadsOn, state_of};
ghost use Rattle.enumerate.specs.Standing.{may_lock};
ghost use Rattle.enumerate.specs.Tries.{Enters, EntersAs};
ghost use Rattle.enumerate.specs.declared.frame.Frame.{Frame};

use crate::setup::{NextSupply, Setup};
use crate::tilings::{Found, Tilings};
use crate::trying::Tried;
use empty_cells::{Empties, SupplyWord};
use hold_queue::QueueMemory;
use moves::DropMode;
use reach::{FloodRules, LowPlaces, Steps};
use srs::{Piece, Placement};
use std::sync::ledger::Ledger;
use well::Well;

/// A state without a tiling is kept if at least this many placements are to come.
pub const MANY: u8 = 8;

impl Setup {
    /// Whether the empty cells of the rows that are left have a tiling by what may still be played.
    pub fn is_live(&self, tilings: &mut Tilings) -> bool
        ensures { (table : Table) (mode : DropMode)
            → result ≡ is_live self.now.left (state_of table mode self.now) }
    {
        tilings.has_tiling(&self.well, self.rows, &self.supply.entries())
    }

    /// The supply without a piece of this kind, with at most as many pieces of each kind as placements come then.
    #[inline(always)]
    fn without_one(&self, piece: Piece) -> SupplyWord
        ensures { (other : Piece)
            → supply_of result other ≡ min self.now.left (less_one (supply_of self.now.supply) piece other) }
    {
        if self.left < self.supply.count_of(piece) {
            return self.limited;
        }
        self.limited.without_one(piece)
    }

    /// What may still be played after a piece of this kind.
    #[inline(always)]
    pub fn supply_after(&self, piece: Piece) -> NextSupply
        ensures { IsSupplyAfter self.now piece result }
    {
        let supply = self.without_one(piece);
        if self.most < self.left {
            return NextSupply {
                supply,
                limited: supply,
            };
        }
        NextSupply {
            supply,
            limited: supply.at_most(self.left.saturating_sub(1)),
        }
    }

    /// The places of a kind whose cells all lie below the rows that are left. Counts one flood.
    #[inline(always)]
    pub fn places_of<L: Ledger>(
        &self,
        piece: Piece,
        rules: &FloodRules,
        drop_mode: DropMode,
        steps: &mut Steps<L>,
    ) -> LowPlaces
        ensures piece { piece_of result ≡ piece }
        ensures held { (q : Placement) → (IsTrue (holds result q)) ↔ ((q.piece ≡ piece)
            × IsPlace (flood_table rules.now) (filled self.now.well) drop_mode q
            × IsTrue (is_below self.now.rows q)) }
        ensures counted { steps.new ≡ steps.old + 1 }
    {
        rules.places_below(&self.well, piece, drop_mode, self.rows, steps)
    }

    /// Whether all places of a kind are asked about at once: not where none or many placements are to come.
    #[inline(always)]
    pub fn asks_at_once(&self) -> bool
        ensures { IsTrue result ↔ (0 < self.now.left × self.now.left < 8) }
    {
        0 < self.left && self.left < MANY
    }

    /// Looks for answers about what the placements of a piece leave, where all its places are asked about at once.
    #[inline(always)]
    pub fn find(&self, piece: Piece, next_supply: &NextSupply, tilings: &Tilings) -> Found {
        if !self.asks_at_once() {
            return Found::nothing();
        }
        tilings.find(&self.empties, next_supply.supply, piece)
    }

    /// Whether what a placement leaves has a tiling by this many pieces of each kind.
    fn leaves_tiling(
        &self,
        placement: &Placement,
        supply: SupplyWord,
        tilings: &mut Tilings,
    ) -> bool
        requires lockable { IsTrue (may_lock (filled self.now.well) placement.now.piece placement.now) }
        requires below { IsTrue (is_below self.now.rows placement.now) }
        ensures { result ≡ has_tiling (locked (filled self.now.well) placement.now)
            (self.now.rows - rows_removed (filled self.now.well) placement.now) (supply_of supply) }
    {
        if self.left < MANY {
            return tilings.leaves_tiling(&self.empties, placement, supply);
        }
        let (well, removed) = self.well.lock(placement);
        tilings.has_tiling(&well, self.rows.saturating_sub(removed), &supply.entries())
    }

    /// The empty cells of the rows that are left after a placement. If it removes no row, only its own cells go.
    fn empties_after(&self, placement: &Placement, well: &Well, rows: u8, removed: u8) -> Empties
        requires lockable { IsTrue (may_lock (filled self.now.well) placement.now.piece placement.now) }
        requires field { filled well.now ≡ locked (filled self.now.well) placement.now }
        requires removed { removed ≡ rows_removed (filled self.now.well) placement.now }
        requires rows { rows ≡ self.now.rows - removed }
        ensures { empty_cells result ≡ difference (rows_below rows) (filled well.now) }
    {
        if removed == 0 {
            return self.empties.without(placement);
        }
        Empties::below(well, rows)
    }

    /// Enters a placement that must be the last one.
    pub fn complete(&self, placement: &Placement) -> Tried
        requires lockable { IsTrue (may_lock (filled self.now.well) placement.now.piece placement.now) }
        requires below { IsTrue (is_below self.now.rows placement.now) }
        requires last { self.now.left ≡ 0 }
        ensures { (child : Frame) → Enters self.now placement.now child result }
    {
        let (_, removed) = self.well.lock(placement);
        if self.rows.saturating_sub(removed) == 0 {
            return Tried::Full;
        }
        Tried::Passed
    }

    /// Whether there is something to do at a placement: none is to come after it, or what it leaves has a tiling by the
    /// pieces that may still be played.
    pub fn is_worth(
        &self,
        placement: &Placement,
        next_supply: &NextSupply,
        tilings: &mut Tilings,
    ) -> bool
        requires lockable { IsTrue (may_lock (filled self.now.well) placement.now.piece placement.now) }
        requires below { IsTrue (is_below self.now.rows placement.now) }
        requires supplied { IsSupplyAfter self.now placement.now.piece next_supply.now }
        ensures dead { result ≡ false → EntersAs self.now placement.now (λ table mode prefix. []) }
        ensures live { result ≡ true → LeadsOn self.now placement.now }
    {
        if self.left == 0 {
            return true;
        }
        self.leaves_tiling(placement, next_supply.supply, tilings)
    }

    /// Makes `child` the state after a placement.
    pub fn lead_to(
        &self,
        placement: &Placement,
        next_supply: &NextSupply,
        memory: &mut QueueMemory,
        child: &mut Setup,
    )
        requires lockable { IsTrue (may_lock (filled self.now.well) placement.now.piece placement.now) }
        requires below { IsTrue (is_below self.now.rows placement.now) }
        requires supplied { IsSupplyAfter self.now placement.now.piece next_supply.now }
        requires permitted { IsTrue (may_play (queues_in_play self.now.line.queues) placement.now.piece) }
        requires some { 1 ≤ self.now.left }
        ensures left { child.new.left + 1 ≡ self.now.left }
        ensures state { (table : Table) (mode : DropMode)
            → state_of table mode child.new ≡ after_of (state_of table mode self.now) placement.now }
    {
        child.well = self.well;
        child.well.fill(placement);
        child.line.follow(&self.line, placement.piece, memory);
        // (reading eight rows at once waits for single rows that were just written, so other work comes in between)
        let removed = child.well.remove_full_rows();
        let rows = self.rows.saturating_sub(removed);
        child.rows = rows;
        child.empties = self.empties_after(placement, &child.well, rows, removed);
        child.supply = next_supply.supply;
        child.limited = next_supply.limited;
        child.most = self.most;
        child.left = self.left - 1;
    }
}
