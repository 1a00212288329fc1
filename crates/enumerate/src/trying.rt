// One try of the search at a frame.
ghost use Rattle.std.specs.Prelude.{◌≡◌, ◌+◌, ◌-◌, ◌≤◌, IsTrue, true, false, IfSome, MatchOption, Some, None, List, [], ◌∷◌, drop, filter, length, slice_index_or};
ghost use Rattle.std.specs.Option.{ForSome};
ghost use Rattle.srs.specs.declared.piece.Piece.{Piece};
ghost use Rattle.srs.specs.declared.placement.Placement.{Placement};
ghost use Rattle.srs.specs.Piece.{all_pieces};
ghost use Rattle.srs.specs.Kick.{Table};
ghost use Rattle.well.specs.Well.{filled};
ghost use Rattle.moves.specs.declared.key.DropMode.{DropMode};
ghost use Rattle.reach.specs.FloodRules.{flood_table};
ghost use Rattle.place_sets.specs.LowPlaces.{piece_of};
ghost use Rattle.hold_queue.specs.QueueSet.{queues_in_play};
ghost use Rattle.well.specs.LockLaws.{is_below};
ghost use Rattle.enumerate.specs.SearchState.{may_play, places_at};
ghost use Rattle.enumerate.specs.Standing.{may_lock};
ghost use Rattle.enumerate.specs.Counted.{CountsUp};
ghost use Rattle.enumerate.specs.Frames.{events_of, places_left};
ghost use Rattle.enumerate.specs.Setups.{IsSupplyAfter, LeadsOn, state_of};
ghost use Rattle.enumerate.specs.Tries.{AreDead, AreLiveBut, Enters, EntersAs, GoesOn, Tries};
ghost use Rattle.enumerate.specs.declared.frame.Frame.{Frame};

use crate::frame::Frame;
use crate::left::take_above;
use crate::notes::Notes;
use crate::setup::NextSupply;
use crate::tilings::{Found, Tilings};
use hold_queue::QueueMemory;
use moves::DropMode;
use reach::{FloodRules, Steps};
use srs::{Piece, Placement};
use std::sync::ledger::Ledger;

/// What was tried at a frame, and what it came to.
#[derive(Clone, Copy)]
pub enum Tried {
    /// It passed a dead end.
    Passed,
    /// It flooded a kind.
    Flooded,
    /// It entered a placement. The first frame behind is the state after it.
    Entered,
    /// It entered a placement that completes a solution.
    Full,
    /// Nothing is left at the frame.
    Over,
}

/// The kind with this index, from 0 in the order of codes. `None` exactly if there is none.
fn kind_at(index: u8) -> Option<Piece>
    ensures { MatchOption result (drop index all_pieces ≡ []) (λ piece. drop index all_pieces
        ≡ piece ∷ drop (index + 1) all_pieces) }
{
    if index < 7 {
        Piece::from_code(index + 1)
    } else {
        None
    }
}

impl Frame {
    /// Removes the next placement to be entered and returns it.
    #[inline(always)]
    pub fn take_upcoming(&mut self) -> Option<Placement>
        ensures next { MatchOption result
            ((places_left self.old.places self.old.entered ≡ []) × (places_left self.new.places self.new.entered ≡ []))
            (λ q. (places_left self.old.places self.old.entered ≡ q ∷ places_left self.new.places (Some q))
            × ForSome self.new.places (λ p. q.piece ≡ piece_of p)
            × IsTrue (may_lock (filled self.old.setup.well) q.piece q)
            × IsTrue (is_below self.old.setup.rows q)
            × IsTrue (may_play (queues_in_play self.old.setup.line.queues) q.piece)
            × IsSupplyAfter self.old.setup q.piece self.new.next_supply
            × (IsTrue self.old.are_live → LeadsOn self.old.setup q)) }
        ensures same { self.new.setup ≡ self.old.setup }
        ensures tried { self.new.tried ≡ self.old.tried }
        ensures entered { self.new.entered ≡ self.old.entered }
        ensures live { self.new.are_live ≡ self.old.are_live }
    {
        let last = self.entered;
        match &mut self.places {
            None => None,
            Some(places) => take_above(places, &last),
        }
    }

    /// Whether there is something to do at a placement. No question is asked if each of the places is known to leave a
    /// tiling.
    #[inline(always)]
    fn leads_on(&self, placement: &Placement, tilings: &mut Tilings) -> bool
        requires lockable { IsTrue (may_lock (filled self.now.setup.well) placement.now.piece placement.now) }
        requires below { IsTrue (is_below self.now.setup.rows placement.now) }
        requires supplied { IsSupplyAfter self.now.setup placement.now.piece self.now.next_supply }
        requires known { IsTrue self.now.are_live → LeadsOn self.now.setup placement.now }
        ensures dead { result ≡ false → EntersAs self.now.setup placement.now (λ table mode prefix. []) }
        ensures live { result ≡ true → LeadsOn self.now.setup placement.now }
    {
        self.are_live || self.setup.is_worth(placement, &self.next_supply, tilings)
    }

    /// Makes `child` the frame after a placement that leaves a tiling.
    #[tactic(auto, using(crate::proofs::TryLemmas::enters_child, crate::proofs::TryLemmas::is_child))]
    fn lead_to(&self, placement: &Placement, memory: &mut QueueMemory, child: &mut Frame)
        requires lockable { IsTrue (may_lock (filled self.now.setup.well) placement.now.piece placement.now) }
        requires below { IsTrue (is_below self.now.setup.rows placement.now) }
        requires permitted { IsTrue (may_play (queues_in_play self.now.setup.line.queues) placement.now.piece) }
        requires supplied { IsSupplyAfter self.now.setup placement.now.piece self.now.next_supply }
        requires some { 1 ≤ self.now.setup.left }
        requires live { LeadsOn self.now.setup placement.now }
        ensures { Enters self.now.setup placement.now child.new Tried.Entered }
    {
        self.setup
            .lead_to(placement, &self.next_supply, memory, &mut child.setup);
        child.tried = 0;
        child.places = None;
        child.are_live = false;
        child.entered = None;
    }

    /// Enters a placement. The first frame behind becomes the state after it, if one more is to come.
    pub fn enter(
        &self,
        placement: &Placement,
        memory: &mut QueueMemory,
        behind: &mut [Frame],
    ) -> Tried
        requires lockable { IsTrue (may_lock (filled self.now.setup.well) placement.now.piece placement.now) }
        requires below { IsTrue (is_below self.now.setup.rows placement.now) }
        requires permitted { IsTrue (may_play (queues_in_play self.now.setup.line.queues) placement.now.piece) }
        requires supplied { IsSupplyAfter self.now.setup placement.now.piece self.now.next_supply }
        requires live { LeadsOn self.now.setup placement.now }
        requires room { self.now.setup.left ≤ length behind.old }
        ensures enters { Enters self.now.setup placement.now (slice_index_or behind.new 0 self.now) result }
        ensures size { length behind.new ≡ length behind.old }
    {
        if self.setup.left == 0 {
            return self.setup.complete(placement);
        }
        self.lead_to(placement, memory, &mut behind[0]);
        Tried::Entered
    }

    /// Takes out the next placement at which there is something to do, and notes it as the one that was entered last.
    fn take_worth(&mut self, tilings: &mut Tilings) -> Option<Placement>
        ensures next { MatchOption result (places_left self.new.places self.new.entered ≡ [])
            (λ q. (self.new.entered ≡ Some q)
            × IsTrue (may_lock (filled self.new.setup.well) q.piece q)
            × IsTrue (is_below self.new.setup.rows q)
            × IsTrue (may_play (queues_in_play self.new.setup.line.queues) q.piece)
            × IsSupplyAfter self.new.setup q.piece self.new.next_supply
            × LeadsOn self.new.setup q) }
        ensures goes { GoesOn self.old self.new result }
        ensures same { self.new.setup ≡ self.old.setup }
        ensures tried { self.new.tried ≡ self.old.tried }
    {
        while let Some(placement) = self.take_upcoming() {
            self.entered = Some(placement);
            if self.leads_on(&placement, tilings) {
                return Some(placement);
            }
        }
        None
    }

    /// Floods a kind that may be played.
    #[inline(always)]
    pub fn flood<L: Ledger>(
        &mut self,
        piece: Piece,
        next_supply: NextSupply,
        rules: &FloodRules,
        drop_mode: DropMode,
        floods: &mut u64,
        steps: &mut Steps<L>,
    )
        requires permitted { IsTrue (may_play (queues_in_play self.old.setup.line.queues) piece) }
        requires supplied { IsSupplyAfter self.old.setup piece next_supply }
        ensures places { places_left self.new.places self.new.entered ≡ filter (is_below self.old.setup.rows)
            (places_at (state_of (flood_table rules.now) drop_mode self.old.setup) piece) }
        ensures piece { ForSome self.new.places (λ p. piece_of p ≡ piece) }
        ensures same { self.new.setup ≡ self.old.setup }
        ensures tried { self.new.tried ≡ self.old.tried }
        ensures entered { self.new.entered ≡ None }
        ensures supply { self.new.next_supply ≡ next_supply }
        ensures counted { steps.new ≡ steps.old + 1 }
        ensures noted { CountsUp floods.old floods.new steps.old steps.new }
    {
        *floods = floods.saturating_add(1);
        self.entered = None;
        self.are_live = false;
        self.next_supply = next_supply;
        self.places = Some(self.setup.places_of(piece, rules, drop_mode, steps));
    }

    /// The pivots of placements of a piece that leave no tiling, at which there is nothing to do: two words for each
    /// rotation, four rows in each word, and sixteen bits for each row. The other places leave one. `None` if no places
    /// are asked about at once: where none or many placements are to come.
    #[inline(always)]
    fn dead_pivots(&self, piece: Piece, found: &Found, tilings: &mut Tilings) -> Option<[u64; 8]>
        requires { ForSome self.now.places (λ p. piece_of p ≡ piece) }
        ensures dead { IfSome result (λ dead. AreDead self.now.setup piece dead) }
        ensures live { IfSome result (λ dead. ForSome self.now.places (λ p. AreLiveBut self.now.setup p dead)) }
    {
        if !self.setup.asks_at_once() {
            return None;
        }
        match &self.places {
            None => None,
            Some(places) => Some(tilings.dead_pivots(
                &self.setup.empties,
                self.next_supply.supply,
                piece,
                found,
                places,
            )),
        }
    }

    /// Leaves out the places with these pivots, at which there is nothing to do. The others leave a tiling.
    #[inline(always)]
    fn leave_out(&mut self, dead: &[u64; 8])
        requires dead { ForSome self.old.places (λ p. AreDead self.old.setup (piece_of p) dead.now) }
        requires live { ForSome self.old.places (λ p. AreLiveBut self.old.setup p dead.now) }
        ensures goes { (table : Table) (mode : DropMode) (prefix : List Placement) →
            events_of table mode prefix self.new ≡ events_of table mode prefix self.old }
        ensures same { self.new.setup ≡ self.old.setup }
        ensures tried { self.new.tried ≡ self.old.tried }
    {
        if let Some(places) = &mut self.places {
            places.leave_out(dead);
            self.are_live = true;
        }
    }

    /// Leaves out the places of a piece that leave no tiling, if all are asked about at once.
    #[inline(always)]
    fn leave_out_dead(&mut self, piece: Piece, found: &Found, tilings: &mut Tilings)
        requires { ForSome self.old.places (λ p. piece_of p ≡ piece) }
        ensures goes { (table : Table) (mode : DropMode) (prefix : List Placement) →
            events_of table mode prefix self.new ≡ events_of table mode prefix self.old }
        ensures same { self.new.setup ≡ self.old.setup }
        ensures tried { self.new.tried ≡ self.old.tried }
    {
        if let Some(dead) = self.dead_pivots(piece, found, tilings) {
            self.leave_out(&dead);
        }
    }

    /// Passes by the kinds that may not come next, and returns the next one that may. `None` exactly if there is none.
    fn next_kind(&mut self) -> Option<Piece>
        requires { places_left self.old.places self.old.entered ≡ [] }
        ensures next { MatchOption result (drop self.new.tried all_pieces ≡ [])
            (λ piece. (drop self.new.tried all_pieces ≡ piece ∷ drop (self.new.tried + 1) all_pieces)
            × IsTrue (may_play (queues_in_play self.new.setup.line.queues) piece)) }
        ensures goes { (table : Table) (mode : DropMode) (prefix : List Placement) →
            events_of table mode prefix self.old ≡ events_of table mode prefix self.new }
        ensures none { places_left self.new.places self.new.entered ≡ [] }
        ensures same { self.new.setup ≡ self.old.setup }
    {
        while let Some(piece) = kind_at(self.tried) {
            if self.setup.line.may_come(piece) {
                return Some(piece);
            }
            self.tried += 1;
        }
        None
    }

    /// Tries the next kind that may come.
    fn try_kind<L: Ledger>(
        &mut self,
        rules: &FloodRules,
        drop_mode: DropMode,
        notes: &mut Notes,
        steps: &mut Steps<L>,
    ) -> Tried
        requires { places_left self.old.places self.old.entered ≡ [] }
        ensures tries { (child : Frame) →
            Tries (flood_table rules.now) drop_mode self.old self.new child result steps.old steps.new }
        ensures same { self.new.setup ≡ self.old.setup }
        ensures noted { CountsUp notes.old.floods notes.new.floods steps.old steps.new }
    {
        let piece = match self.next_kind() {
            None => return Tried::Over,
            Some(piece) => piece,
        };
        self.tried += 1;
        let next_supply = self.setup.supply_after(piece);
        let found = self.setup.find(piece, &next_supply, &notes.tilings);
        self.flood(
            piece,
            next_supply,
            rules,
            drop_mode,
            &mut notes.floods,
            steps,
        );
        self.leave_out_dead(piece, &found, &mut notes.tilings);
        Tried::Flooded
    }

    /// Enters the next placement that leaves a tiling, or tries the next kind if none is left.
    pub fn try_next<L: Ledger>(
        &mut self,
        rules: &FloodRules,
        drop_mode: DropMode,
        behind: &mut [Frame],
        notes: &mut Notes,
        steps: &mut Steps<L>,
    ) -> Tried
        requires { self.old.setup.left ≤ length behind.old }
        ensures tries { Tries (flood_table rules.now) drop_mode self.old self.new
            (slice_index_or behind.new 0 self.new) result steps.old steps.new }
        ensures size { length behind.new ≡ length behind.old }
        ensures same { self.new.setup ≡ self.old.setup }
        ensures noted { CountsUp notes.old.floods notes.new.floods steps.old steps.new }
    {
        match self.take_worth(&mut notes.tilings) {
            None => self.try_kind(rules, drop_mode, notes, steps),
            Some(placement) => self.enter(&placement, &mut notes.queues, behind),
        }
    }
}
