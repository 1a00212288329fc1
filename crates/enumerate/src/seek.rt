// Moving frames to a given sequence, so that the search goes on with what comes after it.
ghost use Rattle.std.specs.Prelude.{◌≡◌, ◌↔◌, suc, ◌+◌, ◌-◌, ◌<◌, ◌≤◌, true, IsTrue, Some, Contains, [], length, take, slice_index_or};
ghost use Rattle.std.specs.Option.{ForSome};
ghost use Rattle.reach.specs.FloodRules.{flood_table};
ghost use Rattle.place_sets.specs.LowPlaces.{piece_of};
ghost use Rattle.enumerate.specs.Counted.{CountsUp};
ghost use Rattle.enumerate.specs.Events.{sought};
ghost use Rattle.enumerate.specs.Frames.{has_room, places_left, stacked};
ghost use Rattle.enumerate.specs.declared.frame.Frame.{Frame};
ghost use Rattle.enumerate.specs.Setups.{state_of};
ghost use Rattle.enumerate.specs.Seeks.{IsFresh, IsSought, Skips, SkipsTo};

use crate::frame::Frame;
use crate::notes::Notes;
use crate::trying::Tried;
use moves::DropMode;
use reach::{FloodRules, Steps};
use srs::{Placement, compare};
use std::cmp::Ordering;
use std::sync::ledger::Ledger;

impl Frame {
    /// The same frame with this placement as the one that was entered last.
    fn with_entered(&self, placement: Placement) -> Frame
        requires { ForSome self.now.places (λ p. placement.piece ≡ piece_of p) }
        ensures places { result.places ≡ self.now.places }
        ensures entered { result.entered ≡ Some placement }
    {
        let mut frame = *self;
        frame.entered = Some(placement);
        frame
    }

    /// Whether a placement is among those still to be entered.
    fn reaches(&self, target: &Placement) -> bool
        ensures { IsTrue result ↔ Contains (places_left self.now.places self.now.entered) target.now }
    {
        let mut probe = *self;
        while let Some(placement) = probe.take_upcoming() {
            match compare(&placement, target) {
                Ordering::Less => probe = probe.with_entered(placement),
                Ordering::Equal => return true,
                Ordering::Greater => return false,
            }
        }
        false
    }

    /// Passes everything that comes before a placement. True if the placement can be entered: then the first frame
    /// behind is the state after it.
    fn skip<L: Ledger>(
        &mut self,
        target: &Placement,
        rules: &FloodRules,
        drop_mode: DropMode,
        behind: &mut [Frame],
        notes: &mut Notes,
        steps: &mut Steps<L>,
    ) -> bool
        requires fresh { IsFresh (flood_table rules.now) drop_mode self.old }
        requires room { self.old.setup.left ≤ length behind.old }
        ensures skips { Skips (flood_table rules.now) drop_mode self.old self.new target.now
            (slice_index_or behind.new 0 self.new) result steps.old steps.new }
        ensures size { length behind.new ≡ length behind.old }
        ensures same { self.new.setup ≡ self.old.setup }
        ensures noted { CountsUp notes.old.floods notes.new.floods steps.old steps.new }
    {
        let piece = target.piece;
        self.tried = piece.code();
        self.places = None;
        self.entered = None;
        if !self.setup.line.queues.may_play(piece) {
            return false;
        }
        let supply = self.setup.supply_after(piece);
        self.flood(piece, supply, rules, drop_mode, &mut notes.floods, steps);
        let reached = self.reaches(target);
        self.entered = Some(*target);
        if !reached {
            return false;
        }
        if !self.setup.is_worth(target, &supply, &mut notes.tilings) {
            return false;
        }
        match self.enter(target, &mut notes.queues, behind) {
            Tried::Entered => true,
            _ => false,
        }
    }
}

/// Passes everything that comes before a placement, at the last of the frames in use. True if one more frame is in use
/// then, which is the state after the placement.
fn skip_at<L: Ledger>(
    frames: &mut [Frame; 20],
    top: usize,
    target: &Placement,
    rules: &FloodRules,
    drop_mode: DropMode,
    notes: &mut Notes,
    steps: &mut Steps<L>,
) -> bool
    requires within { top < 20 }
    requires room { IsTrue (has_room 0 (take (top + 1) frames.old)) }
    requires fresh { (d : Frame) → IsFresh (flood_table rules.now) drop_mode (slice_index_or frames.old top d) }
    ensures sought { IsSought (flood_table rules.now) drop_mode frames.old frames.new top target.now result
        steps.old steps.new }
    ensures noted { CountsUp notes.old.floods notes.new.floods steps.old steps.new }
{
    let (walked, behind) = frames.split_at_mut(top + 1);
    let frame = &mut walked[top];
    frame.skip(target, rules, drop_mode, behind, notes, steps)
}

/// Moves from a fresh first frame to a given sequence. Returns how many frames are in use then.
pub fn seek<L: Ledger>(
    frames: &mut [Frame; 20],
    given: &[Placement],
    rules: &FloodRules,
    drop_mode: DropMode,
    notes: &mut Notes,
    steps: &mut Steps<L>,
) -> usize
    requires room { IsTrue (has_room 0 (take (0 + 1) frames.old)) }
    requires fresh { (d : Frame) → IsFresh (flood_table rules.now) drop_mode (slice_index_or frames.old 0 d) }
    ensures within { result ≤ 20 }
    ensures room { IsTrue (has_room 0 (take result frames.new)) }
    ensures skips { (d : Frame) → SkipsTo
        (sought (suc (slice_index_or frames.old 0 d).setup.left) []
        (state_of (flood_table rules.now) drop_mode (slice_index_or frames.old 0 d).setup) given.now)
        (stacked (flood_table rules.now) drop_mode [] (take result frames.new)) steps.old steps.new }
    ensures noted { CountsUp notes.old.floods notes.new.floods steps.old steps.new }
{
    let mut top = 0;
    for target in given {
        if !skip_at(frames, top, target, rules, drop_mode, notes, steps) {
            return top + 1;
        }
        top += 1;
    }
    top + 1
}
