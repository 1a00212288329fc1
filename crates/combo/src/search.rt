// The search for the first run of a given length.
ghost use Rattle.std.specs.Prelude.{◌≡◌, ◌+◌, ◌-◌, ◌≤◌, ◌<◌, IsTrue, IfSome, None};
ghost use Rattle.srs.specs.Rules.{table_of};
ghost use Rattle.reach.specs.FloodRules.{flood_table};
ghost use Rattle.well.specs.Free.{is_free};
ghost use Rattle.well.specs.Lock.{locked, rows_removed};
ghost use Rattle.well.specs.Well.{filled};
ghost use Rattle.hold_queue.specs.Hand.{pieces_at};
ghost use Rattle.combo.specs.First.{IsFirst, IsTakenRun, AreShorter, RunsOnIf};
ghost use Rattle.combo.specs.Searched.{HaveShorterRuns};
ghost use Rattle.combo.specs.Longest.{IsLongest};

use crate::bound::most;
use crate::run::{Run, with_first};
use crate::searched::SearchedPosition;
use crate::store::{hash_of, is_said};
use fact_table::FactTable;
use hold_queue::{Hand, Hold, Taken};
use moves::DropMode;
use queue_pattern::Queue;
use reach::{FloodRules, Steps};
use srs::{Piece, Placement, Rules};
use std::alloc::Global;
use std::sync::ledger::Ledger;
use well::Well;

/// How many positions are kept.
const ROOM: usize = 2048;

/// The rules of play.
#[derive(Clone, Copy)]
struct Play {
    rules: FloodRules,
    drop_mode: DropMode,
    hold: Hold,
}

/// The first of the runs of `count` placements that the pieces at hand permit. `None` exactly if there is none. It uses
/// what is known, and keeps which fields have no such run.
#[cycle(runs)]
fn first_run<L: Ledger>(
    play: &Play,
    queue: &Queue,
    well: &Well,
    hand: Hand,
    count: u8,
    store: &mut FactTable<Option<SearchedPosition>>,
    steps: &mut Steps<L>,
) -> Option<Run>
    requires known { HaveShorterRuns (flood_table play.now.rules) play.now.drop_mode play.now.hold
        queue.now.items store.old }
    ensures first { IfSome result (λ run. IsFirst (IsTakenRun (flood_table play.now.rules) play.now.drop_mode
        (filled well.now) play.now.hold (pieces_at queue.now.items hand)) count run.items) }
    ensures none { result ≡ None → AreShorter (IsTakenRun (flood_table play.now.rules) play.now.drop_mode
        (filled well.now) play.now.hold (pieces_at queue.now.items hand)) count }
    ensures few { IfSome result (λ _. count ≤ 23) }
    ensures known { HaveShorterRuns (flood_table play.now.rules) play.now.drop_mode play.now.hold
        queue.now.items store.new }
    ensures counted { steps.old ≤ steps.new }
{
    if count == 0 {
        return Some(Run::new());
    }
    if most(queue, well, hand) < count {
        return None;
    }
    let hash = hash_of(well, hand);
    if let Some(entry) = store.entry(hash) {
        if is_said(entry, well, hand, count) {
            return None;
        }
    }
    let found = first_of_takes(play, queue, well, hand, count, store, steps);
    if found.is_none() {
        store.put(hash, Some(SearchedPosition::new(well, hand, count)));
    }
    found
}

/// The first of the runs of `count` placements that begin with a piece at hand.
#[cycle(runs)]
fn first_of_takes<L: Ledger>(
    play: &Play,
    queue: &Queue,
    well: &Well,
    hand: Hand,
    count: u8,
    store: &mut FactTable<Option<SearchedPosition>>,
    steps: &mut Steps<L>,
) -> Option<Run>
    requires placements { 0 < count }
    requires few { count ≤ 23 }
    requires known { HaveShorterRuns (flood_table play.now.rules) play.now.drop_mode play.now.hold
        queue.now.items store.old }
    ensures first { IfSome result (λ run. IsFirst (IsTakenRun (flood_table play.now.rules) play.now.drop_mode
        (filled well.now) play.now.hold (pieces_at queue.now.items hand)) count run.items) }
    ensures none { result ≡ None → AreShorter (IsTakenRun (flood_table play.now.rules) play.now.drop_mode
        (filled well.now) play.now.hold (pieces_at queue.now.items hand)) count }
    ensures known { HaveShorterRuns (flood_table play.now.rules) play.now.drop_mode play.now.hold
        queue.now.items store.new }
    ensures counted { steps.old ≤ steps.new }
{
    let (one, other) = hand.takes(queue, play.hold);
    if let Some(run) = first_after(play, queue, well, one, count, store, steps) {
        return Some(run);
    }
    first_after(play, queue, well, other, count, store, steps)
}

/// The first of the runs of `count` placements that begin with a taken piece, if there is one.
#[cycle(runs)]
fn first_after<L: Ledger>(
    play: &Play,
    queue: &Queue,
    well: &Well,
    taken: Option<Taken>,
    count: u8,
    store: &mut FactTable<Option<SearchedPosition>>,
    steps: &mut Steps<L>,
) -> Option<Run>
    requires placements { 0 < count }
    requires few { count ≤ 23 }
    requires known { HaveShorterRuns (flood_table play.now.rules) play.now.drop_mode play.now.hold
        queue.now.items store.old }
    ensures first { IfSome result (λ run. IsFirst (RunsOnIf (flood_table play.now.rules) play.now.drop_mode
        play.now.hold (filled well.now) queue.now.items taken) count run.items) }
    ensures none { result ≡ None → AreShorter (RunsOnIf (flood_table play.now.rules) play.now.drop_mode
        play.now.hold (filled well.now) queue.now.items taken) count }
    ensures known { HaveShorterRuns (flood_table play.now.rules) play.now.drop_mode play.now.hold
        queue.now.items store.new }
    ensures counted { steps.old ≤ steps.new }
{
    let taken = taken?;
    let places = play.rules.places(well, taken.piece, play.drop_mode, steps);
    let mut entered = None;
    while let Some(placement) = places.next_after(entered.as_ref()) {
        if let Some(next) = cleared(well, &placement) {
            if let Some(rest) = first_run(play, queue, &next, taken.rest, count - 1, store, steps) {
                return Some(with_first(placement, &rest));
            }
        }
        entered = Some(placement);
    }
    None
}

/// What a placement leaves, if it removes a row.
fn cleared(well: &Well, placement: &Placement) -> Option<Well>
    requires { IsTrue (is_free (filled well.now) placement.now) }
    ensures removes { IfSome result (λ _. 1 ≤ rows_removed (filled well.now) placement.now) }
    ensures left { IfSome result (λ next. filled next ≡ locked (filled well.now) placement.now) }
    ensures none { result ≡ None → rows_removed (filled well.now) placement.now ≡ 0 }
{
    let (next, removed) = well.lock(placement);
    if removed == 0 {
        return None;
    }
    Some(next)
}

/// The longest run that the queue and the held piece permit, in which each placement removes a row. Ties go to the
/// first in order. Counts each flood. If there is not enough memory, fields that were searched are searched again.
pub fn longest<L: Ledger>(
    alloc: Global,
    well: &Well,
    rules: &Rules,
    drop_mode: DropMode,
    queue: &Queue,
    hold: Hold,
    held: Option<Piece>,
    steps: &mut Steps<L>,
) -> Run
    ensures longest { IsLongest (table_of rules.now) drop_mode (filled well.now) hold queue.now.items held
        result.items }
    ensures counted { steps.old ≤ steps.new }
{
    let play = Play {
        rules: FloodRules::new(rules),
        drop_mode,
        hold,
    };
    let hand = Hand::start(hold, held);
    let mut store = FactTable::within_memory(alloc, ROOM);
    let mut longest = Run::new();
    let mut count = 1;
    while let Some(run) = first_run(&play, queue, well, hand, count, &mut store, steps) {
        longest = run;
        count += 1;
    }
    longest
}
