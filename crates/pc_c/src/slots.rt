// Runs over slices. The type of a sink says which slice it fills, so this remains known whatever a run does with it.
ghost use Rattle.std.specs.Prelude.{◌≡◌, ◌≢◌, ◌<◌, ◌≤◌, ◌+◌, ◌-◌, ℕ, [], List, length, take, drop, true, Some};
ghost use Rattle.pc_outside.specs.Counts.{Rose};
ghost use Rattle.pc_outside.specs.SliceSink.{held_bytes};
ghost use Rattle.pc_outside.specs.SliceSinkView.{sink_view};
ghost use Rattle.pc_outside.specs.Writes.{Grows, GrowsByFront};
ghost use Rattle.pc_faults.specs.declared.fault.Fault.{Fault};
ghost use Rattle.pc_faults.specs.declared.status.Status.{Status};
ghost use Rattle.pc_faults.specs.FaultLine.{fault_line};
ghost use Rattle.pc_words.specs.Words.{texts};
ghost use Rattle.pc_app.specs.Tasks.{task_of};
ghost use Rattle.pc_c.specs.Call.{ForFloods, seen};
ghost use Rattle.pc_c.specs.Ended.{IsFresh, LeavesErr, LeavesOut};

use pc_app::{Status, run};
use pc_faults::{Fault, write_fault};
use pc_outside::{Failed, Sink, SliceSink, SliceSource};
use reach::Steps;
use std::alloc::Global;
use std::marker::{Brand, PhantomData};
use std::mem;
use std::sync::ledger::{Blank, Ledger};

/// Which slice a sink fills, and what the slice held before. Only proofs see it.
pub(crate) trait Slot {
    // The name of the slice's borrow.
    ghost name: { ℕ };

    // The bytes of the slice before the call.
    ghost before: { List ℕ };
}

impl Slot for Brand {
    ghost name = { 0 };

    ghost before = { [] };
}

/// A sink over the slice of its slot. The bytes behind those that were written are unchanged.
#[derive(Drop)]
pub(crate) struct SlotSink<'a, P: Slot> {
    sink: SliceSink<'a>,
    slot: PhantomData<P>,
    ghost same: { (sink_view sink).slice ≡ P.name },
    ghost beyond: { (sink_view sink).rest ≡ drop (length (sink_view sink).bytes) P.before },
    ghost size: { length (sink_view sink).bytes + length (sink_view sink).rest ≡ length P.before },
}

impl<P: Slot> Sink for SlotSink<'_, P> {
    ghost written = { λ s. Some (held_bytes (sink_view s.sink)) };

    ghost faults = { λ s. (sink_view s.sink).faults };

    ghost counts_failures_alone = { true };

    fn write(&mut self, bytes: &[u8]) -> Result<(), Failed> {
        self.sink.write(bytes)
    }
}

/// Runs the words over the input, into a sink that has written nothing to its slice yet.
fn run_out<L: Ledger, E: Sink, P: Slot>(
    alloc: Global,
    words: &[String],
    input: &[u8],
    out: &mut SliceSink<'_>,
    err: &mut E,
    steps: &mut Steps<L>,
) -> Status
    requires fresh { IsFresh (sink_view out.old) P.name P.before }
    ensures slice { (sink_view out.new).slice ≡ (sink_view out.old).slice }
    ensures rest { (sink_view out.new).rest ≡ drop (length (sink_view out.new).bytes) (sink_view out.old).rest }
    ensures out { let task = task_of (texts words.now) in
        LeavesOut task (seen task input.now) (sink_view out.new).bytes (length (sink_view out.old).rest)
        (steps.new - steps.old) result }
    ensures fault_line { (fault : Fault) → result ≡ Status.Input fault
        → GrowsByFront (E.written err.old) (E.written err.new) (fault_line fault) }
    ensures whole_line { (fault : Fault) → result ≡ Status.Input fault
        → (Rose (E.faults err.old) (E.faults err.new) → ⊥)
        → Grows (E.written err.old) (E.written err.new) (fault_line fault) }
    ensures no_line { ((fault : Fault) → result ≢ Status.Input fault) → err.new ≡ err.old }
{
    let mut source = SliceSource::new(input);
    let taken = mem::replace(out, SliceSink::new(&mut []));
    let mut slot: SlotSink<'_, P> = SlotSink {
        sink: taken,
        slot: PhantomData,
    };
    let status = run(alloc, words, &mut source, &mut slot, err, steps);
    let SlotSink { sink, slot: _ } = slot;
    *out = sink;
    status
}

/// How a run ended, and how many floods it made, or the greatest value of a u64 if there were more.
#[derive(Drop)]
pub(crate) struct Ran {
    pub(crate) status: Status,
    pub(crate) floods: u64,
}

/// Runs the words over the input, into sinks that have written nothing to their slices yet.
pub(crate) fn run_into<L: Ledger, P: Slot, Q: Slot>(
    alloc: Global,
    blank: Blank,
    words: &[String],
    input: &[u8],
    out: &mut SliceSink<'_>,
    err: &mut SliceSink<'_>,
) -> Ran
    requires name { blank.name ≡ L.name }
    requires parts { blank.parts ≡ L.parts }
    requires some { 0 < blank.parts }
    requires out { IsFresh (sink_view out.old) P.name P.before }
    requires err { IsFresh (sink_view err.old) Q.name Q.before }
    ensures out_slice { (sink_view out.new).slice ≡ (sink_view out.old).slice }
    ensures out_rest { (sink_view out.new).rest
        ≡ drop (length (sink_view out.new).bytes) (sink_view out.old).rest }
    ensures err_slice { (sink_view err.new).slice ≡ (sink_view err.old).slice }
    ensures err_rest { (sink_view err.new).rest
        ≡ drop (length (sink_view err.new).bytes) (sink_view err.old).rest }
    ensures out { let task = task_of (texts words.now) in
        ForFloods result.floods (λ floods. LeavesOut task (seen task input.now) (sink_view out.new).bytes
        (length (sink_view out.old).rest) floods result.status) }
    ensures err { LeavesErr (sink_view err.new).bytes (length (sink_view err.old).rest) result.status }
{
    let taken = mem::replace(err, SliceSink::new(&mut []));
    let mut slot: SlotSink<'_, Q> = SlotSink {
        sink: taken,
        slot: PhantomData,
    };
    let mut steps = Steps::<L>::new(blank);
    let status = run_out::<L, SlotSink<'_, Q>, P>(alloc, words, input, out, &mut slot, &mut steps);
    let SlotSink { sink, slot: _ } = slot;
    *err = sink;
    Ran {
        status,
        floods: steps.count(),
    }
}

/// Writes the line of a fault, as far as there is room, into a sink that has written nothing to its slice yet.
pub(crate) fn tell_fault<P: Slot>(err: &mut SliceSink<'_>, fault: Fault)
    requires { IsFresh (sink_view err.old) P.name P.before }
    ensures slice { (sink_view err.new).slice ≡ (sink_view err.old).slice }
    ensures rest { (sink_view err.new).rest ≡ drop (length (sink_view err.new).bytes) (sink_view err.old).rest }
    ensures line { (sink_view err.new).bytes ≡ take (length (sink_view err.old).rest) (fault_line fault) }
{
    let taken = mem::replace(err, SliceSink::new(&mut []));
    let mut slot: SlotSink<'_, P> = SlotSink {
        sink: taken,
        slot: PhantomData,
    };
    // What finds no room is left out.
    let _ = write_fault(&mut slot, fault);
    let SlotSink { sink, slot: _ } = slot;
    *err = sink;
}

/// Writes the line of a fault to the first bytes of `err`, as far as there is room, and tells how many these are.
pub(crate) fn write_line(fault: Fault, err: &mut [u8]) -> usize
    ensures within { result ≤ length err.new }
    ensures rest { drop result err.new ≡ drop result err.old }
    ensures line { take result err.new ≡ take (length err.old) (fault_line fault) }
{
    let mut sink = SliceSink::new(err);
    tell_fault::<Brand>(&mut sink, fault);
    sink.count()
}
