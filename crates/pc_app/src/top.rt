// The top call: from the words to what is written.
ghost use Rattle.std.specs.Prelude.{◌≡◌, ◌≢◌, ◌≤◌, true, Err};
ghost use Rattle.kick_file.specs.declared.fault.KickFault.{KickFault};
ghost use Rattle.pc_outside.specs.Counts.{Rose};
ghost use Rattle.pc_outside.specs.Writes.{Grows, GrowsByFront};
ghost use Rattle.pc_faults.specs.declared.fault.Fault.{Fault};
ghost use Rattle.pc_faults.specs.declared.status.Status.{Status};
ghost use Rattle.pc_faults.specs.declared.words_fault.WordsFault.{WordsFault};
ghost use Rattle.pc_faults.specs.FaultLine.{fault_line};
ghost use Rattle.pc_source.specs.Sink.{sink_change};
ghost use Rattle.pc_source.specs.Source.{LeavesSource};
ghost use Rattle.pc_source.specs.Task.{reads_source};
ghost use Rattle.pc_words.specs.Words.{asked_in, request_in, texts};
ghost use Rattle.pc_app.specs.Ran.{HasRun};
ghost use Rattle.pc_app.specs.Run.{RunEnds, source_change};
ghost use Rattle.pc_app.specs.Tasks.{task_of};

use crate::perform::{perform, reads_source};
use pc_faults::{Status, write_fault};
use pc_outside::{Failed, Sink, Source};
use pc_source::source_bytes;
use pc_words::read_words;
use reach::Steps;
use std::alloc::Global;
use std::sync::ledger::Ledger;

/// The status of a run, before its fault is reported.
fn answer<S: Source, O: Sink, L: Ledger>(
    alloc: Global,
    words: &[String],
    source: &mut S,
    out: &mut O,
    steps: &mut Steps<L>,
) -> Status
    ensures ran { HasRun (texts words.now) (S.left source.old)
        (sink_change O.counts_failures_alone (O.written out.old) (O.written out.new)
        (O.faults out.old) (O.faults out.new)) (out.new ≡ out.old) steps.old steps.new result }
    ensures words_fault { (fault : WordsFault) → result ≡ Status.Input (Fault.Words fault)
        → request_in (texts words.now) ≡ Err fault }
    ensures kicks_fault { (fault : KickFault) → result ≡ Status.Input (Fault.Kicks fault)
        → asked_in (request_in (texts words.now)) ≡ Err (Fault.Kicks fault) }
    ensures source { LeavesSource (reads_source (task_of (texts words.now)))
        (S.left source.old) (S.left source.new) (source.new ≡ source.old) result }
    ensures source_rose { result ≡ Status.SourceFault → Rose (S.faults source.old) (S.faults source.new) }
    ensures source_kept { S.counts_failures_alone ≡ true → result ≢ Status.SourceFault
        → S.faults source.new ≡ S.faults source.old }
    ensures rose { steps.old ≤ steps.new }
    ensures input_idle { (fault : Fault) → result ≡ Status.Input fault → steps.new ≡ steps.old }
    ensures unread_idle { result ≡ Status.SourceFault → steps.new ≡ steps.old }
{
    let settings = match read_words(words) {
        Ok(settings) => settings,
        Err(fault) => return Status::Input(fault),
    };
    match source_bytes(alloc, source, reads_source(&settings)) {
        Ok(bytes) => perform(alloc, &settings, &bytes, out, steps),
        Err(status) => status,
    }
}

/// Writes the line of the fault that a run ends by, if it ends by one.
fn tell_fault<E: Sink>(err: &mut E, status: Status) -> Result<(), Failed>
    ensures whole_line { (fault : Fault) → status ≡ Status.Input fault
        → (Rose (E.faults err.old) (E.faults err.new) → ⊥)
        → Grows (E.written err.old) (E.written err.new) (fault_line fault) }
    ensures fault_line { (fault : Fault) → status ≡ Status.Input fault
        → GrowsByFront (E.written err.old) (E.written err.new) (fault_line fault) }
    ensures no_line { ((fault : Fault) → status ≢ Status.Input fault) → err.new ≡ err.old }
{
    match status {
        Status::Input(fault) => write_fault(err, fault),
        _ => Ok(()),
    }
}

/// Runs the command that the words name. The words do not include the program's name. Answers go to `out`; the line of
/// a fault goes to `err`.
pub fn run<S: Source, O: Sink, E: Sink, L: Ledger>(
    alloc: Global,
    words: &[String],
    source: &mut S,
    out: &mut O,
    err: &mut E,
    steps: &mut Steps<L>,
) -> Status
    ensures { RunEnds (texts words.now)
        (source_change S.counts_failures_alone (S.left source.old) (S.left source.new)
        (S.faults source.old) (S.faults source.new)) (source.new ≡ source.old)
        (sink_change O.counts_failures_alone (O.written out.old) (O.written out.new)
        (O.faults out.old) (O.faults out.new)) (out.new ≡ out.old)
        (sink_change E.counts_failures_alone (E.written err.old) (E.written err.new)
        (E.faults err.old) (E.faults err.new)) (err.new ≡ err.old) steps.old steps.new result }
{
    let status = answer(alloc, words, source, out, steps);
    // The status stays the same, whether or not the line could be written.
    let _ = tell_fault(err, status);
    status
}
