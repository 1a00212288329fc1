// The command `cover`: the problem, the sequences of the source, and then the queues that they cover.
ghost use Rattle.std.specs.Prelude.{◌≡◌, ◌-◌, ◌≤◌, length};
ghost use Rattle.pc_outside.specs.Counts.{HasCause};
ghost use Rattle.pc_outside.specs.Writes.{WritesAll};
ghost use Rattle.queue_pattern.specs.Pattern.{elements_of};
ghost use Rattle.queue_pattern.specs.Queues.{queues};
ghost use Rattle.cover.specs.Kept.{lists_of, kept_problem};
ghost use Rattle.pc_settings.specs.Request.{IsInRange};
ghost use Rattle.pc_settings.specs.Views.{field_view};
ghost use Rattle.pc_source.specs.Ends.{CommandEnds};
ghost use Rattle.pc_source.specs.Sink.{sink_change};
ghost use Rattle.pc_source.specs.Task.{most_bytes};
ghost use Rattle.pc_cover.specs.CoverTask.{cover_task};
ghost use Rattle.pc_cover.specs.Covering.{numbers_from};
ghost use Rattle.pc_cover.specs.LineStatus.{status_of_lines};
ghost use Rattle.pc_cover.specs.Lines.{cover_form};

use crate::covering::{covering, write_covered};
use crate::given::sequences_in;
use cover::CoverSet;
use pc_faults::{CoverFault, Fault, Status};
use pc_outside::{Failed, Refused, Sink};
use pc_settings::FieldSettings;
use pc_source::{Dash, problem_asked};
use problem::{Problem, needed};
use queue_lines::write_numbers;
use reach::Steps;
use std::alloc::Global;
use std::sync::ledger::Ledger;

/// Writes the covered queues, and then how many there are of all.
fn write_answers<O: Sink>(out: &mut O, problem: &Problem, set: &CoverSet) -> Result<(), Failed>
    requires { kept_problem set.now ≡ problem.now }
    ensures written { WritesAll (O.written out.old) (O.written out.new) result
        (cover_form (queues (elements_of problem.now.pattern)) (numbers_from problem.now (lists_of set.now) 0)) }
    ensures cause { HasCause O.counts_failures_alone (O.faults out.old) (O.faults out.new) result }
{
    let good = write_covered(out, problem, set)?;
    write_numbers(out, problem.pattern.count(), good)
}

/// How a run ends if the lines of the source are refused.
fn refused_by(refused: Refused<CoverFault>) -> Status
    ensures { result ≡ status_of_lines refused }
{
    match refused {
        Refused::Fault(fault) => Status::Input(Fault::Cover(fault)),
        Refused::NoMemory => Status::NoMemory,
    }
}

/// Writes which queues of the problem that the settings name are covered: they permit the kinds of a sequence that
/// clears the problem's field. The sequences are those that the bytes of the source spell. If memory runs out, nothing
/// was written, but floods may have been made.
pub fn run_cover<O: Sink, L: Ledger>(
    alloc: Global,
    settings: &FieldSettings<'_>,
    bytes: &[u8],
    out: &mut O,
    steps: &mut Steps<L>,
) -> Status
    requires range { IsInRange (field_view settings.now) }
    requires short { length bytes.now ≤ most_bytes }
    ensures { CommandEnds (cover_task (field_view settings.now)) bytes.now
        (sink_change O.counts_failures_alone (O.written out.old) (O.written out.new)
        (O.faults out.old) (O.faults out.new)) (out.new ≡ out.old) steps.old steps.new result }
{
    let problem = match problem_asked(alloc, settings, Dash::Itself) {
        Ok(problem) => problem,
        Err(refused) => return Status::from(refused),
    };
    let sequences = match sequences_in(alloc, needed(&problem), bytes) {
        Ok(sequences) => sequences,
        Err(refused) => return refused_by(refused),
    };
    let set = match covering(alloc, &problem, sequences.as_slice(), steps) {
        Ok(set) => set,
        Err(_) => return Status::NoMemory,
    };
    Status::after_writes(write_answers(out, &problem, &set))
}
