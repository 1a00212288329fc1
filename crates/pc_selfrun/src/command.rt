// The command `selfrun`: sample pages, their text, the solutions of a problem, and then the lines.
ghost use Rattle.std.specs.Prelude.{◌≡◌, ◌-◌, ◌≤◌, []};
ghost use Rattle.fumen_pages.specs.Lists.{most_pages};
ghost use Rattle.pc_source.specs.Ends.{CommandEnds};
ghost use Rattle.pc_source.specs.Sink.{sink_change};
ghost use Rattle.pc_selfrun.specs.SelfrunTask.{selfrun_task};

use crate::column::column_problem;
use crate::count::count_solutions;
use crate::lines::{Findings, write_findings};
use crate::text::checked_text;
use enumerate::Search;
use pc_faults::Status;
use pc_outside::Sink;
use reach::Steps;
use sample_pages::sample_of;
use std::alloc::Global;
use std::sync::ledger::Ledger;

/// Makes this many pages from a number, writes them as a fumen text, reads that and compares. Then it counts the
/// solutions of the problem of the column that is drawn after the pages, and writes its findings. All memory is
/// allocated before any flood is made.
pub fn run_selfrun<O: Sink, L: Ledger>(
    alloc: Global,
    number: u32,
    pages: u32,
    out: &mut O,
    steps: &mut Steps<L>,
) -> Status
    requires least { 1 ≤ pages }
    requires most { pages ≤ most_pages }
    ensures { CommandEnds (selfrun_task number pages) []
        (sink_change O.counts_failures_alone (O.written out.old) (O.written out.new)
        (O.faults out.old) (O.faults out.new)) (out.new ≡ out.old) steps.old steps.new result }
{
    let sample = match sample_of(alloc, number, pages) {
        Ok(sample) => sample,
        Err(_) => return Status::NoMemory,
    };
    let check = match checked_text(alloc, &sample.pages) {
        Ok(check) => check,
        Err(_) => return Status::NoMemory,
    };
    let mut search = match Search::start(alloc, column_problem(sample.column), None) {
        Ok(search) => search,
        Err(_) => return Status::NoMemory,
    };
    let solutions = count_solutions(&mut search, steps);
    let found = Findings {
        pages,
        bytes: check.bytes,
        same: check.same,
        column: sample.column,
        solutions,
    };
    Status::after_writes(write_findings(out, &found))
}
