// The command `path`: what it lists, and then a line for each solution.
ghost use Rattle.std.specs.Prelude.{◌≡◌, ◌-◌, ◌<◌, ◌≤◌, ◌++◌, Err, None, length, drop, IsOk, OnOk, OnErr};
ghost use Rattle.pc_outside.specs.Writes.{WritesAll};
ghost use Rattle.enumerate.specs.ViewOf.{after_given, solutions, work};
ghost use Rattle.enumerate.specs.Work.{pairs};
ghost use Rattle.report.specs.Forms.{report_form};
ghost use Rattle.line_writing.specs.WriteCause.{HasWriteCause};
ghost use Rattle.pc_settings.specs.Request.{IsInRange};
ghost use Rattle.pc_settings.specs.Views.{path_view};
ghost use Rattle.pc_source.specs.Ends.{CommandEnds};
ghost use Rattle.pc_source.specs.Sink.{sink_change};
ghost use Rattle.pc_path.specs.Output.{stats_form};
ghost use Rattle.pc_path.specs.PathTask.{path_task};
ghost use Rattle.pc_path.specs.Work.{IsSearchOf, StoppedBefore};
ghost use Rattle.pc_path.specs.Writer.{asked_of, form_of};

use crate::listing::listing_of;
use crate::writer::SolutionWriter;
use enumerate::Search;
use line_writing::WriteFault;
use pc_faults::Status;
use pc_outside::Sink;
use pc_settings::{Format, PathSettings};
use problem::Problem;
use reach::Steps;
use report::{Tail, write_floods, write_tail};
use std::alloc::Global;
use std::sync::ledger::Ledger;

/// Writes the solutions that are still to come, up to the limit, and the line that ends the report.
fn write_report<O: Sink, L: Ledger>(
    alloc: Global,
    out: &mut O,
    problem: &Problem,
    search: &mut Search,
    limit: u32,
    writer: &mut SolutionWriter,
    steps: &mut Steps<L>,
) -> Result<(), WriteFault>
    requires { IsSearchOf problem.now (after_given search.old) search.old 0 }
    ensures written { WritesAll (O.written out.old) (O.written out.new) result
        (report_form (form_of writer.old problem.now) limit
        (solutions search.old)) }
    ensures cause { HasWriteCause O.counts_failures_alone (O.faults out.old) (O.faults out.new) result }
    ensures memory { result ≡ Err WriteFault.NoMemory → (asked_of writer.old).0 ≡ Format.Fumen }
    ensures counted { steps.old ≤ steps.new }
    ensures searched { IsSearchOf problem.now (after_given search.old) search.new (steps.new - steps.old) }
    ensures left { OnOk result (solutions search.new ≡ drop limit (solutions search.old)) }
    ensures stopped { OnErr result (StoppedBefore
        (form_of writer.old problem.now) (solutions search.old)
        (solutions search.new)
        (O.written out.old) (O.written out.new)) }
    ensures ended { IsOk result → after_given search.old ≡ None → length (solutions search.old) < limit
        → work search.new ≡ pairs problem.now None }
{
    for count in 0..limit {
        let sequence = match search.next(steps) {
            Some(sequence) => sequence,
            None => return write_tail(out, Tail::End, u64::from(count)).map_err(WriteFault::from),
        };
        writer.write(alloc, out, problem, &sequence)?;
    }
    write_tail(out, Tail::Limit, u64::from(limit)).map_err(WriteFault::from)
}

/// Writes the report and, if it is asked for, the number of floods that the search made.
fn write_listing<O: Sink, L: Ledger>(
    alloc: Global,
    out: &mut O,
    problem: &Problem,
    search: &mut Search,
    settings: &PathSettings<'_>,
    writer: &mut SolutionWriter,
    steps: &mut Steps<L>,
) -> Result<(), WriteFault>
    requires { IsSearchOf problem.now (after_given search.old) search.old 0 }
    ensures written { WritesAll (O.written out.old) (O.written out.new) result
        (report_form (form_of writer.old problem.now) settings.now.limit
        (solutions search.old) ++ stats_form settings.now.stats (steps.new - steps.old)) }
    ensures cause { HasWriteCause O.counts_failures_alone (O.faults out.old) (O.faults out.new) result }
    ensures memory { result ≡ Err WriteFault.NoMemory → (asked_of writer.old).0 ≡ Format.Fumen }
    ensures counted { steps.old ≤ steps.new }
    ensures searched { IsSearchOf problem.now (after_given search.old) search.new (steps.new - steps.old) }
    ensures left { OnOk result (solutions search.new ≡ drop settings.now.limit (solutions search.old)) }
    ensures stopped { OnErr result (StoppedBefore
        (form_of writer.old problem.now) (solutions search.old)
        (solutions search.new)
        (O.written out.old) (O.written out.new)) }
    ensures ended { IsOk result → after_given search.old ≡ None → length (solutions search.old) < settings.now.limit
        → work search.new ≡ pairs problem.now None }
{
    write_report(alloc, out, problem, search, settings.limit, writer, steps)?;
    if settings.stats {
        return write_floods(out, search.floods()).map_err(WriteFault::from);
    }
    Ok(())
}

/// Lists the solutions of the problem that the settings name. `bytes` are those of the source.
pub fn run_path<O: Sink, L: Ledger>(
    alloc: Global,
    settings: &PathSettings<'_>,
    bytes: &[u8],
    out: &mut O,
    steps: &mut Steps<L>,
) -> Status
    requires { IsInRange (path_view settings.now).common }
    ensures { CommandEnds (path_task (path_view settings.now)) bytes.now
        (sink_change O.counts_failures_alone (O.written out.old) (O.written out.new)
        (O.faults out.old) (O.faults out.new)) (out.new ≡ out.old) steps.old steps.new result }
{
    let listing = match listing_of(alloc, settings, bytes) {
        Ok(listing) => listing,
        Err(refused) => return Status::from(refused),
    };
    let problem = listing.problem;
    let mut search = match Search::start(alloc, problem, listing.after) {
        Ok(search) => search,
        Err(_) => return Status::NoMemory,
    };
    let mut writer = match SolutionWriter::new(alloc, settings.format, settings.keys) {
        Ok(writer) => writer,
        Err(_) => return Status::NoMemory,
    };
    let written = write_listing(
        alloc,
        out,
        &problem,
        &mut search,
        settings,
        &mut writer,
        steps,
    );
    Status::after_line(written)
}
