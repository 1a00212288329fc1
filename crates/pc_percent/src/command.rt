// The command `percent`: the problem, the answers for all queues, and then the lines.
ghost use Rattle.std.specs.Prelude.{◌≡◌, ◌-◌, ◌<◌};
ghost use Rattle.pc_outside.specs.Counts.{HasCause};
ghost use Rattle.pc_outside.specs.Writes.{WritesAll};
ghost use Rattle.queue_pattern.specs.Pattern.{elements_of};
ghost use Rattle.queue_pattern.specs.Queues.{queues};
ghost use Rattle.problem.specs.Problem.{IsFit};
ghost use Rattle.percent.specs.Answers.{problem_of};
ghost use Rattle.percent.specs.GoodHands.{is_good_queue};
ghost use Rattle.pc_settings.specs.Request.{IsInRange};
ghost use Rattle.pc_settings.specs.Views.{percent_view};
ghost use Rattle.pc_source.specs.Ends.{CommandEnds};
ghost use Rattle.pc_source.specs.Sink.{sink_change};
ghost use Rattle.pc_percent.specs.Lines.{failed_lines, percent_form};
ghost use Rattle.pc_percent.specs.PercentTask.{percent_task};

use crate::lines::write_failed;
use pc_faults::Status;
use pc_outside::{Failed, Sink};
use pc_settings::PercentSettings;
use pc_source::{Dash, problem_asked};
use percent::Answers;
use problem::Problem;
use queue_lines::write_numbers;
use reach::Steps;
use std::alloc::Global;
use std::sync::ledger::Ledger;

/// Writes the lines of the first queues without a perfect clear, up to the limit.
fn write_all_failed<O: Sink>(
    out: &mut O,
    problem: &Problem,
    answers: &Answers,
    limit: u32,
) -> Result<(), Failed>
    requires same { problem_of answers.now ≡ problem.now }
    requires fit { IsFit problem.now }
    ensures written { WritesAll (O.written out.old) (O.written out.new) result
        (failed_lines (is_good_queue problem.now) limit (queues (elements_of problem.now.pattern))) }
    ensures cause { HasCause O.counts_failures_alone (O.faults out.old) (O.faults out.new) result }
{
    let mut left = limit;
    for number in 0..problem.pattern.count() {
        if left == 0 {
            return Ok(());
        }
        if !answers.is_good(number) {
            write_failed(out, &problem.pattern.queue(number))?;
            left -= 1;
        }
    }
    Ok(())
}

/// Writes the answers for all queues.
fn write_answers<O: Sink>(
    out: &mut O,
    problem: &Problem,
    answers: &Answers,
    limit: u32,
) -> Result<(), Failed>
    requires same { problem_of answers.now ≡ problem.now }
    requires fit { IsFit problem.now }
    ensures written { WritesAll (O.written out.old) (O.written out.new) result
        (percent_form (is_good_queue problem.now) limit (queues (elements_of problem.now.pattern))) }
    ensures cause { HasCause O.counts_failures_alone (O.faults out.old) (O.faults out.new) result }
{
    write_all_failed(out, problem, answers, limit)?;
    write_numbers(out, problem.pattern.count(), answers.count_good())
}

/// Writes how many queues have a perfect clear of the problem that the settings name, and which have none. `bytes` are
/// those of the source. If memory runs out, nothing was written, but floods may have been made.
pub fn run_percent<O: Sink, L: Ledger>(
    alloc: Global,
    settings: &PercentSettings<'_>,
    bytes: &[u8],
    out: &mut O,
    steps: &mut Steps<L>,
) -> Status
    requires { IsInRange (percent_view settings.now).common }
    ensures { CommandEnds (percent_task (percent_view settings.now)) bytes.now
        (sink_change O.counts_failures_alone (O.written out.old) (O.written out.new)
        (O.faults out.old) (O.faults out.new)) (out.new ≡ out.old) steps.old steps.new result }
{
    let problem = match problem_asked(alloc, &settings.common, Dash::Source(bytes)) {
        Ok(problem) => problem,
        Err(refused) => return Status::from(refused),
    };
    let answers = match Answers::new(alloc, &problem, steps) {
        Ok(answers) => answers,
        Err(_) => return Status::NoMemory,
    };
    Status::after_writes(write_answers(out, &problem, &answers, settings.failed))
}
