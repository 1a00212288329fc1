// Queues without a perfect clear.
ghost use Rattle.std.specs.Prelude.{◌≡◌, ◌<◌, IfOk};
ghost use Rattle.problem.specs.Problem.{IsFit};
ghost use Rattle.enumerate.specs.Items.{items_of};
ghost use Rattle.calling.specs.FirstFailed.{IsFirstFailed};

use pc_outside::NoMemory;
use percent::Answers;
use problem::Problem;
use queue_pattern::Queue;
use reach::Steps;
use std::alloc::Global;
use std::marker::Brand;
use std::sync::ledger::{Blank, Ledger};

/// The first failed queue, with a counter of floods that is dropped.
fn first_failed_by<L: Ledger>(
    alloc: Global,
    blank: Blank,
    problem: &Problem,
) -> Result<Option<Queue>, NoMemory>
    requires name { blank.name ≡ L.name }
    requires parts { blank.parts ≡ L.parts }
    requires some { 0 < blank.parts }
    requires fit { IsFit problem.now }
    ensures { IfOk result (λ failed. IsFirstFailed problem.now (items_of failed)) }
{
    let mut steps = Steps::<L>::new(blank);
    let answers = Answers::new(alloc, problem, &mut steps)?;
    for number in 0..problem.pattern.count() {
        if !answers.is_good(number) {
            return Ok(Some(problem.pattern.queue(number)));
        }
    }
    Ok(None)
}

/// The first queue of a fit problem's pattern that has no perfect clear. `None` if every queue has one. The only
/// refusal is that memory runs out.
pub fn first_failed(alloc: Global, problem: &Problem) -> Result<Option<Queue>, NoMemory>
    requires { IsFit problem.now }
    ensures { IfOk result (λ failed. IsFirstFailed problem.now (items_of failed)) }
{
    first_failed_by::<Brand>(alloc, Blank::new(1), problem)
}
