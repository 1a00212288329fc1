// The solutions of a problem.
ghost use Rattle.std.specs.Prelude.{◌≡◌, ◌<◌, None, IfOk};
ghost use Rattle.srs.specs.Order.{sequence_cmp};
ghost use Rattle.srs.specs.Rising.{IsNextAbove};
ghost use Rattle.problem.specs.Problem.{IsFit};
ghost use Rattle.problem.specs.Solution.{IsSolution};
ghost use Rattle.enumerate.specs.Items.{items_of};
ghost use Rattle.calling.specs.Counts.{IsSolutionCount};

use enumerate::Search;
use pc_outside::NoMemory;
use problem::{Problem, Sequence};
use reach::Steps;
use std::alloc::Global;
use std::marker::Brand;
use std::sync::ledger::{Blank, Ledger};

/// The least solution, with a counter that is dropped.
fn least_by<L: Ledger>(
    alloc: Global,
    blank: Blank,
    problem: Problem,
) -> Result<Option<Sequence>, NoMemory>
    requires name { blank.name ≡ L.name }
    requires parts { blank.parts ≡ L.parts }
    requires some { 0 < blank.parts }
    requires fit { IsFit problem }
    ensures { IfOk result (λ least. IsNextAbove sequence_cmp (IsSolution problem None) None (items_of least)) }
{
    let mut steps = Steps::<L>::new(blank);
    let mut search = Search::start(alloc, problem, None)?;
    Ok(search.next(&mut steps))
}

/// The first solution of a fit problem. `None` if it has none. The only refusal is that memory runs out.
pub fn least_solution(alloc: Global, problem: Problem) -> Result<Option<Sequence>, NoMemory>
    requires { IsFit problem }
    ensures { IfOk result (λ least. IsNextAbove sequence_cmp (IsSolution problem None) None (items_of least)) }
{
    least_by::<Brand>(alloc, Blank::new(1), problem)
}

/// How many solutions there are up to a limit, with a counter of floods that is dropped.
fn count_by<L: Ledger>(
    alloc: Global,
    blank: Blank,
    problem: Problem,
    limit: u64,
) -> Result<u64, NoMemory>
    requires name { blank.name ≡ L.name }
    requires parts { blank.parts ≡ L.parts }
    requires some { 0 < blank.parts }
    requires fit { IsFit problem }
    ensures { IfOk result (IsSolutionCount problem limit) }
{
    let mut steps = Steps::<L>::new(blank);
    let mut search = Search::start(alloc, problem, None)?;
    for count in 0..limit {
        let Some(_) = search.next(&mut steps) else {
            return Ok(count);
        };
    }
    Ok(limit)
}

/// How many solutions a fit problem has, or the limit if it has more. The only refusal is that memory runs out.
pub fn count_solutions(alloc: Global, problem: Problem, limit: u64) -> Result<u64, NoMemory>
    requires { IsFit problem }
    ensures { IfOk result (IsSolutionCount problem limit) }
{
    count_by::<Brand>(alloc, Blank::new(1), problem, limit)
}
