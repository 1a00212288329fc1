// How many placements a solution has.
ghost use Rattle.std.specs.Prelude.{◌≡◌};
ghost use Rattle.problem.specs.Problem.{IsFit, needed_of};

use crate::problem::Problem;

/// How many placements a solution has: a quarter of the empty cells below the height, rounded down.
pub fn needed(problem: &Problem) -> u8
    requires { IsFit problem.now }
    ensures { result ≡ needed_of problem.now }
{
    problem.well.empties_below(problem.height) / 4
}
