// Whether a sequence clears the field of a problem.
ghost use Rattle.std.specs.Prelude.{◌≡◌, ◌+◌, ◌≤◌, ◌↔◌, IsTrue, length};
ghost use Rattle.srs.specs.Rules.{table_of};
ghost use Rattle.problem.specs.Problem.{IsFit};
ghost use Rattle.problem.specs.Solution.{PlaysIn};
ghost use Rattle.reach.specs.FloodRules.{flood_table};

use problem::{Problem, Sequence, lies_below};
use reach::{FloodRules, Steps};
use std::sync::ledger::Ledger;

/// Whether legal keys lead to each placement of the sequence, in the field before it and below the rows that are left
/// there, and the last one leaves no row and no cell. Counts at most one flood for each placement.
pub fn plays<L: Ledger>(problem: &Problem, sequence: &Sequence, steps: &mut Steps<L>) -> bool
    requires { IsFit problem.now }
    ensures exact { IsTrue result ↔ PlaysIn problem.now sequence.now.items }
    ensures counted { steps.old ≤ steps.new }
    ensures few { steps.new ≤ steps.old + length sequence.now.items }
{
    plays_by(problem, &FloodRules::new(&problem.rules), sequence, steps)
}

/// The same by the rules of the problem, prepared for many floods.
pub(crate) fn plays_by<L: Ledger>(
    problem: &Problem,
    rules: &FloodRules,
    sequence: &Sequence,
    steps: &mut Steps<L>,
) -> bool
    requires fit { IsFit problem.now }
    requires rules { flood_table rules.now ≡ table_of problem.now.rules }
    ensures exact { IsTrue result ↔ PlaysIn problem.now sequence.now.items }
    ensures counted { steps.old ≤ steps.new }
    ensures few { steps.new ≤ steps.old + length sequence.now.items }
{
    let mut well = problem.well;
    let mut rows = problem.height;
    'placements: for placement in sequence.as_slice() {
        let places = rules.places(&well, placement.piece, problem.drop_mode, steps);
        if !places.contains(placement) {
            return false;
        }
        if !lies_below(placement, rows) {
            return false;
        }
        let (next, removed) = well.lock(placement);
        well = next;
        rows = rows.saturating_sub(removed);
    }
    rows == 0
}
