// How many solutions a search has.
ghost use Rattle.std.specs.Prelude.{◌≡◌, ◌-◌, ◌≤◌, ◌<◌, ◌^◌, length, None};
ghost use Rattle.enumerate.specs.ViewOf.{after_given, solutions, view_of, work};
ghost use Rattle.enumerate.specs.Work.{pairs};

use enumerate::Search;
use reach::Steps;
use std::sync::ledger::Ledger;

/// Goes through all solutions that a search still has and counts them.
pub fn count_solutions<L: Ledger>(search: &mut Search, steps: &mut Steps<L>) -> u64
    requires { length (solutions search.old) < 2 ^ 64 }
    ensures count { result ≡ length (solutions search.old) }
    ensures counted { steps.old ≤ steps.new }
    ensures all { after_given search.old ≡ None → work search.old ≡ 0
        → steps.new - steps.old ≡ pairs (view_of search.old).problem (view_of search.old).queue }
{
    let mut count = 0;
    'solutions: while let Some(_) = search.next(steps) {
        count += 1;
    }
    count
}
