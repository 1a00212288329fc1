// A search whose first position has no tiling, and searches that are resumed.
ghost use Rattle.std.specs.Prelude.{◌≡◌, ◌<◌};
ghost use Rattle.problem.specs.Problem.{IsFit};

use crate::questions::{Question, is_so, problem};
use enumerate::{Problem, Search, Sequence, needed};
use hold_queue::Hold;
use reach::Steps;
use std::alloc::Global;
use std::marker::Brand;
use std::sync::ledger::{Blank, Ledger};

/// Whether the first answer of a search is a solution, how many floods it took, and how many dead boards the search
/// keeps then. `None` if it had no memory.
fn first_answer<L: Ledger>(
    alloc: Global,
    blank: Blank,
    problem: Problem,
) -> Option<(bool, u64, usize)>
    requires name { blank.name ≡ L.name }
    requires parts { blank.parts ≡ L.parts }
    requires some { 0 < blank.parts }
    requires fit { IsFit problem }
{
    let mut steps = Steps::<L>::new(blank);
    let Ok(mut search) = Search::start(alloc, problem, None) else {
        return None;
    };
    let solution = search.next(&mut steps);
    Some((solution.is_some(), search.floods(), search.dead_boards()))
}

/// Whether two answers are the same.
fn is_same(one: &Option<Sequence>, other: &Option<Sequence>) -> bool {
    match (one, other) {
        (None, None) => true,
        (Some(one), Some(other)) => one.as_slice() == other.as_slice(),
        _ => false,
    }
}

/// The first answer of a search after a sequence. `None` also if it had no memory.
fn resumed<L: Ledger>(
    alloc: Global,
    problem: Problem,
    after: &Option<Sequence>,
    steps: &mut Steps<L>,
) -> Option<Sequence>
    requires { IsFit problem }
{
    let after = match after {
        None => None,
        Some(sequence) => {
            if sequence.len() != usize::from(needed(&problem)) {
                return None;
            }
            match Sequence::try_from(sequence.as_slice()) {
                Ok(copy) => Some(copy),
                Err(_) => return None,
            }
        }
    };
    match Search::start(alloc, problem, after) {
        Ok(mut search) => search.next(steps),
        Err(_) => None,
    }
}

/// How many solutions a search gives, if the search that is resumed after each of them gives the next one. `None` if
/// one differs, if there are more than `most`, or if it had no memory.
fn count_resumed<L: Ledger>(alloc: Global, blank: Blank, problem: Problem, most: u32) -> Option<u32>
    requires name { blank.name ≡ L.name }
    requires parts { blank.parts ≡ L.parts }
    requires some { 0 < blank.parts }
    requires fit { IsFit problem }
{
    let mut steps = Steps::<L>::new(blank);
    let Ok(mut search) = Search::start(alloc, problem, None) else {
        return None;
    };
    let mut after = None;
    for count in 0..most {
        let next = search.next(&mut steps);
        if !is_same(&next, &resumed(alloc, problem, &after, &mut steps)) {
            return None;
        }
        if next.is_none() {
            return Some(count);
        }
        after = next;
    }
    None
}

const TWO_SQUARES: &Question = &(b"XXXXXXXX__/XXXXXX____/XXXXXXXX__", 3, "OO", Hold::Allowed);

#[test]
fn a_field_without_a_tiling_is_kept_as_dead(rt: HostRuntime) {
    let two_squares = problem(&rt, TWO_SQUARES);
    let found = first_answer::<Brand>(rt.alloc(), Blank::new(1), two_squares);
    is_so(&rt, found == Some((false, 0, 1)), "a dead board");
}

/// Questions, and how many solutions they have.
const RESUMED: &[(Question, u32)] = &[
    ((b"__________", 4, "ILJOSZTILJ", Hold::Avoided), 319),
    ((b"XXXXXX____/XXXXXX____", 2, "OO", Hold::Allowed), 2),
];

#[test]
fn a_search_is_resumed_after_each_solution(rt: HostRuntime) {
    for (question, solutions) in RESUMED {
        let asked = problem(&rt, question);
        let found = count_resumed::<Brand>(rt.alloc(), Blank::new(1), asked, 400);
        is_so(&rt, found == Some(*solutions), question.2);
    }
}
