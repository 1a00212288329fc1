// Each call once, on fields that one piece or a few pieces clear.
ghost use Rattle.std.specs.Prelude.{◌≡◌, ◌<◌};
ghost use Rattle.problem.specs.Problem.{IsFit};

use crate::questions::{Question, is_so, problem, problem_by};
use crate::small_fields::{SMALL_FIELDS, WAYS};
use hold_queue::Hold;
use percent::{Answers, rate, solvable};
use problem::Problem;
use reach::Steps;
use std::alloc::Global;
use std::marker::Brand;
use std::sync::ledger::{Blank, Ledger};

/// How many queues are good. `None` if the answer for a queue that is asked about alone differs from the one for all
/// queues at once.
fn good_count<L: Ledger>(alloc: Global, blank: Blank, problem: &Problem) -> Option<u32>
    requires name { blank.name ≡ L.name }
    requires parts { blank.parts ≡ L.parts }
    requires some { 0 < blank.parts }
    requires fit { IsFit problem.now }
{
    let mut steps = Steps::<L>::new(blank);
    let Ok(answers) = Answers::new(alloc, problem, &mut steps) else {
        return None;
    };
    let mut count = 0u32;
    for number in 0..problem.pattern.count() {
        let good = answers.is_good(number);
        match solvable(alloc, problem, &problem.pattern.queue(number), &mut steps) {
            Ok(alone) if alone == good => count = count.wrapping_add(u32::from(good)),
            _ => return None,
        }
    }
    (count == answers.count_good()).then_some(count)
}

const OPENER: &[u8] = b"XXXX____XX/XXXX___XXX/XXXX__XXXX/XXXX___XXX";

const OVERHANG: &[u8] = b"XXXXXXXX__/XXXXXX____/XXXXXXXX__";

/// Questions, and how many queues are good.
const GOOD_QUEUES: &[(Question, u32)] = &[
    ((b"XXXXXX____", 1, "*p2", Hold::Allowed), 12),
    ((b"XXXXXX____", 1, "*p2", Hold::Avoided), 6),
    ((OVERHANG, 3, "*p3", Hold::Allowed), 50),
    ((OVERHANG, 3, "*p3", Hold::Avoided), 15),
    ((OPENER, 4, "*p4", Hold::Allowed), 514),
    ((OPENER, 4, "*p4", Hold::Avoided), 144),
];

#[test]
fn queues_alone_and_all_queues_say_the_same(rt: HostRuntime) {
    for (question, good) in GOOD_QUEUES {
        let asked = problem(&rt, question);
        let found = good_count::<Brand>(rt.alloc(), Blank::new(1), &asked);
        is_so(&rt, found == Some(*good), question.2);
    }
}

#[test]
fn small_fields_in_each_way(rt: HostRuntime) {
    for (rows, height, pattern, held, counts) in SMALL_FIELDS {
        for number in 0..16 {
            let (hold, is_held, drop_mode, kicks) = WAYS[number];
            let way = (hold, is_held.then_some(*held), drop_mode, kicks);
            let asked = problem_by(&rt, rows.as_bytes(), *height, pattern, &way);
            let found = good_count::<Brand>(rt.alloc(), Blank::new(1), &asked);
            assert!(rt; found == Some(counts[number]), "{rows} in way {number}");
        }
    }
}

#[test]
fn rates_are_rounded_down(rt: HostRuntime) {
    is_so(&rt, rate(0, 1) == 0, "none");
    is_so(&rt, rate(2, 3) == 6_666, "two of three");
    is_so(&rt, rate(10_000_000, 10_000_000) == 10_000, "all");
}
