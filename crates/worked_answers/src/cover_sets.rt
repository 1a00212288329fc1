// Sequences that clear a small field, and the queues that they cover.
ghost use Rattle.std.specs.Prelude.{◌≡◌, ◌<◌};
ghost use Rattle.problem.specs.Problem.{IsFit};

use crate::questions::{Question, is_so, problem};
use cover::CoverSet;
use hold_queue::Hold;
use problem::{Problem, Sequence};
use reach::Steps;
use srs::{Piece, Placement, Rotation};
use std::alloc::Global;
use std::marker::Brand;
use std::sync::ledger::{Blank, Ledger};

fn flat(piece: Piece) -> Sequence {
    let mut sequence = Sequence::new();
    sequence.push(Placement {
        piece,
        rotation: Rotation::Spawn,
        x: 7,
        y: 0,
    });
    sequence
}

/// How many queues a sequence covers, and the first of them. `None` if it had no memory.
fn answered<L: Ledger>(
    alloc: Global,
    blank: Blank,
    problem: Problem,
    sequence: &Sequence,
) -> Option<(u32, Option<u32>)>
    requires name { blank.name ≡ L.name }
    requires parts { blank.parts ≡ L.parts }
    requires some { 0 < blank.parts }
    requires fit { IsFit problem }
{
    let mut steps = Steps::<L>::new(blank);
    let Ok(mut set) = CoverSet::start(alloc, problem) else {
        return None;
    };
    if set.add(sequence, &mut steps).is_err() || set.add(sequence, &mut steps).is_err() {
        return None;
    }
    let mut count = 0;
    for number in 0..problem.pattern.count() {
        if set.next_covered(number) == Some(number) {
            count += 1;
        }
    }
    Some((count, set.next_covered(0)))
}

const WITH_HOLD: Question = (b"XXXXXX____", 1, "*p2", Hold::Allowed);

const WITHOUT: Question = (b"XXXXXX____", 1, "*p2", Hold::Avoided);

/// Questions, the flat piece of a sequence, how many queues it covers, and the first of them.
const COVERED: &[(Question, Piece, u32, Option<u32>)] = &[
    // It is played first or second.
    (WITH_HOLD, Piece::I, 12, Some(0)),
    // It is played first.
    (WITHOUT, Piece::I, 6, Some(0)),
    // It leaves cells.
    (WITH_HOLD, Piece::T, 0, None),
];

#[test]
fn queues_that_a_flat_piece_covers(rt: HostRuntime) {
    for (question, piece, count, first) in COVERED {
        let asked = problem(&rt, question);
        let found = answered::<Brand>(rt.alloc(), Blank::new(1), asked, &flat(*piece));
        is_so(
            &rt,
            found == Some((*count, *first)),
            "queues of a flat piece",
        );
    }
}
