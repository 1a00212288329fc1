// Longest runs of small fields.
ghost use Rattle.std.specs.Prelude.{◌≡◌, ◌<◌};

use crate::questions::is_so;
use combo::{Run, longest, most_between_walls};
use hold_queue::Hold;
use moves::DropMode;
use queue_pattern::Queue;
use reach::Steps;
use srs::{Piece, Placement, Rotation, Rules};
use std::alloc::Global;
use std::marker::Brand;
use std::sync::ledger::{Blank, Ledger};
use well::Well;

/// Fields, and the most placements that the room between their walls allows.
const ROOMS: &[(&str, Option<u8>)] = &[
    ("", Some(0)),
    ("XXX_XXXXXX", Some(1)),
    ("XXX_XXXXXX/XXX_XXXXXX", Some(1)),
    ("XXX____XXX/XXXX_XXXXX", Some(4)),
    ("X_________/XXX____XXX", None),
    ("_________X/XXX____XXX", None),
    ("XX____XXXX", None),
    ("XXXXXXXXXX/XXX____XXX", None),
];

const LAID_FLAT: Placement = Placement {
    piece: Piece::I,
    rotation: Rotation::Spawn,
    x: 7,
    y: 0,
};

const UPRIGHT: Placement = Placement {
    piece: Piece::I,
    rotation: Rotation::Right,
    x: 3,
    y: 2,
};

fn queue_of(first: Piece, second: Piece) -> Queue {
    let mut queue = Queue::new();
    queue.push(first);
    queue.push(second);
    queue
}

fn longest_of<L: Ledger>(alloc: Global, blank: Blank, well: &Well, queue: &Queue) -> Run
    requires name { blank.name ≡ L.name }
    requires parts { blank.parts ≡ L.parts }
    requires some { 0 < blank.parts }
{
    let mut steps = Steps::<L>::new(blank);
    longest(
        alloc,
        well,
        &Rules::srs(),
        DropMode::Soft,
        queue,
        Hold::Avoided,
        None,
        &mut steps,
    )
}

/// Fields, and the longest runs of two straight pieces on them.
const STRAIGHT_RUNS: &[(&[u8], &[Placement])] = &[
    (b"XXXXXX____/XXXXXX____", &[LAID_FLAT, LAID_FLAT]),
    (b"XXX_XXXXXX/XXX_XXXXXX", &[UPRIGHT]),
];

#[test]
fn straight_pieces_clear_rows(rt: HostRuntime) {
    for (rows, placements) in STRAIGHT_RUNS {
        let well = Well::from_rows(rows).expect(&rt, "a rows text");
        let queue = queue_of(Piece::I, Piece::I);
        let run = longest_of::<Brand>(rt.alloc(), Blank::new(1), &well, &queue);
        is_so(&rt, run.as_slice() == *placements, "a longest run");
    }
}

#[test]
fn the_room_between_walls_is_counted(rt: HostRuntime) {
    for (text, most) in ROOMS {
        let well = Well::from_rows(text.as_bytes()).expect(&rt, "a rows text");
        is_so(&rt, most_between_walls(&well) == *most, text);
    }
}
