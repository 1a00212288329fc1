// Each call once, on fields whose answers are known.
use crate::questions::{Question, is_so, problem};
use calling::{
    KeyedPlacement, RewriteFault, as_v115, count_places, count_solutions, first_failed, first_move,
    first_move_of, least_solution, may_come_second, places_uncounted,
};
use fumen_digits::FumenFault;
use hold_queue::Hold;
use moves::{DropMode, Key};
use pc_outside::Refused;
use problem::ProblemFault;
use queue_pattern::{Pattern, Queue};
use srs::{Piece, Placement, Rotation, Rules};
use std::alloc::{AllocError, Global};
use well::Well;

/// The field that a T, an O and an I clear.
const OPENER_ROWS: &[u8] = b"XXXX____XX/XXXX___XXX/XXXX__XXXX/XXXX___XXX";

const OPENER: &Question = &(OPENER_ROWS, 4, "TOI", Hold::Allowed);

/// A row that no square clears.
const NO_ANSWER: &Question = &(b"XXXXXX____", 1, "O", Hold::Allowed);

const TWO_OF_ALL: &Question = &(b"XXXXXX____", 1, "*p2", Hold::Allowed);

/// Each queue begins with the piece that clears the row.
const NONE_FAILED: &Question = &(b"XXXXXX____", 1, "I*", Hold::Allowed);

const TURNED_T: Placement = Placement {
    piece: Piece::T,
    rotation: Rotation::Right,
    x: 4,
    y: 1,
};

const LEAST: &[Placement] = &[
    TURNED_T,
    Placement {
        piece: Piece::I,
        rotation: Rotation::Spawn,
        x: 5,
        y: 2,
    },
    Placement {
        piece: Piece::O,
        rotation: Rotation::Spawn,
        x: 5,
        y: 0,
    },
];

const SQUARE_IN_THE_CORNER: Placement = Placement {
    piece: Piece::O,
    rotation: Rotation::Spawn,
    x: 0,
    y: 0,
};

#[test]
fn places_in_an_empty_well_and_under_a_blocked_spawn(rt: HostRuntime) {
    let (well, rules) = (Well::empty(), Rules::srs());
    let soft = count_places(&well, &rules, Piece::T, DropMode::Soft);
    is_so(&rt, soft == 34, "places of a T");
    let hard = count_places(&well, &rules, Piece::I, DropMode::Hard);
    is_so(&rt, hard == 17, "places of an I that drops hard");
    let under = count_places(&well.with(4, 20), &rules, Piece::T, DropMode::Soft);
    is_so(&rt, under == 0, "places under a blocked spawn");
    let held = places_uncounted(&well, &rules, Piece::O, DropMode::Soft);
    let first = held.next_after(None) == Some(SQUARE_IN_THE_CORNER);
    is_so(&rt, first, "the first place of an O");
}

/// Pieces, and whether they may come second in the queue `TIO` with hold and without.
const SECOND_PIECES: &[(Piece, bool, bool)] = &[
    (Piece::I, true, true),
    (Piece::O, true, false),
    (Piece::T, true, false),
    (Piece::S, false, false),
];

#[test]
fn second_pieces_of_a_queue(rt: HostRuntime) {
    let pattern = Pattern::parse("TIO").expect(&rt, "a pattern");
    for (piece, with_hold, without) in SECOND_PIECES {
        let held = may_come_second(&pattern, Hold::Allowed, None, *piece);
        let avoided = may_come_second(&pattern, Hold::Avoided, None, *piece);
        is_so(
            &rt,
            held == *with_hold && avoided == *without,
            "a second piece",
        );
    }
}

#[test]
fn solutions_of_an_opener(rt: HostRuntime) {
    let opener = problem(&rt, OPENER);
    let least = least_solution(rt.alloc(), opener);
    let is_least = matches!(&least, Ok(Some(found)) if found.as_slice() == LEAST);
    is_so(&rt, is_least, "the least solution");
    let all = count_solutions(rt.alloc(), opener, 10);
    is_so(&rt, all == Ok(2), "two solutions");
    let limited = count_solutions(rt.alloc(), opener, 1);
    is_so(&rt, limited == Ok(1), "a limit of one solution");
    let none = least_solution(rt.alloc(), problem(&rt, NO_ANSWER));
    is_so(&rt, matches!(&none, Ok(None)), "no solution");
}

#[test]
fn the_first_failed_queue(rt: HostRuntime) {
    let two = problem(&rt, TWO_OF_ALL);
    let failed = first_failed(rt.alloc(), &two);
    let first =
        matches!(&failed, Ok(Some(queue)) if queue.as_slice() == [Piece::L, Piece::O].as_slice());
    is_so(&rt, first, "the first queue");
    let all = problem(&rt, NONE_FAILED);
    let none = first_failed(rt.alloc(), &all);
    is_so(&rt, matches!(&none, Ok(None)), "no failed queue");
}

/// Whether the text is not written again for this fault.
fn is_refused(alloc: Global, text: &[u8], fault: RewriteFault) -> bool {
    match as_v115(alloc, text) {
        Err(Refused::Fault(found)) => found == fault,
        _ => false,
    }
}

const BAD_ACTION: RewriteFault = RewriteFault::Unreadable(FumenFault::BadAction { place: 3 });

#[test]
fn fumen_texts_written_again(rt: HostRuntime) {
    let again = as_v115(rt.alloc(), b"v110@7eAVeI");
    let is_written = matches!(&again, Ok(text) if text.as_slice() == b"v115@vhAVQJ".as_slice());
    is_so(&rt, is_written, "an older text");
    let refused = is_refused(rt.alloc(), b"v110@7eAAA3", BAD_ACTION);
    is_so(&rt, refused, "a bad action");
}

/// A comment of 1,400 exclamation marks. Each of them is three characters once it is escaped.
fn long_comment(alloc: Global) -> Result<Vec<u8>, AllocError> {
    let mut text = b"v115@vhAAgW4V".to_vec(alloc)?;
    for _ in 0..350 {
        text.extend_from_slice(b"hRaDA")?;
    }
    Ok(text)
}

#[test]
fn a_comment_that_grows_too_long(rt: HostRuntime) {
    let text = long_comment(rt.alloc()).expect(&rt, "memory");
    let fault = RewriteFault::CommentTooLong { page: 1 };
    let refused = is_refused(rt.alloc(), &text, fault);
    is_so(&rt, refused, "a long comment");
}

/// Whether a move was found, and is the T that is turned once.
fn is_turned_t<F>(found: &Result<Option<KeyedPlacement>, F>) -> bool {
    match found {
        Ok(Some(first)) => {
            first.placement == TURNED_T && first.keys.as_slice() == [Key::Clockwise].as_slice()
        }
        _ => false,
    }
}

#[test]
fn first_moves(rt: HostRuntime) {
    let found = first_move(rt.alloc(), problem(&rt, OPENER));
    is_so(&rt, is_turned_t(&found), "a first move");
    let none = first_move(rt.alloc(), problem(&rt, NO_ANSWER));
    is_so(&rt, matches!(&none, Ok(None)), "no move");
}

#[test]
fn first_moves_of_one_queue(rt: HostRuntime) {
    let well = Well::from_rows(OPENER_ROWS).expect(&rt, "a rows text");
    let pieces = [Piece::T, Piece::O, Piece::I];
    let queue = Queue::try_from(pieces.as_slice()).expect(&rt, "a queue");
    let found = first_move_of(rt.alloc(), well, 4, &queue);
    is_so(&rt, is_turned_t(&found), "a first move");
    let high = first_move_of(rt.alloc(), well, 9, &queue);
    let is_refused = matches!(
        &high,
        Err(Refused::Fault(ProblemFault::BadHeight { height: 9 }))
    );
    is_so(&rt, is_refused, "a height");
}
