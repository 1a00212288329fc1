// Which pieces may be played next, how many of each kind are left, and what is taken from a hand.

use hold_queue::{Hand, Hold, QueueSet, Taken};
use queue_pattern::{Pattern, Queue};
use srs::Piece;
use std::process::Abort;

fn played(rt: &impl Abort, start: QueueSet, pieces: &[Piece]) -> QueueSet {
    let mut set = start;
    for piece in pieces {
        assert!(rt; set.may_play(*piece));
        set = set.after(*piece);
    }
    set
}

fn may_play_next(set: &QueueSet) -> [bool; 7] {
    [
        set.may_play(Piece::I),
        set.may_play(Piece::L),
        set.may_play(Piece::O),
        set.may_play(Piece::Z),
        set.may_play(Piece::T),
        set.may_play(Piece::J),
        set.may_play(Piece::S),
    ]
}

fn t_then_i() -> Queue {
    let mut queue = Queue::new();
    queue.push(Piece::T);
    queue.push(Piece::I);
    queue
}

fn piece_of(taken: Option<Taken>) -> Option<Piece> {
    match taken {
        Some(taken) => Some(taken.piece),
        None => None,
    }
}

/// Which pieces are none of I, L and O.
const OTHER_THAN_ILO: [bool; 7] = [false, false, false, true, true, true, true];

#[test]
fn two_pieces_are_played_in_either_order(rt: HostRuntime) {
    let queue = t_then_i();
    let start = QueueSet::start_one(&queue, Hold::Allowed, None);
    let after_i = played(&rt, start, &[Piece::I]);
    assert!(rt; may_play_next(&after_i) == [false, false, false, false, true, false, false]);
    let after_both = played(&rt, after_i, &[Piece::T]);
    assert!(rt; may_play_next(&after_both) == [false; 7]);
    let avoided = QueueSet::start_one(&queue, Hold::Avoided, None);
    assert!(rt; !avoided.may_play(Piece::I) && avoided.may_play(Piece::T));
}

#[test]
fn a_second_bag_begins_where_the_first_is_drawn(rt: HostRuntime) {
    let pattern = Pattern::parse("*p7,*p4").expect(&rt, "a pattern");
    let start = QueueSet::start(&pattern, Hold::Allowed, None);
    let after_three = played(&rt, start, &[Piece::I, Piece::L, Piece::O]);
    assert!(rt; may_play_next(&after_three) == OTHER_THAN_ILO);
    let after_five = played(&rt, after_three, &[Piece::Z, Piece::T]);
    assert!(rt; !after_five.may_play(Piece::I));
    let after_six = played(&rt, after_five, &[Piece::J]);
    assert!(rt; after_six.may_play(Piece::I));
    assert!(rt; after_three.permitted() == OTHER_THAN_ILO);
}

#[test]
fn a_piece_held_at_the_start_is_played(rt: HostRuntime) {
    let pattern = Pattern::parse("").expect(&rt, "a pattern");
    let start = QueueSet::start(&pattern, Hold::Allowed, Some(Piece::I));
    assert!(rt; start.may_play(Piece::I) && !start.may_play(Piece::T));
    let avoided = QueueSet::start(&pattern, Hold::Avoided, Some(Piece::I));
    assert!(rt; !avoided.may_play(Piece::I));
}

#[test]
fn played_pieces_are_taken_from_the_supply(rt: HostRuntime) {
    let pattern = Pattern::parse("TT[TI]p2").expect(&rt, "a pattern");
    let start = QueueSet::start(&pattern, Hold::Allowed, Some(Piece::T));
    assert!(rt; start.supply(3) == [1, 0, 0, 0, 3, 0, 0]);
    let after_two = played(&rt, start, &[Piece::T, Piece::T]);
    assert!(rt; after_two.supply(3) == [1, 0, 0, 0, 2, 0, 0]);
}

/// Whether these are the pieces that may be taken from a hand.
fn takes(hand: &Hand, queue: &Queue, hold: Hold, pieces: (Option<Piece>, Option<Piece>)) -> bool {
    let (one, other) = hand.takes(queue, hold);
    (piece_of(one), piece_of(other)) == pieces
}

#[test]
fn the_first_piece_or_the_second_is_taken(rt: HostRuntime) {
    let queue = t_then_i();
    let hand = Hand::start(Hold::Allowed, Some(Piece::S));
    assert!(rt; hand.count(&queue) == 3);
    assert!(rt; piece_of(hand.second(&queue)) == Some(Piece::T));
    assert!(rt;
        takes(
            &hand,
            &queue,
            Hold::Allowed,
            (Some(Piece::T), Some(Piece::S))
        )
    );
    let avoided = Hand::start(Hold::Avoided, Some(Piece::S));
    assert!(rt; avoided.count(&queue) == 2);
    assert!(rt; takes(&avoided, &queue, Hold::Avoided, (Some(Piece::T), None)));
}
