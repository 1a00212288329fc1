// Patterns: their queues by number, their elements, and their faults.
use queue_pattern::sets::{ALL, is_in, nth, set_of_one, size, without};
use queue_pattern::{Element, Pattern, PatternFault, Queue};
use srs::Piece;

/// Patterns, how many queues each has, and how many pieces a queue has.
const COUNTS: &[(&str, u32, u8)] = &[("*p7,*p4", 4_233_600, 11), ("", 1, 0), ("*p2", 42, 2)];

/// Queues of two of seven pieces, by number.
const TWO_OF_SEVEN: &[(u32, &[Piece])] = &[
    (0, &[Piece::I, Piece::L]),
    (6, &[Piece::L, Piece::I]),
    (41, &[Piece::S, Piece::J]),
];

const FAULTS: &[(&str, PatternFault)] = &[
    ("*p", PatternFault::Unexpected { place: 2 }),
    ("*p0", PatternFault::Unexpected { place: 2 }),
    ("[]", PatternFault::Unexpected { place: 1 }),
    ("TQ", PatternFault::Unexpected { place: 1 }),
    ("[TTI]p2", PatternFault::RepeatedPiece { place: 2 }),
    ("[Tt]", PatternFault::RepeatedPiece { place: 2 }),
    ("[^TILJSZO]", PatternFault::TooManyChosen { place: 0 }),
    ("[TI]p3", PatternFault::TooManyChosen { place: 0 }),
    ("*!*!*!TT", PatternFault::PatternTooLong),
    ("*p7,*p5", PatternFault::TooManyQueues),
];

fn has_counts(text: &str, queues: u32, pieces: u8) -> bool {
    match Pattern::parse(text) {
        Ok(pattern) => pattern.count() == queues && pattern.len() == pieces,
        Err(_) => false,
    }
}

#[test]
fn queues_are_counted(rt: HostRuntime) {
    for (text, queues, pieces) in COUNTS {
        assert!(rt; has_counts(text, *queues, *pieces), "{text}");
    }
    let pattern = Pattern::parse("*p7,*p4").expect(&rt, "a pattern");
    assert!(rt; pattern.elements() == 2);
    assert!(rt; pattern.count_from(1) == 840 && pattern.count_from(2) == 1);
}

fn has_queue(pattern: &Pattern, number: u32, pieces: &[Piece]) -> bool {
    number < pattern.count() && pattern.queue(number).as_slice() == pieces
}

#[test]
fn two_of_seven_are_numbered(rt: HostRuntime) {
    let pattern = Pattern::parse("*p2").expect(&rt, "a pattern");
    for (number, pieces) in TWO_OF_SEVEN {
        assert!(rt; has_queue(&pattern, *number, pieces), "{number}");
    }
}

/// Numbers of queues of `*p7,*p4`, and of their fronts among those of nine pieces.
const FRONTS: &[(u32, u32)] = &[(0, 0), (19, 0), (20, 1), (840, 42), (4_233_599, 211_679)];

fn has_front(whole: &Pattern, cut: &Pattern, number: u32, front: u32) -> bool {
    if number >= whole.count() || front >= cut.count() {
        return false;
    }
    whole
        .queue(number)
        .as_slice()
        .starts_with(cut.queue(front).as_slice())
}

#[test]
fn nine_of_eleven_are_numbered(rt: HostRuntime) {
    let whole = Pattern::parse("*p7,*p4").expect(&rt, "a pattern");
    let cut = whole.cut(9);
    assert!(rt; cut.elements() == 2 && cut.len() == 9 && cut.count() == 5040 * 42);
    for (number, front) in FRONTS {
        assert!(rt; has_front(&whole, &cut, *number, *front), "{number}");
    }
    assert!(rt; !has_front(&whole, &cut, 20, 0) && !has_front(&whole, &cut, 19, 1));
}

#[test]
fn a_cut_within_an_element_ends_there(rt: HostRuntime) {
    let whole = Pattern::parse("*p7,*p4").expect(&rt, "a pattern");
    let short = whole.cut(7);
    assert!(rt; short.elements() == 1 && short.len() == 7 && short.count() == 5040);
    let none = whole.cut(0);
    assert!(rt; none.elements() == 0 && none.len() == 0 && none.count() == 1);
    let all = whole.cut(12);
    assert!(rt; all.elements() == 2 && all.len() == 11 && all.count() == whole.count());
}

#[test]
fn elements_are_read(rt: HostRuntime) {
    let pattern = Pattern::parse("T\ti, [^TIOZS]p2").expect(&rt, "a pattern");
    assert!(rt; pattern.elements() == 3);
    let last = Element { set: 34, chosen: 2 };
    assert!(rt; pattern.element(2) == last);
    assert!(rt; last.has(Piece::L) && !last.has(Piece::O));
}

/// The pieces of a set as they are numbered.
fn is_numbered(set: u8, pieces: &[Piece]) -> bool {
    if usize::from(size(set)) != pieces.len() {
        return false;
    }
    for number in 0..size(set) {
        if nth(set, u32::from(number)) != pieces[usize::from(number)] {
            return false;
        }
    }
    true
}

#[test]
fn sets_are_read(rt: HostRuntime) {
    assert!(rt; is_numbered(34, &[Piece::L, Piece::J]) && is_numbered(0, &[]));
    assert!(rt; set_of_one(Piece::T) == 16 && without(ALL, Piece::T) == 111);
    assert!(rt; is_in(Piece::J, 34) && !is_in(Piece::T, without(ALL, Piece::T)));
}

#[test]
fn a_queue_is_a_pattern(rt: HostRuntime) {
    let mut queue = Queue::new();
    queue.push(Piece::T);
    queue.push(Piece::T);
    let pattern = Pattern::from_queue(&queue);
    assert!(rt; pattern.elements() == 2 && pattern.len() == 2 && pattern.count() == 1);
    assert!(rt; has_queue(&pattern, 0, &[Piece::T, Piece::T]));
}

#[test]
fn first_faults_are_found(rt: HostRuntime) {
    for (text, fault) in FAULTS {
        assert!(rt; Pattern::parse(text).err() == Some(*fault), "{text}");
    }
}
