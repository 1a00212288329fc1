// The tails of patterns, and sets of them, with cases that cross blocks and states.
use hold_queue::Hold;
use pc_outside::NoMemory;
use queue_pattern::{Pattern, Queue};
use srs::Piece;
use std::alloc::Global;
use tails::{TailSet, TailTree};

/// A set of these numbers. Sets don't ask which tails they stand for.
fn set_of(alloc: Global, numbers: &[u64]) -> Result<TailSet, NoMemory> {
    let mut set = TailSet::none(alloc);
    for number in numbers {
        set.insert(*number)?;
    }
    Ok(set)
}

fn has_just(alloc: Global, set: &TailSet, numbers: &[u64]) -> Result<bool, NoMemory> {
    Ok(set.numbers(alloc)?.as_slice() == numbers)
}

fn is_set(alloc: Global, numbers: &[u64], wanted: &[u64]) -> Result<bool, NoMemory> {
    has_just(alloc, &set_of(alloc, numbers)?, wanted)
}

fn is_merged(alloc: Global, a: &[u64], b: &[u64], wanted: &[u64]) -> Result<bool, NoMemory> {
    let merged = set_of(alloc, a)?.merged(alloc, &set_of(alloc, b)?)?;
    has_just(alloc, &merged, wanted)
}

fn is_left(alloc: Global, a: &[u64], b: &[u64], wanted: &[u64]) -> Result<bool, NoMemory> {
    let left = set_of(alloc, a)?.without(alloc, &set_of(alloc, b)?)?;
    has_just(alloc, &left, wanted)
}

/// Look-ups one behind the other, in any order.
fn is_found(alloc: Global) -> Result<bool, NoMemory> {
    let set = set_of(alloc, &[5, 63, 64, 1000, 70_000])?;
    let mut next = 0;
    let has_all = set.has_near(&mut next, 5)
        && set.has_near(&mut next, 64)
        && set.has_near(&mut next, 70_000)
        && set.has_near(&mut next, 63);
    Ok(has_all && !set.has_near(&mut next, 999) && !set.has_near(&mut next, 80_000))
}

#[test]
fn sets_of_numbers(rt: HostRuntime) {
    let rising = [2, 5, 63, 64, 1000];
    assert!(rt; is_set(rt.alloc(), &[64, 5, 1000, 2, 5, 63], &rising) == Ok(true));
    assert!(rt;
        is_merged(
            rt.alloc(),
            &[1, 64, 200],
            &[4, 64, 65],
            &[1, 4, 64, 65, 200]
        ) == Ok(true)
    );
    assert!(rt; is_left(rt.alloc(), &[1, 4, 64, 200], &[4, 65, 200], &[1, 64]) == Ok(true));
    assert!(rt; is_found(rt.alloc()) == Ok(true));
}

/// The number of the pieces at hand, the first in the lowest digit of eight.
fn number_of(held: Option<Piece>, queue: &Queue, pieces: usize) -> u64 {
    let mut number = 0u64;
    for index in (0..queue.len().min(pieces)).rev() {
        number = number.wrapping_mul(8) + u64::from(queue[index].code());
    }
    match held {
        Some(piece) => number.wrapping_mul(8) + u64::from(piece.code()),
        None => number,
    }
}

/// Whether each queue of a pattern has a tail in the tree of the pattern that is cut to so many pieces, with the pieces
/// at hand of the queue.
fn has_queues(
    alloc: Global,
    text: &str,
    hold: Hold,
    held: Option<Piece>,
    pieces: u8,
) -> Result<bool, NoMemory> {
    let Ok(pattern) = Pattern::parse(text) else {
        return Ok(false);
    };
    let pieces = pieces.min(20);
    let cut = pattern.cut(pieces);
    if cut.len() > 20 {
        return Ok(false);
    }
    let tree = TailTree::new(alloc, &cut, hold)?;
    let all = tree.all(alloc, held)?;
    for number in 0..cut.count() {
        let tail = tree.start(held, number);
        let wanted = number_of(hold.playable(held), &cut.queue(number), usize::from(pieces));
        if tree.hand(tail) != wanted || !all.has(tail) {
            return Ok(false);
        }
    }
    Ok(all.numbers(alloc)?.len() == cut.count() as usize)
}

/// Patterns, what is held, and to how many pieces they are cut: within an element, behind one, or to more than a queue
/// has. One has a state whose tails are not listed.
const QUEUES: &[(&str, Hold, Option<Piece>, u8)] = &[
    ("", Hold::Allowed, Some(Piece::T), 1),
    ("", Hold::Allowed, None, 2),
    ("*p2,T,[LJ]", Hold::Allowed, None, 3),
    ("*p2,[TIO]p2", Hold::Allowed, Some(Piece::S), 2),
    ("*p2,[TIO]p2", Hold::Avoided, Some(Piece::S), 1),
    ("[TIO]p3,*p2", Hold::Avoided, None, 5),
    ("*p4,*p3", Hold::Allowed, Some(Piece::Z), 7),
];

#[test]
fn tails_of_all_queues(rt: HostRuntime) {
    for (text, hold, held, pieces) in QUEUES {
        let is_so = has_queues(rt.alloc(), text, *hold, *held, *pieces);
        assert!(rt; is_so == Ok(true), "{text}");
    }
}

/// How many tails a pattern has, how many rests are left of them if a T is taken, and from how many tails it can't be
/// taken.
fn count_rests(
    alloc: Global,
    text: &str,
    hold: Hold,
) -> Result<Option<(usize, usize, usize)>, NoMemory> {
    let Ok(pattern) = Pattern::parse(text) else {
        return Ok(None);
    };
    if pattern.len() > 20 {
        return Ok(None);
    }
    let tree = TailTree::new(alloc, &pattern, hold)?;
    let all = tree.all(alloc, None)?;
    let count = all.numbers(alloc)?.len();
    let rests = all.rests_of(alloc, &tree, Piece::T)?;
    let others = all.not_leading_to(alloc, &tree, Piece::T, &rests)?;
    let left = rests.numbers(alloc)?.len();
    Ok(Some((count, left, others.numbers(alloc)?.len())))
}

#[test]
fn rests_of_tails(rt: HostRuntime) {
    // Of the orders of three pieces, 30 begin with a T and 30 have it behind the first.
    let counts = count_rests(rt.alloc(), "*p3", Hold::Avoided);
    assert!(rt; counts == Ok(Some((210, 30, 180))));
    // Both leave the same 30 pairs, since the T is drawn and the other piece is held.
    let counts = count_rests(rt.alloc(), "*p3", Hold::Allowed);
    assert!(rt; counts == Ok(Some((210, 30, 150))));
    // A T is first or second in two of seven orders of a bag. The one behind the bag can't be taken yet.
    let counts = count_rests(rt.alloc(), "*p7,T", Hold::Allowed);
    assert!(rt; counts == Ok(Some((5040, 720, 3600))));
}
