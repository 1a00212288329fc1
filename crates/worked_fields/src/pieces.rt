// Values of the Super Rotation System: names, cells, kicks, canonical placements and the order of placements.
ghost use Rattle.std.specs.Prelude.{◌≡◌};

use srs::{Offset, Piece, Placement, Rotation, Rules, canonical, cells, compare, is_inside, kick};
use std::cmp::Ordering;

fn placement(piece: Piece, rotation: Rotation, x: u8, y: u8) -> Placement
    ensures { result ≡ record { piece = piece; rotation = rotation; x = x; y = y } }
{
    Placement {
        piece,
        rotation,
        x,
        y,
    }
}

fn clockwise_kicks(piece: Piece, from: Rotation) -> [(i8, i8); 5] {
    let rules = Rules::srs();
    let to = from.clockwise();
    let pair = |offset: Offset| (offset.dx, offset.dy);
    [
        pair(kick(&rules, piece, from, to, 1)),
        pair(kick(&rules, piece, from, to, 2)),
        pair(kick(&rules, piece, from, to, 3)),
        pair(kick(&rules, piece, from, to, 4)),
        pair(kick(&rules, piece, from, to, 5)),
    ]
}

/// Codes of pieces.
const CODES: &[(u8, Option<Piece>)] = &[(5, Some(Piece::T)), (0, None), (8, None)];

/// Letters of pieces, small ones too.
const LETTERS: &[(u8, Option<Piece>)] = &[
    (b'J', Some(Piece::J)),
    (b'z', Some(Piece::Z)),
    (b'x', None),
];

#[test]
fn pieces_have_codes_and_letters(rt: HostRuntime) {
    assert!(rt; Piece::ALL.map(|piece| piece.code()) == [1, 2, 3, 4, 5, 6, 7]);
    assert!(rt; Piece::ALL.map(|piece| piece.letter()) == *b"ILOZTJS");
}

#[test]
fn pieces_of_codes_and_letters(rt: HostRuntime) {
    for (code, piece) in CODES {
        assert!(rt; Piece::from_code(*code) == *piece, "{code}");
    }
    for (letter, piece) in LETTERS {
        assert!(rt; Piece::from_letter(*letter) == *piece, "{letter}");
    }
}

#[test]
fn rotations_have_letters_and_neighbours(rt: HostRuntime) {
    assert!(rt; Rotation::ALL.map(|rotation| rotation.letter()) == *b"0R2L");
    assert!(rt; Rotation::ALL.map(|rotation| rotation.index()) == [0, 1, 2, 3]);
    assert!(rt; Rotation::from_letter(b'2') == Some(Rotation::Reverse));
    assert!(rt; Rotation::from_letter(b'l') == None);
    assert!(rt; Rotation::Left.clockwise() == Rotation::Spawn);
    assert!(rt; Rotation::Spawn.anticlockwise() == Rotation::Left);
}

#[test]
fn cells_lie_about_the_pivot(rt: HostRuntime) {
    let appearing = placement(Piece::T, Rotation::Spawn, 4, 20);
    assert!(rt; cells(&appearing) == [(3, 20), (4, 20), (5, 20), (4, 21)]);
    assert!(rt; is_inside(&appearing));
    let left = placement(Piece::I, Rotation::Left, 0, 0);
    assert!(rt; cells(&left) == [(0, -1), (0, 0), (0, 1), (0, 2)]);
    assert!(rt; !is_inside(&left));
}

#[test]
fn kicks_are_those_of_the_table(rt: HostRuntime) {
    let of_t = clockwise_kicks(Piece::T, Rotation::Spawn);
    assert!(rt; of_t == [(0, 0), (-1, 0), (-1, 1), (0, -2), (-1, -2)]);
    let of_i = clockwise_kicks(Piece::I, Rotation::Spawn);
    assert!(rt; of_i == [(1, 0), (-1, 0), (2, 0), (-1, -1), (2, 2)]);
}

/// Placements with the pivot at (5, 3), and those with the same cells and the earliest rotation.
const MOVED: &[(Piece, Rotation, Rotation, u8, u8)] = &[
    (Piece::I, Rotation::Reverse, Rotation::Spawn, 4, 3),
    (Piece::I, Rotation::Left, Rotation::Right, 5, 4),
    (Piece::O, Rotation::Right, Rotation::Spawn, 5, 2),
    (Piece::O, Rotation::Reverse, Rotation::Spawn, 4, 2),
    (Piece::O, Rotation::Left, Rotation::Spawn, 4, 3),
    (Piece::S, Rotation::Reverse, Rotation::Spawn, 5, 2),
    (Piece::S, Rotation::Left, Rotation::Right, 4, 3),
    (Piece::Z, Rotation::Reverse, Rotation::Spawn, 5, 2),
    (Piece::Z, Rotation::Left, Rotation::Right, 4, 3),
    (Piece::T, Rotation::Left, Rotation::Left, 5, 3),
];

fn is_canonical(placement: &Placement, earliest: &Placement) -> bool {
    placement.x == 5
        && placement.y == 3
        && is_inside(placement)
        && canonical(placement) == *earliest
}

#[test]
fn canonical_takes_the_earliest_rotation(rt: HostRuntime) {
    for (piece, from, to, x, y) in MOVED {
        let earliest = placement(*piece, *to, *x, *y);
        assert!(rt;
            is_canonical(&placement(*piece, *from, 5, 3), &earliest),
            "{earliest:?}"
        );
    }
}

#[test]
fn rows_are_compared_before_columns(rt: HostRuntime) {
    let first = placement(Piece::L, Rotation::Spawn, 8, 0);
    let second = placement(Piece::L, Rotation::Reverse, 7, 1);
    assert!(rt; compare(&first, &second) == Ordering::Less);
    let high = placement(Piece::L, Rotation::Spawn, 2, 1);
    assert!(rt; compare(&high, &first) == Ordering::Greater);
    assert!(rt; compare(&high, &high) == Ordering::Equal);
}

#[test]
fn a_changed_table_is_not_that_of_srs(rt: HostRuntime) {
    let rules = Rules::srs();
    assert!(rt; rules.is_srs());
    let changed = rules.with_offset(Piece::T, Rotation::Right, 2, Offset { dx: 0, dy: 3 });
    assert!(rt; !changed.is_srs());
    assert!(rt; changed.offset(Piece::T, Rotation::Right, 2) == Offset { dx: 0, dy: 3 });
    assert!(rt; changed.offset(Piece::T, Rotation::Right, 3) == Offset { dx: 1, dy: -1 });
}
