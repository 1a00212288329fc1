// Keys on the two rows `XXXXXX____/XXXXXX____`.
ghost use Rattle.std.specs.Prelude.{◌≡◌};

use moves::{DropMode, Key, fall, spawn, step};
use srs::{Piece, Placement, Rotation, Rules};
use well::Well;

/// An L with its pivot at this cell.
fn l_piece(rotation: Rotation, x: u8, y: u8) -> Placement
    ensures x { result.x ≡ x }
    ensures y { result.y ≡ y }
{
    Placement {
        piece: Piece::L,
        rotation,
        x,
        y,
    }
}

#[test]
fn a_turn_goes_under_an_overhang(rt: HostRuntime) {
    let rows = Well::from_rows(b"XXXXXX____/XXXXXX____").expect(&rt, "a rows text");
    let overhang = l_piece(Rotation::Reverse, 7, 1);
    assert!(rt; rows.is_free(&overhang));
    let (well, _) = rows.lock(&overhang);
    let state = l_piece(Rotation::Left, 9, 1);
    assert!(rt; well.is_free(&state));
    let next = step(&well, &Rules::srs(), &state, Key::Clockwise);
    assert!(rt; next == Some(l_piece(Rotation::Spawn, 8, 0)));
}

/// Keys, and where they move an L that appears: its rotation and its pivot.
const MOVES: &[(Key, Rotation, u8, u8)] = &[
    (Key::Left, Rotation::Spawn, 3, 20),
    (Key::Right, Rotation::Spawn, 5, 20),
    (Key::Down, Rotation::Spawn, 4, 19),
    (Key::Clockwise, Rotation::Right, 4, 20),
    (Key::Anti, Rotation::Left, 4, 20),
];

#[test]
fn keys_move_by_one(rt: HostRuntime) {
    let well = Well::from_rows(b"XXXXXX____/XXXXXX____").expect(&rt, "a rows text");
    let rules = Rules::srs();
    let state = spawn(Piece::L);
    assert!(rt; well.is_free(&state));
    assert!(rt; fall(&well, &state) == l_piece(Rotation::Spawn, 4, 2));
    for (key, rotation, x, y) in MOVES {
        let next = l_piece(*rotation, *x, *y);
        assert!(rt; step(&well, &rules, &state, *key) == Some(next), "{next:?}");
    }
}

#[test]
fn no_key_moves_through_the_wall(rt: HostRuntime) {
    let well = Well::from_rows(b"XXXXXX____/XXXXXX____").expect(&rt, "a rows text");
    let wall = l_piece(Rotation::Spawn, 8, 2);
    assert!(rt; well.is_free(&wall));
    assert!(rt; step(&well, &Rules::srs(), &wall, Key::Right) == None);
}

#[test]
fn keys_have_letters(rt: HostRuntime) {
    assert!(rt; Key::ALL.map(Key::letter) == *b"LRDCA");
    assert!(rt; DropMode::Soft.allows(Key::Down) && !DropMode::Hard.allows(Key::Down));
}
