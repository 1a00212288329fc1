// Floods of the empty well, and of a well in which the spawn is not free.
ghost use Rattle.std.specs.Prelude.{◌≡◌, ◌<◌};
ghost use Rattle.place_sets.specs.Places.{piece_of};

use moves::DropMode;
use reach::{Places, Steps, places};
use srs::{Piece, Placement, Rotation, Rules};
use std::marker::Brand;
use std::sync::ledger::{Blank, Ledger};
use well::Well;

fn held<L: Ledger>(blank: Blank, well: &Well, piece: Piece, mode: DropMode) -> Places
    requires name { blank.name ≡ L.name }
    requires parts { blank.parts ≡ L.parts }
    requires some { 0 < blank.parts }
    ensures { piece_of result ≡ piece }
{
    let mut steps = Steps::<L>::new(blank);
    places(well, &Rules::srs(), piece, mode, &mut steps)
}

/// What is held for a piece over a well, with a ledger of its own.
fn flooded(well: &Well, piece: Piece, mode: DropMode) -> Places
    ensures { piece_of result ≡ piece }
{
    held::<Brand>(Blank::new(1), well, piece, mode)
}

fn placed(piece: Piece, rotation: Rotation, x: u8, y: u8) -> Placement
    ensures { result.piece ≡ piece }
{
    Placement {
        piece,
        rotation,
        x,
        y,
    }
}

fn count(held: &Places) -> u8 {
    let mut last: Option<Placement> = None;
    for number in 0..255 {
        match held.next_after(last.as_ref()) {
            None => return number,
            Some(next) => last = Some(next),
        }
    }
    255
}

#[test]
fn a_straight_piece_in_an_empty_well(rt: HostRuntime) {
    let held = flooded(&Well::empty(), Piece::I, DropMode::Hard);
    let first = placed(Piece::I, Rotation::Spawn, 1, 0);
    assert!(rt; held.next_after(None) == Some(first));
    let flat = placed(Piece::I, Rotation::Spawn, 7, 0);
    let upright = placed(Piece::I, Rotation::Right, 0, 2);
    assert_eq!(rt; held.next_after(Some(&flat)), Some(upright));
    let last = placed(Piece::I, Rotation::Right, 9, 2);
    assert_eq!(rt; held.next_after(Some(&last)), None);
    assert!(rt; count(&held) == 17);
}

#[test]
fn how_many_places_an_empty_well_has(rt: HostRuntime) {
    let well = Well::empty();
    assert!(rt; count(&flooded(&well, Piece::T, DropMode::Soft)) == 34);
    assert!(rt; count(&flooded(&well, Piece::O, DropMode::Hard)) == 9);
}

#[test]
fn none_where_the_spawn_is_not_free(rt: HostRuntime) {
    let well = Well::empty().with(4, 20);
    let held = flooded(&well, Piece::T, DropMode::Soft);
    assert!(rt; held.next_after(None) == None);
}

fn taken(held: Places) -> u8 {
    let mut held = held;
    for number in 0..255 {
        if held.take_least().is_none() {
            return number;
        }
    }
    255
}

#[test]
fn the_least_is_taken_until_none_is_left(rt: HostRuntime) {
    let held = flooded(&Well::empty(), Piece::T, DropMode::Soft);
    assert!(rt; taken(held) == 34 && taken(held.below(2)) == 16);
}

#[test]
fn a_low_field_and_one_with_a_cell_far_above(rt: HostRuntime) {
    let well = Well::empty().with(0, 0).with(2, 1).with(3, 7);
    let high = well.with(0, 22);
    let low_held = flooded(&well, Piece::J, DropMode::Soft);
    let high_held = flooded(&high, Piece::J, DropMode::Soft);
    assert!(rt; taken(low_held) == taken(high_held));
}
