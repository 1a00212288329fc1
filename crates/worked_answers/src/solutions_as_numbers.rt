// The solutions of one pattern as numbers, in enough room and in too little, and after given ones.
ghost use Rattle.std.specs.Prelude.{◌≡◌, ◌<◌};

use crate::questions::{is_so, one_row};
use pc_settings::{Format, PathSettings};
use pc_solutions::{Refusal, Written, write_solutions};
use reach::Steps;
use std::alloc::Global;
use std::marker::Brand;
use std::sync::ledger::{Blank, Ledger};

/// Lists how an `I` clears one row, after the solution with these numbers.
fn listed<L: Ledger>(
    alloc: Global,
    blank: Blank,
    after: &[u8],
    placements: &mut [u8],
) -> Result<Written, Refusal>
    requires name { blank.name ≡ L.name }
    requires parts { blank.parts ≡ L.parts }
    requires some { 0 < blank.parts }
{
    let settings = PathSettings {
        common: one_row("I"),
        after: None,
        limit: 1000,
        keys: false,
        format: Format::Text,
        stats: false,
    };
    let mut steps = Steps::<L>::new(blank);
    write_solutions(alloc, &settings, &[], after, placements, &mut steps)
}

/// An `I` as it spawns, with its pivot in column 7 of row 0.
const SOLUTION: [u8; 4] = [1, 0, 7, 0];

#[test]
fn a_list_that_fills_the_room_may_go_on(rt: HostRuntime) {
    let mut placements = [0xa5; 4];
    let found = listed::<Brand>(rt.alloc(), Blank::new(1), &[], &mut placements);
    let told =
        matches!(found, Ok(written) if written.count == 1 && written.size == 4 && !written.ended);
    is_so(&rt, told, "one solution, and maybe more");
    is_so(&rt, placements == SOLUTION, "its numbers");
}

#[test]
fn a_list_with_room_for_more_has_ended(rt: HostRuntime) {
    let mut placements = [0xa5; 8];
    let found = listed::<Brand>(rt.alloc(), Blank::new(1), &[], &mut placements);
    let told =
        matches!(found, Ok(written) if written.count == 1 && written.size == 4 && written.ended);
    is_so(&rt, told, "one solution, and no more");
    let is_left = placements == [1, 0, 7, 0, 0xa5, 0xa5, 0xa5, 0xa5];
    is_so(&rt, is_left, "its numbers, and bytes that are left alone");
}

#[test]
fn no_solution_comes_after_the_last(rt: HostRuntime) {
    let mut placements = [0xa5; 4];
    let found = listed::<Brand>(rt.alloc(), Blank::new(1), &SOLUTION, &mut placements);
    let told =
        matches!(found, Ok(written) if written.count == 0 && written.size == 0 && written.ended);
    is_so(&rt, told, "none");
    is_so(&rt, placements == [0xa5; 4], "bytes that are left alone");
}

#[test]
fn a_solution_needs_room_for_its_numbers(rt: HostRuntime) {
    let mut placements = [0xa5; 3];
    let found = listed::<Brand>(rt.alloc(), Blank::new(1), &[], &mut placements);
    is_so(
        &rt,
        matches!(found, Err(Refusal::NoRoom)),
        "too little room",
    );
    is_so(&rt, placements == [0xa5; 3], "bytes that are left alone");
}

#[test]
fn numbers_of_no_sequence_are_refused(rt: HostRuntime) {
    let mut placements = [0xa5; 4];
    let found = listed::<Brand>(rt.alloc(), Blank::new(1), &[1, 0, 7], &mut placements);
    is_so(
        &rt,
        matches!(found, Err(Refusal::NoSequence)),
        "three numbers",
    );
    is_so(&rt, placements == [0xa5; 4], "bytes that are left alone");
}
