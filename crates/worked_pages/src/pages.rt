// Each call once, on texts written by hand and by other programs.
use fumen_digits::{Dialect, FumenFault};
use fumen_pages::{
    Action, ActionFault, CellsFault, CellsRead, Page, action_number, is_inside, mark, next_cells,
    read_action, read_cells, read_page, write_cells,
};
use pc_outside::Refused;
use srs::{Piece, Placement, Rotation};
use std::alloc::Global;

/// The last rows of a page, the garbage row among them: a T fell into the gap of row 0.
const LEFT: [u8; 30] = [
    0, 0, 0, 0, 0, 5, 0, 0, 0, 0, 8, 0, 8, 8, 8, 8, 8, 8, 8, 8, 0, 0, 0, 0, 0, 0, 0, 0, 0, 0,
];

/// Records that keep the cells of an empty page.
const UNCHANGED: &[(&[u8], Dialect)] = &[(b"vhAAgH", Dialect::V115), (b"7eAAgH", Dialect::V110)];

/// Records with a fault.
const FAULTS_OF_CELLS: &[(&[u8], Dialect, CellsFault)] = &[
    (b"lhvh", Dialect::V115, CellsFault::RunPastEnd { place: 2 }),
    (b"xel6", Dialect::V110, CellsFault::BadCell { place: 2 }),
    (b"lhJ", Dialect::V115, CellsFault::Truncated { place: 2 }),
];

/// An O that is turned and placed.
const TURNED: Action = Action {
    operation: Some(Placement {
        piece: Piece::O,
        rotation: Rotation::Left,
        x: 4,
        y: 0,
    }),
    rise: false,
    mirror: false,
    colour: true,
    lock: true,
    comment: false,
};

const ACTIONS: &[(Dialect, u32, Result<Action, ActionFault>)] = &[
    (Dialect::V115, 37_563, Ok(TURNED)),
    (Dialect::V110, 225_280, Err(ActionFault::TooLarge)),
    (Dialect::V115, 225_281, Err(ActionFault::Outside)),
];

const LINE: Placement = Placement {
    piece: Piece::I,
    rotation: Rotation::Right,
    x: 9,
    y: 2,
};

const SPAWNED: Placement = Placement {
    piece: Piece::T,
    rotation: Rotation::Spawn,
    x: 4,
    y: 0,
};

/// `v115@vhAJHYaAkeEfEXoC+BlvlzByEEfE03k2AlP5ABwvDfE`, from another program.
const COMMENTED: &[u8] = b"vhAJHYaAkeEfEXoC+BlvlzByEEfE03k2AlP5ABwvDfE";

/// The cells that the page of these digits leaves, if the digits end with it.
fn left_by(alloc: Global, digits: &[u8]) -> Option<[u8; 240]> {
    let read = read_cells(digits, 0, Dialect::V115, &[0; 240]).ok()?;
    let (page, end) = read_page(alloc, digits, read.place, Dialect::V115, &read.cells, 1).ok()?;
    if end != digits.len() {
        return None;
    }
    Some(next_cells(Dialect::V115, &page))
}

/// A T in the gap of row 0, over a garbage row with one gap. The page rises and is mirrored.
#[test]
fn next_page(rt: HostRuntime) {
    let left = left_by(rt.alloc(), b"bhC8CeL8AeA8V4O").expect(&rt, "a page");
    assert!(rt; left.ends_with(&LEFT));
}

/// The record of the cells that these digits begin with, behind an `x`.
fn written_again(alloc: Global, digits: &[u8]) -> Option<Vec<u8>> {
    let read = read_cells(digits, 0, Dialect::V115, &[0; 240]).ok()?;
    let mut out = b"x".to_vec(alloc).ok()?;
    write_cells(&mut out, Dialect::V115, &[0; 240], &read.cells).ok()?;
    Some(out)
}

#[test]
fn written_cells(rt: HostRuntime) {
    let out = written_again(rt.alloc(), b"bhC8CeL8AeA8").expect(&rt, "cells");
    assert!(rt; out.as_slice() == b"xbhC8CeL8AeA8".as_slice());
}

/// The number of the action of the page that these digits begin with.
fn action_in(alloc: Global) -> Option<u32> {
    let digits = b"vhAV4O";
    let read = read_cells(digits, 0, Dialect::V115, &[0; 240]).ok()?;
    let (page, _) = read_page(alloc, digits, 3, Dialect::V115, &read.cells, 1).ok()?;
    Some(action_number(Dialect::V115, &page))
}

#[test]
fn written_action(rt: HostRuntime) {
    assert!(rt; action_in(rt.alloc()) == Some(60_949));
}

fn count_of(marks: &[u8; 240], mark: u8) -> usize {
    marks.iter().filter(|cell| **cell == mark).count()
}

#[test]
fn marked_cells(rt: HostRuntime) {
    assert!(rt; is_inside(Dialect::V115, &LINE));
    assert!(rt; !is_inside(Dialect::V110, &Placement { y: 20, ..LINE }));
    assert!(rt; !is_inside(Dialect::V115, &Placement { x: 200, ..LINE }));
    let mut cells = [b'_'; 240];
    mark(&mut cells, &LINE, b'i');
    assert!(rt; count_of(&cells, b'i') == 4 && cells[199] == b'i' && cells[229] == b'i');
}

/// Reads a record, where the page before leaves no cells.
fn read_first(digits: &[u8], dialect: Dialect) -> Result<CellsRead, CellsFault> {
    match dialect {
        Dialect::V110 => read_cells(digits, 0, Dialect::V110, &[0; 240]),
        Dialect::V115 => read_cells(digits, 0, Dialect::V115, &[0; 240]),
    }
}

#[test]
fn records_of_unchanged_cells(rt: HostRuntime) {
    let unchanged = CellsRead {
        cells: [0; 240],
        place: 2,
        unchanged: true,
    };
    for (digits, dialect) in UNCHANGED {
        assert!(rt; read_first(digits, *dialect) == Ok(unchanged), "{digits:?}");
    }
}

#[test]
fn the_record_of_a_grey_row(rt: HostRuntime) {
    let mut cells = [0; 240];
    cells[230..].copy_from_slice(&[8; 10]);
    let grey = CellsRead {
        cells,
        place: 4,
        unchanged: false,
    };
    assert!(rt; read_first(b"lhJ8AgH", Dialect::V115) == Ok(grey));
}

#[test]
fn faults_of_records(rt: HostRuntime) {
    for (digits, dialect, fault) in FAULTS_OF_CELLS {
        assert!(rt; read_first(digits, *dialect) == Err(*fault), "{digits:?}");
    }
}

#[test]
fn actions(rt: HostRuntime) {
    for (dialect, number, action) in ACTIONS {
        assert!(rt; read_action(*dialect, *number) == *action, "{number}");
    }
}

/// Whether a page has this operation, and of the flags those of the colour and the lock alone.
fn is_placed(page: &Page, operation: Placement) -> bool {
    page.operation == Some(operation) && page.colour && page.lock && !page.rise && !page.mirror
}

#[test]
fn a_page_of_21_rows(rt: HostRuntime) {
    let read = read_page(rt.alloc(), b"7eAVeI", 3, Dialect::V110, &[0; 240], 1);
    let (page, end) = read.expect(&rt, "a page");
    assert!(rt; is_placed(&page, SPAWNED) && end == 6);
}

#[test]
fn a_piece_outside_the_page(rt: HostRuntime) {
    let read = read_page(rt.alloc(), b"7eA//2", 3, Dialect::V110, &[0; 240], 7);
    assert!(rt; read.err() == Some(Refused::Fault(FumenFault::PieceOutside { page: 7 })));
}

fn has_comment(page: &Page, units: &[u16]) -> bool {
    match &page.comment {
        Some(comment) => comment.units() == units,
        None => false,
    }
}

#[test]
fn a_page_with_a_comment(rt: HostRuntime) {
    let read = read_page(rt.alloc(), COMMENTED, 3, Dialect::V115, &[0; 240], 1);
    let (page, end) = read.expect(&rt, "a page");
    assert!(rt; has_comment(&page, &[0x44, 0x54, 0x70AE, 0x7B2C, 0x4E00, 0x5305]));
    assert!(rt; end == COMMENTED.len());
}
