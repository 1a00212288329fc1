// Each call once, and a table of rows texts.
use lane_board::LaneBoard;
use srs::{Piece, Placement, Rotation};
use well::{RowsFault, Well};

/// Rows texts that are refused, each with its fault.
const REFUSED: &[(&str, RowsFault)] = &[
    ("XXXXXX___", RowsFault::BadRowLength { row: 1 }),
    ("XXXXXX_____", RowsFault::BadRowLength { row: 1 }),
    ("/", RowsFault::BadRowLength { row: 1 }),
    ("XXXXXX____/", RowsFault::BadRowLength { row: 2 }),
    ("XXXXXX____/X/?", RowsFault::BadRowLength { row: 2 }),
    ("?", RowsFault::BadRowChar { place: 0 }),
    ("XXXXXX____?", RowsFault::BadRowChar { place: 10 }),
    ("XXXXXX____/XXXXXX__ _", RowsFault::BadRowChar { place: 19 }),
    ("xxxxxx____\n", RowsFault::BadRowChar { place: 10 }),
];

fn is_refused(text: &str, fault: RowsFault) -> bool {
    Well::from_rows(text.as_bytes()).err() == Some(fault)
}

#[test]
fn rows_texts_are_refused(rt: HostRuntime) {
    for (text, fault) in REFUSED {
        assert!(rt; is_refused(text, *fault), "{text}");
    }
}

#[test]
fn rows_texts_have_23_rows_at_most(rt: HostRuntime) {
    let most = "__________/".repeat(rt.alloc(), 22).expect(&rt, "memory");
    let full = format!(in rt.alloc(); "{most}_________X").expect(&rt, "memory");
    let more = format!(in rt.alloc(); "{full}/").expect(&rt, "memory");
    let short = format!(in rt.alloc(); "{most}_________/").expect(&rt, "memory");
    assert!(rt; Well::from_rows(full.as_bytes()).is_ok_and(|well| well.cell(9, 0)));
    assert!(rt; is_refused(&more, RowsFault::TooManyRows));
    assert!(rt; is_refused(&short, RowsFault::BadRowLength { row: 23 }));
}

#[test]
fn rows_texts_begin_at_the_top(rt: HostRuntime) {
    let well = Well::from_rows(b"X._Li_____/OoZzTtJjSs").expect(&rt, "a rows text");
    let cells = Well::empty().with(0, 1).with(3, 1).with(4, 1).board();
    assert!(rt; well.board().minus(&cells).equal(&LaneBoard::rows_below(1)));
    assert!(rt; well.board().count() == 13);
    assert!(rt; Well::from_rows(b"").is_ok_and(|well| well.board().is_empty()));
}

#[test]
fn a_placement_locks(rt: HostRuntime) {
    let well = Well::from_rows(b"XXXXXX____/XXXXXX____").expect(&rt, "a rows text");
    let line = Placement {
        piece: Piece::I,
        rotation: Rotation::Spawn,
        x: 7,
        y: 0,
    };
    assert!(rt; well.is_free(&line));
    let (left, removed) = well.lock(&line);
    assert!(rt; removed == 1);
    assert!(rt; !left.is_free(&Placement { x: 5, ..line }));
    assert!(rt; left.empties_below(1) == 4 && well.empties_below(3) == 18);
}

#[test]
fn lowest_rows(rt: HostRuntime) {
    let well = Well::from_rows(b"XXXXXXXXXX/_____X____/XXXXXXXXXX/__________");
    let well = well.expect(&rt, "a rows text");
    assert!(rt; well.lowest_full() == Some(1) && Well::empty().lowest_full() == None);
    assert!(rt; well.lowest_filled_from(0) == Some(1));
    assert!(rt; well.lowest_filled_from(2) == Some(2));
    assert!(rt; well.lowest_filled_from(4) == None);
}
