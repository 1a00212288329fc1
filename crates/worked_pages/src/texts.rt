// Whole texts, checked with fumens written by hand.
use fumen_comment::Comment;
use fumen_digits::Dialect;
use fumen_pages::Page;
use fumen_text::{EncodeFault, FumenFault, decode, encode};
use pc_outside::Refused;
use srs::{Piece, Placement, Rotation};
use std::alloc::Global;

/// A T in the middle of the bottom row.
const MIDDLE: Placement = Placement {
    piece: Piece::T,
    rotation: Rotation::Spawn,
    x: 4,
    y: 0,
};

const FAULTS: &[(&[u8], FumenFault)] = &[
    (b"hello", FumenFault::NoFumen),
    (b"v115@vhAAg", FumenFault::Truncated { place: 3 }),
    (b"v115@vh-AgH", FumenFault::BadDigit { place: 2 }),
    (b"v115@bhbhAgH", FumenFault::RunPastEnd { place: 2 }),
    (b"v115@/dAgH", FumenFault::BadCell { place: 0 }),
    (b"v115@vhA///", FumenFault::BadAction { place: 3 }),
    (b"v115@vhAVOJ", FumenFault::PieceOutside { page: 1 }),
    (b"v115@vhAAgWBA/////", FumenFault::BadComment { place: 8 }),
    (b"v115@vhBAgH", FumenFault::Truncated { place: 6 }),
    (b"v110@7eAAA3", FumenFault::BadAction { place: 3 }),
    (b"v110@7eA//2", FumenFault::PieceOutside { page: 1 }),
];

/// Texts, and their pages written in their own dialect or in the other one.
const WRITTEN: &[(&[u8], Dialect, &[u8])] = &[
    (b"v115@vhBVQJAAA", Dialect::V115, b"v115@vhBVQJAAA"),
    (b"v115@bhF8NexRJ", Dialect::V115, b"v115@bhF8NexRJ"),
    (
        b"v115@vhAAgWFAooMDEPBAAA",
        Dialect::V115,
        b"v115@vhAAgWFAooMDEPBAAA",
    ),
    (b"v110@7eAVeI", Dialect::V110, b"v110@7eAVeI"),
    (b"v110@7eAVeI", Dialect::V115, b"v115@vhAVQJ"),
];

/// Cells of row 22 of a second page: grey is too high for 21 rows, and 9 is no colour.
const FAULTY_CELLS: &[(u8, EncodeFault)] = &[
    (8, EncodeFault::RowTooHigh { page: 2 }),
    (9, EncodeFault::BadCell { page: 2 }),
];

#[test]
fn no_pages(rt: HostRuntime) {
    let (dialect, pages) = decode(rt.alloc(), b"v110@").expect(&rt, "no pages");
    assert!(rt; dialect == Dialect::V110 && pages.is_empty());
}

fn is_middle(page: &Page) -> bool {
    page.operation == Some(MIDDLE) && page.colour && page.lock
}

/// Whether a page without an operation has the cells of the T in the middle.
fn has_middle(page: &Page) -> bool {
    page.operation == None
        && page.cells[214] == 5
        && page.cells[220..230] == [0, 0, 0, 5, 5, 5, 0, 0, 0, 0]
}

#[test]
fn promised_page(rt: HostRuntime) {
    let text = b"http://fumen.zui.jp/?v115@vhB?VQJ AAA&x=1";
    let (dialect, pages) = decode(rt.alloc(), text).expect(&rt, "two pages");
    assert!(rt; dialect == Dialect::V115 && pages.len() == 2);
    assert!(rt; is_middle(&pages[0]) && has_middle(&pages[1]));
}

fn is_faulty(alloc: Global, text: &[u8], fault: FumenFault) -> bool {
    decode(alloc, text).err() == Some(Refused::Fault(fault))
}

#[test]
fn faults(rt: HostRuntime) {
    for (text, fault) in FAULTS {
        assert!(rt; is_faulty(rt.alloc(), text, *fault), "{text:?}");
    }
}

/// The pages of a text, written in a dialect. Their own dialect is the first of the pair.
fn written(alloc: Global, text: &[u8], dialect: Dialect) -> Option<(Dialect, Vec<u8>)> {
    let (own, pages) = decode(alloc, text).ok()?;
    let again = encode(alloc, dialect, &pages).ok()?;
    Some((own, again))
}

fn is_written(alloc: Global, text: &[u8], dialect: Dialect, again: &[u8]) -> bool {
    match written(alloc, text, dialect) {
        Some((own, found)) => found.as_slice() == again && (own == dialect) == (text == again),
        None => false,
    }
}

#[test]
fn written_again(rt: HostRuntime) {
    for (text, dialect, again) in WRITTEN {
        assert!(rt; is_written(rt.alloc(), text, *dialect, again), "{text:?}");
    }
}

/// Whether the second of these pages is refused with this cell in row 22.
fn is_refused(alloc: Global, pages: &mut [Page], cell: u8, fault: EncodeFault) -> bool {
    if let [_, page] = pages {
        page.cells[0] = cell;
    }
    encode(alloc, Dialect::V110, pages).err() == Some(Refused::Fault(fault))
}

#[test]
fn refused(rt: HostRuntime) {
    let (_, mut pages) = decode(rt.alloc(), b"v115@vhBVQJAAA").expect(&rt, "two pages");
    for (cell, fault) in FAULTY_CELLS {
        assert!(rt; is_refused(rt.alloc(), &mut pages, *cell, *fault), "{cell}");
    }
    if let [page, _] = pages.as_mut_slice() {
        page.operation = Some(Placement { y: 20, ..MIDDLE });
    }
    let outside = EncodeFault::PieceOutside { page: 1 };
    assert!(rt; is_refused(rt.alloc(), &mut pages, 9, outside));
}

/// What is written for these pages after the only one got a comment of these units.
fn commented(
    alloc: Global,
    pages: &mut [Page],
    units: Vec<u16>,
) -> Result<Vec<u8>, Refused<EncodeFault>> {
    if let [page] = pages {
        page.comment = Some(Comment::from_units(units));
    }
    encode(alloc, Dialect::V115, pages)
}

#[test]
fn long_comment(rt: HostRuntime) {
    let (_, mut pages) = decode(rt.alloc(), b"v115@vhAAgH").expect(&rt, "a page");
    let units = [0x61u16; 4096].to_vec(rt.alloc()).expect(&rt, "memory");
    let written = commented(rt.alloc(), &mut pages, units);
    assert!(rt; written.err() == Some(Refused::Fault(EncodeFault::CommentTooLong { page: 1 })));
    let units = [0x61u16; 4095].to_vec(rt.alloc()).expect(&rt, "memory");
    assert!(rt; commented(rt.alloc(), &mut pages, units).is_ok());
}
