// The line of a page, printed, and lines that are read.
ghost use Rattle.std.specs.Prelude.{◌≡◌, ◌<◌, ◌≤◌, All};
ghost use Rattle.fumen_pages.specs.Cells.{IsColour};

use fumen_comment::Comment;
use fumen_pages::Page;
use page_list::{ListFault, ListKind, parse, print_page};
use pc_outside::{NoMemory, Refused};
use srs::{Piece, Placement, Rotation};
use std::alloc::Global;

/// Texts, and their first line with a fault.
const FAULTS: &[(&[u8], u32, ListKind)] = &[
    (b"| - --cl -\n\n", 2, ListKind::BadLine),
    (b"| - --cl", 1, ListKind::BadLine),
    (b"| -  --cl -", 1, ListKind::BadLine),
    (b"___________| T0:4,23 --cl -", 1, ListKind::BadCells),
    (b"| T0:4,23 --cl -", 1, ListKind::BadOperation),
    (b"| T0:4,00 --cl -", 1, ListKind::BadOperation),
    (b"| - --lc -", 1, ListKind::BadFlags),
    (b"| - --cl -\r", 1, ListKind::BadComment),
];

/// These cells, with a colour for one of them.
fn with(mut cells: [u8; 240], index: usize, colour: u8) -> [u8; 240]
    requires cells { All IsColour cells }
    requires index { index < 240 }
    requires colour { colour ≤ 8 }
    ensures { All IsColour result }
{
    cells[index] = colour;
    cells
}

/// A page on which a T rises, with a comment.
fn rising(cells: [u8; 240], comment: Comment) -> Page
    ensures { result.cells ≡ cells }
{
    Page {
        cells,
        operation: Some(Placement {
            piece: Piece::T,
            rotation: Rotation::Spawn,
            x: 4,
            y: 20,
        }),
        rise: true,
        mirror: false,
        colour: false,
        lock: true,
        comment: Some(comment),
    }
}

/// The line of a page with these cells.
fn printed(alloc: Global, cells: [u8; 240]) -> Result<Vec<u8>, NoMemory>
    requires { All IsColour cells }
{
    let comment = Comment::from_units(vec![in alloc; 65, 37]?);
    print_page(alloc, &rising(cells, comment))
}

#[test]
fn rows_stand_from_the_highest_coloured_one_down(rt: HostRuntime) {
    let cells = with(with([0; 240], 220, 8), 239, 1);
    let line = printed(rt.alloc(), cells).expect(&rt, "memory");
    assert!(rt; line.as_slice() == b"X_________|_________I T0:4,20 r--l #A%25\n".as_slice());
}

/// Whether there are two pages, the first of which is this one and the second mirrored.
fn is_page_and_mirrored(pages: &[Page], first: &Page) -> bool {
    match pages {
        [page, mirrored] => page == first && mirrored.mirror,
        _ => false,
    }
}

#[test]
fn a_page_is_read_from_its_line(rt: HostRuntime) {
    let text = b"__________/X_________|_________I T0:4,20 r--l #A%25\r\n| - -m-- -";
    let pages = parse(rt.alloc(), text).expect(&rt, "pages");
    let cells = with(with([0; 240], 220, 8), 239, 1);
    let units = [65, 37].to_vec(rt.alloc()).expect(&rt, "memory");
    let page = rising(cells, Comment::from_units(units));
    assert!(rt; is_page_and_mirrored(&pages, &page));
}

#[test]
fn no_line_is_no_page(rt: HostRuntime) {
    let pages = parse(rt.alloc(), b"").expect(&rt, "pages");
    assert!(rt; pages.is_empty());
}

fn is_faulty(alloc: Global, text: &[u8], line: u32, kind: ListKind) -> bool {
    parse(alloc, text).err() == Some(Refused::Fault(ListFault { line, kind }))
}

#[test]
fn the_first_line_with_a_fault_is_named(rt: HostRuntime) {
    for (text, line, kind) in FAULTS {
        assert!(rt; is_faulty(rt.alloc(), text, *line, *kind), "{text:?}");
    }
}
