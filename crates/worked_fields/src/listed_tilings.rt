// The tilings of small fields, and their pieces.
use empty_cells::Empties;
use pc_outside::NoMemory;
use srs::{Piece, Placement, Rotation};
use std::alloc::Global;
use tiled_pieces::{Lister, StandingPieces, TilingList};
use well::Well;

/// The empty cells of a field's four lowest rows.
fn low_empties(text: &[u8]) -> Option<Empties> {
    Some(Empties::below(&Well::from_rows(text).ok()?, 4))
}

/// How many tilings of the cells there are, with at most so many pieces of each kind. At most `most` are listed.
fn count(alloc: Global, cells: &Empties, supply: &[u8; 7], most: usize) -> Option<usize> {
    let list = Lister::new(alloc).tilings(alloc, cells, supply, most)?;
    Some(list.tilings.len())
}

/// A question of how many tilings there are: at most so many pieces of each kind, how many are listed at most, and the
/// answer.
type Case = ([u8; 7], usize, Option<usize>);

/// Whether these are the numbers of tilings of the cells.
fn has_counts(alloc: Global, cells: &Empties, cases: &[Case]) -> bool {
    for (supply, most, tilings) in cases {
        if count(alloc, cells, supply, *most) != *tilings {
            return false;
        }
    }
    true
}

/// Two rows of four: two I, two O, two L or two J.
const LOW: &[Case] = &[
    ([2; 7], 9, Some(4)),
    ([2; 7], 4, Some(4)),
    ([2; 7], 3, None),
    ([2, 1, 1, 2, 2, 1, 2], 9, Some(1)),
    ([1; 7], 9, Some(0)),
];

/// Two columns of four rows, as pieces may have rows between theirs.
const HIGH: &[Case] = &[
    ([2, 0, 0, 0, 0, 0, 0], 9, Some(1)),
    ([0, 0, 2, 0, 0, 0, 0], 9, Some(3)),
];

fn two_columns() -> Option<Empties> {
    low_empties(b"XXXXXXXX__/XXXXXXXX__/XXXXXXXX__/XXXXXXXX__")
}

#[test]
fn tilings_of_small_boxes(rt: HostRuntime) {
    let low = Well::from_rows(b"XXXXXX____/XXXXXX____").expect(&rt, "a rows text");
    assert!(rt; has_counts(rt.alloc(), &Empties::below(&low, 2), LOW));
    let high = two_columns().expect(&rt, "a rows text");
    assert!(rt; has_counts(rt.alloc(), &high, HIGH));
}

#[test]
fn nine_pieces_can_be_listed_and_ten_cannot(rt: HostRuntime) {
    let nine = low_empties(b"X_________/X_________/X_________/X_________");
    let nine = nine.expect(&rt, "a rows text");
    assert!(rt; count(rt.alloc(), &nine, &[9, 0, 0, 0, 0, 0, 0], 99) == Some(10));
    let ten = Empties::below(&Well::empty(), 4);
    assert!(rt; count(rt.alloc(), &ten, &[10, 0, 0, 0, 0, 0, 0], 99) == None);
}

#[test]
fn pieces_between_each_others_rows_have_no_order(rt: HostRuntime) {
    let supply = [0, 0, 2, 0, 0, 0, 0];
    let cells = two_columns().expect(&rt, "a rows text");
    let list = Lister::new(rt.alloc()).ordered_tilings(rt.alloc(), &cells, &supply, 9);
    assert!(rt; list.expect(&rt, "few tilings").tilings.len() == 2);
}

/// The empty cells of an opener.
fn opener() -> Option<Empties> {
    low_empties(b"XXXX____XX/XXXX___XXX/XXXX__XXXX/XXXX___XXX")
}

/// The one tiling of these cells by a T, an O and an I.
fn opener_tilings(alloc: Global) -> Option<TilingList> {
    let list = Lister::new(alloc).tilings(alloc, &opener()?, &[1, 0, 1, 0, 1, 0, 0], 9)?;
    if list.tilings.len() != 1 {
        return None;
    }
    Some(list)
}

/// The cells of its T.
fn cells_of_t() -> Option<Empties> {
    let placement = Placement {
        piece: Piece::T,
        rotation: Rotation::Right,
        x: 4,
        y: 1,
    };
    let cells = opener()?;
    Some(cells.without_cells(&cells.without(&placement)))
}

#[test]
fn tilings_with_a_piece(rt: HostRuntime) {
    let list = opener_tilings(rt.alloc()).expect(&rt, "few tilings");
    let t = cells_of_t().expect(&rt, "a rows text");
    assert!(rt; list.has(Piece::T, &t) && !list.has(Piece::O, &t));
    let with = list.with(rt.alloc(), Piece::T, &t).expect(&rt, "memory");
    let without = list.with(rt.alloc(), Piece::I, &t).expect(&rt, "memory");
    assert!(rt; with.tilings.len() == 1 && without.tilings.is_empty());
}

/// In which of the lists 3 and 5, which are both this one, a piece of a kind has these cells.
fn lists_with(
    alloc: Global,
    list: &TilingList,
    piece: Piece,
    cells: &Empties,
) -> Result<u64, NoMemory> {
    let mut standing = StandingPieces::new(alloc, piece)?;
    standing.add(list, 3)?;
    standing.add(list, 5)?;
    Ok(standing.lists_with(cells))
}

#[test]
fn lists_in_which_a_piece_stands(rt: HostRuntime) {
    let list = opener_tilings(rt.alloc()).expect(&rt, "few tilings");
    let t = cells_of_t().expect(&rt, "a rows text");
    assert!(rt; lists_with(rt.alloc(), &list, Piece::T, &t) == Ok(0b10_1000));
    let all = opener().expect(&rt, "a rows text");
    assert!(rt; lists_with(rt.alloc(), &list, Piece::T, &all) == Ok(0));
    assert!(rt; lists_with(rt.alloc(), &list, Piece::O, &t) == Ok(0));
}
