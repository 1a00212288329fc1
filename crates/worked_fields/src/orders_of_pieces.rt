// Hands that the one tiling of a small field serves.
use empty_cells::Empties;
use std::alloc::Global;
use tiled_pieces::{Lister, served_hands};
use well::Well;

/// The hands that the only tiling of the cells serves, of those for which a bit stands in `allowed`.
fn served(
    alloc: Global,
    rows: &[u8],
    supply: &[u8; 7],
    drops: bool,
    weights: &[u16; 8],
    allowed: &[u64],
    pending: u64,
) -> Option<u64> {
    let cells = Empties::below(&Well::from_rows(rows).ok()?, 4);
    let list = Lister::new(alloc).tilings(alloc, &cells, supply, 9)?;
    if list.tilings.len() != 1 {
        return None;
    }
    Some(served_hands(&list.tilings[0], &cells, drops, weights, allowed, pending))
}

#[test]
fn a_row_between_the_cells_must_be_gone(rt: HostRuntime) {
    // The O takes two rows, and the T fills the one between them.
    let rows = b"XXXX____XX/XXXX___XXX/XXXX__XXXX/XXXX___XXX";
    let supply = [1, 0, 1, 0, 1, 0, 0];
    let weights = [0, 4, 0, 2, 0, 1, 0, 0];
    // In turn T O I, O T I, I T O, T I O and I O T.
    let allowed = [
        0, 0b01001, 0b00010, 0b00011, 0b10100, 0b01100, 0b10000, 0b11111,
    ];
    let all = served(rt.alloc(), rows, &supply, true, &weights, &allowed, 0b11111);
    assert!(rt; all == Some(0b01101));
    let some = served(
        rt.alloc(),
        rows,
        &supply,
        false,
        &weights,
        &allowed,
        0b00110,
    );
    assert!(rt; some == Some(0b00100));
}

#[test]
fn a_piece_below_a_filled_cell_does_not_drop(rt: HostRuntime) {
    let rows = b"XXXXXXXXXX/X_XXXXXXXX/X___XXXXXX/____XXXXXX";
    let supply = [1, 0, 0, 0, 0, 1, 0];
    let weights = [0, 1, 0, 0, 0, 0, 2, 0];
    let allowed = [0, 1, 0, 1];
    let moved = served(rt.alloc(), rows, &supply, false, &weights, &allowed, 1);
    assert!(rt; moved == Some(1));
    let dropped = served(rt.alloc(), rows, &supply, true, &weights, &allowed, 1);
    assert!(rt; dropped == Some(0));
}

#[test]
fn nine_pieces_are_put_in_some_order(rt: HostRuntime) {
    let nine = Well::from_rows(b"X_________/X_________/X_________/X_________");
    let cells = Empties::below(&nine.expect(&rt, "a rows text"), 4);
    let list = Lister::new(rt.alloc()).tilings(rt.alloc(), &cells, &[9, 0, 0, 0, 0, 0, 0], 99);
    let list = list.expect(&rt, "few tilings");
    let weights = [0, 1, 0, 0, 0, 0, 0, 0];
    let allowed = [0, 3, 3, 3, 3, 3, 3, 3, 3, 1];
    for tiling in &list.tilings {
        assert!(rt; served_hands(tiling, &cells, true, &weights, &allowed, 3) == 1);
        assert!(rt; served_hands(tiling, &cells, false, &weights, &allowed, 2) == 0);
    }
}
