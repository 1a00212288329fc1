// Tilings of some small fields, and a plain search by the definition.
use packing::tiles;
use srs::{Piece, Placement, Rotation, cells};
use well::Well;

#[test]
fn one_and_two_pieces(rt: HostRuntime) {
    let one = Well::from_rows(b"XXXXXX____").expect(&rt, "a rows text");
    assert!(rt; tiles(&one, 1, &[1, 0, 0, 0, 0, 0, 0]));
    assert!(rt; !tiles(&one, 1, &[0, 7, 7, 7, 7, 7, 7]));
    let two = Well::from_rows(b"XXXXXXXX__/XXXXXX____/XXXXXXXX__");
    let two = two.expect(&rt, "a rows text");
    assert!(rt; tiles(&two, 3, &[1, 0, 1, 0, 0, 0, 0]));
    assert!(rt; !tiles(&two, 3, &[0, 0, 2, 0, 0, 0, 0]));
}

/// Four rows that rise strictly: every front of each of these lists. Row 9 stands for none.
const RISING: [[u8; 4]; 8] = [
    [0, 1, 2, 3],
    [0, 1, 3, 9],
    [0, 2, 3, 9],
    [0, 3, 9, 9],
    [1, 2, 3, 9],
    [1, 3, 9, 9],
    [2, 3, 9, 9],
    [3, 9, 9, 9],
];

/// The cells of a piece that is moved to a column and has these rows: bit `4 * column + row`. 0 if a cell lies outside
/// four columns and four rows.
fn part(shape: &[(i8, i8); 4], column: i8, rows: &[u8; 4]) -> u16 {
    let mut left = 31;
    let mut lowest = 31;
    for (x, y) in shape {
        left = left.min(*x);
        lowest = lowest.min(*y);
    }
    let mut bits = 0;
    for (x, y) in shape {
        let x = x.wrapping_sub(left).wrapping_add(column);
        let level = y.wrapping_sub(lowest);
        if x < 0 || 3 < x || level < 0 || 3 < level || 3 < rows[level as usize] {
            return 0;
        }
        bits |= 1u16.wrapping_shl(4 * x as u32 + u32::from(rows[level as usize]));
    }
    bits
}

/// Whether this many pieces of the supply can be put one after another, anywhere, until no cell is left.
fn can_fill(cells_left: u16, supply: [u8; 7], pieces: u8) -> bool {
    if cells_left == 0 {
        return true;
    }
    if pieces == 0 {
        return false;
    }
    for (kind, piece) in Piece::ALL.iter().enumerate() {
        if supply[kind] == 0 {
            continue;
        }
        let mut fewer = supply;
        fewer[kind] -= 1;
        for rotation in Rotation::ALL {
            let shape = cells(&Placement {
                piece: *piece,
                rotation,
                x: 4,
                y: 4,
            });
            for column in 0..4 {
                for rows in &RISING {
                    let bits = part(&shape, column, rows);
                    if bits != 0
                        && bits & cells_left == bits
                        && can_fill(cells_left ^ bits, fewer, pieces - 1)
                    {
                        return true;
                    }
                }
            }
        }
    }
    false
}

/// The next number of a list that looks random.
fn next(seed: u64) -> u64 {
    seed.wrapping_mul(6364136223846793005)
        .wrapping_add(1442695040888963407)
}

/// One piece of each kind whose bit is set.
fn supply_of(kinds: u8) -> [u8; 7] {
    let mut supply = [0; 7];
    for kind in 0..7 {
        supply[kind] = kinds >> kind & 1;
    }
    supply
}

/// The well in which, of rows 0 to 3, only these cells of columns 0 to 3 are empty: bit `4 * column + row`.
fn well_without(empties: u16) -> Well {
    let mut well = Well::empty();
    for x in 0..10 {
        for y in 0..4 {
            if 3 < x || empties >> (4 * (x % 4) + y) & 1 == 0 {
                well = well.with(x, y);
            }
        }
    }
    well
}

#[test]
fn a_plain_search_says_the_same(rt: HostRuntime) {
    let mut seed = 7;
    let mut tiled = 0u32;
    for _ in 0..600 {
        seed = next(seed);
        let empties = (seed >> 40 & 0xffff) as u16;
        let supply = supply_of((seed >> 32 & 0xff) as u8);
        let answer = tiles(&well_without(empties), 4, &supply);
        assert!(rt;
            answer == can_fill(empties, supply, 4),
            "{empties} {supply:?}"
        );
        tiled = tiled.wrapping_add(u32::from(answer));
    }
    assert!(rt; tiled > 20, "{tiled}");
}
