// Numbers of placements, written and read.
use placement_numbers::{numbers_of, sequence_in, write_sequence};
use srs::{Piece, Placement, Rotation};

const HIGH: Placement = Placement {
    piece: Piece::T,
    rotation: Rotation::Left,
    x: 4,
    y: 20,
};

const LOW: Placement = Placement {
    piece: Piece::T,
    rotation: Rotation::Left,
    x: 9,
    y: 0,
};

/// Numbers that are not those of so many placements.
const REFUSED: &[(u8, &[u8])] = &[
    (1, &[0, 3, 9, 22]),
    (1, &[8, 3, 9, 22]),
    (1, &[7, 4, 9, 22]),
    (1, &[7, 3, 10, 22]),
    (1, &[7, 3, 9, 23]),
    (2, &[7, 3, 9, 22]),
    (1, &[7, 3, 9, 22, 7]),
];

fn is_both(numbers: &[u8]) -> bool {
    match sequence_in(2, numbers) {
        Some(read) => read.as_slice() == [HIGH, LOW].as_slice(),
        None => false,
    }
}

#[test]
fn numbers_of_two_placements_are_read_again(rt: HostRuntime) {
    let mut bytes = [255; 10];
    assert!(rt; write_sequence(&[HIGH, LOW], &mut bytes, 1) == 9);
    assert!(rt; bytes == [255, 5, 3, 4, 20, 5, 3, 9, 0, 255]);
    assert!(rt; is_both(&bytes[1..9]));
}

#[test]
fn numbers_within_range_are_read(rt: HostRuntime) {
    let highest = Placement { y: 22, ..LOW };
    assert!(rt; sequence_in(1, &numbers_of(&highest)).is_some());
    assert!(rt; sequence_in(0, &[]).is_some());
}

#[test]
fn numbers_out_of_range_are_refused(rt: HostRuntime) {
    for (count, numbers) in REFUSED {
        assert!(rt;
            *count <= 2 && sequence_in(*count, numbers).is_none(),
            "{numbers:?}"
        );
    }
}
