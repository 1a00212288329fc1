// Texts of placements, written and read.
use placement_form::{placement_text, read_placement};
use srs::{Piece, Placement, Rotation};

const HIGH: Placement = Placement {
    piece: Piece::T,
    rotation: Rotation::Left,
    x: 4,
    y: 20,
};

const LOW: Placement = Placement {
    piece: Piece::T,
    rotation: Rotation::Left,
    x: 9,
    y: 0,
};

/// What is read from texts.
const READ: &[(&[u8], Option<Placement>)] = &[
    (b"TL:4,20", Some(HIGH)),
    (b"TL:9,0", Some(LOW)),
    (b"TL:4,05", None),
    (b"TL:4,23", None),
    (b"TL:10,0", None),
    (b"tL:4,0", None),
    (b"TL:4,0 ", None),
];

#[test]
fn a_row_may_have_two_digits(rt: HostRuntime) {
    assert!(rt; placement_text(&HIGH).as_slice() == b"TL:4,20".as_slice());
}

#[test]
fn texts_are_read(rt: HostRuntime) {
    for (text, placement) in READ {
        assert!(rt; read_placement(text) == *placement, "{text:?}");
    }
}
