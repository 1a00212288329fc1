// Tables of offsets, read and printed.
use kick_file::{KickFault, parse, print};
use srs::{Offset, Piece, Rotation, Rules};

const FAULTS: &[(&str, KickFault)] = &[
    ("TR:0,0", KickFault::Unexpected { place: 6 }),
    ("TR:4", KickFault::Unexpected { place: 3 }),
    (
        "TR:0,0/0,0/0,0/0,0/0,0;TR",
        KickFault::RepeatedEntry { place: 23 },
    ),
];

#[test]
fn tables_are_read_as_printed(rt: HostRuntime) {
    let text = print(rt.alloc(), &Rules::srs()).expect(&rt, "memory");
    assert!(rt; text.len() == 696);
    assert!(rt; text.starts_with(b"I0:0,0/-1,0/2,0/-1,0/2,"));
}

#[test]
fn entries_change_the_table(rt: HostRuntime) {
    assert!(rt; parse("") == Ok(Rules::srs()));
    let changed = Rules::srs().with_offset(Piece::T, Rotation::Right, 3, Offset { dx: -3, dy: 2 });
    assert!(rt; parse("tR:0,0/1,0/-3,2/0,2/1,2") == Ok(changed));
}

#[test]
fn faults_have_places(rt: HostRuntime) {
    for (text, fault) in FAULTS {
        assert!(rt; parse(text).err() == Some(*fault), "{text}");
    }
}
