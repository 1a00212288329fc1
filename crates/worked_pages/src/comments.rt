// Comments, checked against values of Node.js and a fumen from another program.
use fumen_comment::{Comment, CommentFault, escape, read_comment, unescape, write_comment};
use pc_outside::{NoMemory, Refused};
use std::alloc::Global;

/// Results of `escape` in Node.js, which `unescape` turns back.
const ESCAPED: &[(&[u16], &[u8])] = &[
    (&[0x41, 0x5A, 0x61, 0x7A, 0x30, 0x39], b"AZaz09"),
    (&[0x40, 0x2A, 0x5F, 0x2B, 0x2D, 0x2E, 0x2F], b"@*_+-./"),
    (
        &[
            0x20, 0x21, 0x22, 0x23, 0x24, 0x25, 0x26, 0x27, 0x28, 0x29, 0x2C,
        ],
        b"%20%21%22%23%24%25%26%27%28%29%2C",
    ),
    (
        &[
            0x3A, 0x3B, 0x3C, 0x3D, 0x3E, 0x3F, 0x5B, 0x5C, 0x5D, 0x5E, 0x60, 0x7B, 0x7C, 0x7D,
            0x7E,
        ],
        b"%3A%3B%3C%3D%3E%3F%5B%5C%5D%5E%60%7B%7C%7D%7E",
    ),
    (
        &[0x00, 0x09, 0x0A, 0x1F, 0x7F, 0x80, 0xE9, 0xFF],
        b"%00%09%0A%1F%7F%80%E9%FF",
    ),
    (
        &[0x100, 0x3B1, 0x70AE, 0x7B2C, 0xD800, 0xDFFF, 0xFFFF],
        b"%u0100%u03B1%u70AE%u7B2C%uD800%uDFFF%uFFFF",
    ),
    (&[0xD83D, 0xDE00], b"%uD83D%uDE00"),
    (&[0x25, 0x75, 0x30, 0x30, 0x34, 0x31], b"%25u0041"),
];

/// Results of `unescape` in Node.js.
const UNESCAPED: &[(&[u8], &[u16])] = &[
    (b"%", &[0x25]),
    (b"%%41", &[0x25, 0x41]),
    (b"%4", &[0x25, 0x34]),
    (b"%4g", &[0x25, 0x34, 0x67]),
    (b"%g1", &[0x25, 0x67, 0x31]),
    (b"%aF", &[0xAF]),
    (b"%u", &[0x25, 0x75]),
    (b"%u12", &[0x25, 0x75, 0x31, 0x32]),
    (b"%u123", &[0x25, 0x75, 0x31, 0x32, 0x33]),
    (b"%uAbCd", &[0xABCD]),
    (b"%U1234", &[0x25, 0x55, 0x31, 0x32, 0x33, 0x34]),
    (b"%u12G4", &[0x25, 0x75, 0x31, 0x32, 0x47, 0x34]),
    (b"%u%41", &[0x25, 0x75, 0x41]),
    (b"%2541", &[0x25, 0x34, 0x31]),
    (b"%u0041g", &[0x41, 0x67]),
    (b"a%20b+c", &[0x61, 0x20, 0x62, 0x2B, 0x63]),
];

/// Comment parts in digits: where each begins, its units, and where it ends. The second is
/// `v115@vhAJHYaAkeEfEXoC+BlvlzByEEfE03k2AlP5ABwvDfE`, of another program, from its action on.
const PARTS: &[(&[u8], usize, &[u16], usize)] = &[
    (b"xFAooMDEPBAAA", 1, &[0x68, 0x65, 0x6C, 0x6C, 0x6F], 13),
    (
        b"vhAJHYaAkeEfEXoC+BlvlzByEEfE03k2AlP5ABwvDfE",
        6,
        &[0x44, 0x54, 0x70AE, 0x7B2C, 0x4E00, 0x5305],
        43,
    ),
];

/// Digits that begin with a faulty comment part.
const FAULTS: &[(&[u8], CommentFault)] = &[
    (b"BA/////", CommentFault::BadComment { place: 2 }),
    (b"BAAA", CommentFault::Truncated { place: 2 }),
];

fn is_escaped(alloc: Global, units: &[u16], text: &[u8]) -> bool {
    match escape(alloc, units) {
        Ok(escaped) => escaped.as_slice() == text,
        Err(_) => false,
    }
}

fn is_unescaped(alloc: Global, text: &[u8], units: &[u16]) -> bool {
    match unescape(alloc, text) {
        Ok(comment) => comment.units() == units,
        Err(_) => false,
    }
}

#[test]
fn escapes(rt: HostRuntime) {
    for (units, text) in ESCAPED {
        assert!(rt; is_escaped(rt.alloc(), units, text), "{units:?}");
        assert!(rt; is_unescaped(rt.alloc(), text, units), "{units:?}");
    }
}

#[test]
fn unescapes(rt: HostRuntime) {
    for (text, units) in UNESCAPED {
        assert!(rt; is_unescaped(rt.alloc(), text, units), "{units:?}");
    }
}

/// A comment part, behind an `x`.
fn written(alloc: Global) -> Result<Vec<u8>, NoMemory> {
    let mut out = b"x".to_vec(alloc)?;
    write_comment(&mut out, b"hello")?;
    Ok(out)
}

#[test]
fn comments_are_written(rt: HostRuntime) {
    let out = written(rt.alloc()).expect(&rt, "memory");
    assert!(rt; out.as_slice() == b"xFAooMDEPBAAA".as_slice());
}

fn is_part(alloc: Global, digits: &[u8], place: usize, units: &[u16], end: usize) -> bool {
    if digits.len() < place {
        return false;
    }
    match read_comment(alloc, digits, place) {
        Ok((comment, behind)) => comment.units() == units && behind == end,
        Err(_) => false,
    }
}

#[test]
fn comments_are_read(rt: HostRuntime) {
    for (digits, place, units, end) in PARTS {
        assert!(rt;
            is_part(rt.alloc(), digits, *place, units, *end),
            "{units:?}"
        );
    }
}

fn is_faulty(alloc: Global, digits: &[u8], fault: CommentFault) -> bool {
    read_comment(alloc, digits, 0).err() == Some(Refused::Fault(fault))
}

#[test]
fn comments_are_refused(rt: HostRuntime) {
    for (digits, fault) in FAULTS {
        assert!(rt; is_faulty(rt.alloc(), digits, *fault), "{digits:?}");
    }
}

/// Whether half a pair of units makes the comment that is unescaped from its text.
fn is_half_a_pair(alloc: Global) -> Result<bool, NoMemory> {
    let comment = Comment::from_units([0xD800u16].to_vec(alloc)?);
    let same = unescape(alloc, b"%ud800")?;
    Ok(comment.units() == [0xD800].as_slice() && comment == same)
}

#[test]
fn units_of_a_comment(rt: HostRuntime) {
    assert!(rt; is_half_a_pair(rt.alloc()) == Ok(true));
}
