// Numbers and framing, checked with texts written by hand.
ghost use Rattle.std.specs.Prelude.{◌<◌};

use fumen_digits::{
    Dialect, DigitFault, break_lines, digit_of, digit_value, digits_of, push_number, read_number,
};
use pc_outside::NoMemory;
use std::alloc::Global;

/// What is read as a number of two digits.
const NUMBERS: &[(&[u8], Result<u32, DigitFault>)] = &[
    (b"vh", Ok(2159)),
    (b"v", Err(DigitFault::Truncated { place: 0 })),
    (b"v-", Err(DigitFault::Bad { place: 1 })),
];

const DIGITS: &[(u8, u8)] = &[
    (0, b'A'),
    (25, b'Z'),
    (26, b'a'),
    (51, b'z'),
    (52, b'0'),
    (62, b'+'),
    (63, b'/'),
];

/// Digits, and their lines in a text: 42 digits, and one more.
const LINES: &[(Dialect, &[u8], &[u8])] = &[
    (
        Dialect::V115,
        b"AAAAAAAAAAAAAAAAAAAAAAAAAAAAAAAAAAAAAAAAAA",
        b"v115@AAAAAAAAAAAAAAAAAAAAAAAAAAAAAAAAAAAAAAAAAA",
    ),
    (
        Dialect::V110,
        b"AAAAAAAAAAAAAAAAAAAAAAAAAAAAAAAAAAAAAAAAAAA",
        b"v110@AAAAAAAAAAAAAAAAAAAAAAAAAAAAAAAAAAAAAAAAAA?A",
    ),
];

/// Texts, and the digits that they frame.
const FRAMED: &[(&[u8], Dialect, &[u8])] = &[
    (
        b"http://fumen.zui.jp/?v115@vhA?VQ J&x=1",
        Dialect::V115,
        b"vhAVQJ",
    ),
    (
        b"v115 & d110@7eAA4G v115@vhAAgH",
        Dialect::V110,
        b"7eAA4Gv115@vhAAgH",
    ),
];

/// A number of two digits, behind an `x`.
fn written(alloc: Global) -> Result<Vec<u8>, NoMemory> {
    let mut out = b"x".to_vec(alloc)?;
    push_number(&mut out, 2159, 2)?;
    Ok(out)
}

#[test]
fn numbers_are_written(rt: HostRuntime) {
    let out = written(rt.alloc()).expect(&rt, "memory");
    assert!(rt; out.as_slice() == b"xvh".as_slice());
}

#[test]
fn numbers_are_read(rt: HostRuntime) {
    for (digits, number) in NUMBERS {
        assert!(rt; read_number(digits, 0, 2) == *number, "{digits:?}");
    }
}

fn is_digit_of(digit: u8, value: u8) -> bool
    requires { value < 64 }
{
    digit_of(value) == digit && digit_value(digit) == Some(value)
}

#[test]
fn digits(rt: HostRuntime) {
    for (value, digit) in DIGITS {
        assert!(rt; *value < 64 && is_digit_of(*digit, *value), "{value}");
    }
    assert!(rt; digit_value(b'-') == None);
}

fn is_broken_into(alloc: Global, dialect: Dialect, digits: &[u8], lines: &[u8]) -> bool {
    match break_lines(alloc, dialect, digits) {
        Ok(text) => text.as_slice() == lines,
        Err(_) => false,
    }
}

#[test]
fn lines(rt: HostRuntime) {
    for (dialect, digits, lines) in LINES {
        assert!(rt;
            is_broken_into(rt.alloc(), *dialect, digits, lines),
            "{lines:?}"
        );
    }
}

fn is_framed(alloc: Global, text: &[u8], dialect: Dialect, digits: &[u8]) -> bool {
    match digits_of(alloc, text) {
        Ok(Some((prefix, found))) => prefix == dialect && found.as_slice() == digits,
        _ => false,
    }
}

#[test]
fn framing(rt: HostRuntime) {
    for (text, dialect, digits) in FRAMED {
        assert!(rt; is_framed(rt.alloc(), text, *dialect, digits), "{text:?}");
    }
    assert!(rt; matches!(digits_of(rt.alloc(), b"hello"), Ok(None)));
}

#[test]
fn pages(rt: HostRuntime) {
    assert!(rt; Dialect::V110.rows() == 21 && Dialect::V110.cells() == 220);
    assert!(rt; Dialect::V115.rows() == 23 && Dialect::V115.cells() == 240);
}
