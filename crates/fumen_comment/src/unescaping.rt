// Unescaping text into units.
ghost use Rattle.std.specs.Prelude.{◌≡◌, ◌<◌, ◌≤◌, [], length, IsOk, IfOk, IfSome};
ghost use Rattle.fumen_comment.specs.Unescape.{hex_byte_at, hex_unit_at, hex_value, unescaped, unit_of};

use crate::comment::Comment;
use pc_outside::NoMemory;
use std::alloc::Global;

/// The units of an escaped text, as ECMAScript's `unescape` (Annex B) gives them.
///
/// `%u` with four hexadecimal digits of either case is one unit, and so is any other `%` with two. Every other
/// character stands for its own code, also a malformed `%`. With an empty text, memory cannot run out.
pub fn unescape(alloc: Global, text: &[u8]) -> Result<Comment, NoMemory>
    ensures units { IfOk result (λ comment. comment ≡ unescaped text.now) }
    ensures none { text.now ≡ [] → IsOk result }
{
    let mut units = Vec::new(alloc);
    let mut rest = text;
    while let [c, behind @ ..] = rest {
        let (unit, passed) = unit_of(*c, behind);
        units.push(unit)?;
        rest = &behind[passed..];
    }
    Ok(Comment::from_units(units))
}

/// The unit that a character stands for, and how many of the characters behind it belong to it.
#[tactic(auto, unfolding(crate::specs::Unescape::unit_of))]
fn unit_of(c: u8, behind: &[u8]) -> (u16, usize)
    ensures unit { result.0 ≡ (unit_of c behind.now).0 }
    ensures passed { result.1 ≡ (unit_of c behind.now).1 }
    ensures within { result.1 ≤ length behind.now }
{
    if c != b'%' {
        return (u16::from(c), 0);
    }
    if let Some(unit) = hex_unit_at(behind) {
        return (unit, 5);
    }
    if let Some(byte) = hex_byte_at(behind) {
        return (u16::from(byte), 2);
    }
    (u16::from(b'%'), 0)
}

/// The number of the four hexadecimal digits behind the `u` at the beginning of a text.
#[tactic(auto, unfolding(crate::specs::Unescape::hex_unit_at))]
fn hex_unit_at(text: &[u8]) -> Option<u16>
    ensures value { result ≡ hex_unit_at text.now }
    ensures room { IfSome result (λ _. 5 ≤ length text.now) }
{
    match text {
        [b'u', rest @ ..] => {
            let high = hex_byte_at(rest)?;
            let low = hex_byte_at(&rest[2..])?;
            Some(256 * u16::from(high) + u16::from(low))
        }
        _ => None,
    }
}

/// The number of the two hexadecimal digits at the beginning of a text.
#[tactic(auto, unfolding(crate::specs::Unescape::hex_byte_at))]
fn hex_byte_at(text: &[u8]) -> Option<u8>
    ensures value { result ≡ hex_byte_at text.now }
    ensures room { IfSome result (λ _. 2 ≤ length text.now) }
{
    match text {
        [high, low, ..] => Some(16 * hex_value(*high)? + hex_value(*low)?),
        _ => None,
    }
}

/// The value of a hexadecimal digit of either case.
#[tactic(auto, using(crate::proofs::Tables::hex_value_by_range))]
fn hex_value(c: u8) -> Option<u8>
    ensures value { result ≡ hex_value c }
    ensures small { IfSome result (λ value. value < 16) }
{
    match c {
        b'0'..=b'9' => Some(c - b'0'),
        b'A'..=b'F' => Some(c - b'A' + 10),
        b'a'..=b'f' => Some(c - b'a' + 10),
        _ => None,
    }
}
