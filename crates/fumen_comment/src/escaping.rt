// Escaping units into text.
ghost use Rattle.std.specs.Prelude.{◌≡◌, ◌<◌, ◌++◌, [], All, IsOk, IfOk, OnOk};
ghost use Rattle.fumen_comment.specs.Escape.{escaped, escaped_unit, hex_byte, hex_digit, IsPrintable, stays};

use pc_outside::NoMemory;
use std::alloc::Global;

/// The escaped text of some units, as ECMAScript's `escape` (Annex B) gives it.
///
/// Letters, digits and `@ * _ + - . /` stay. Another unit below 256 becomes `%` and two capital hexadecimal digits.
/// Every other unit becomes `%u` and four. Without units, memory cannot run out.
pub fn escape(alloc: Global, units: &[u16]) -> Result<Vec<u8>, NoMemory>
    ensures exact { IfOk result (λ text. text.items ≡ escaped units.now) }
    ensures printable { IfOk result (λ text. All IsPrintable text.items) }
    ensures none { units.now ≡ [] → IsOk result }
{
    escape_units(alloc, units)
}

#[tactic(auto, unfolding(crate::specs::Escape::escaped))]
fn escape_units(alloc: Global, units: &[u16]) -> Result<Vec<u8>, NoMemory>
    ensures exact { IfOk result (λ text. text.items ≡ escaped units.now) }
    ensures none { units.now ≡ [] → IsOk result }
{
    let mut text = Vec::new(alloc);
    for unit in units {
        push_unit(&mut text, *unit)?;
    }
    Ok(text)
}

fn push_unit(text: &mut Vec<u8>, unit: u16) -> Result<(), NoMemory>
    ensures { OnOk result (text.new.items ≡ text.old.items ++ escaped_unit unit) }
{
    if unit < 256 {
        return push_low_unit(text, unit as u8);
    }
    text.extend_from_slice(b"%u")?;
    push_hex_byte(text, (unit / 256) as u8)?;
    push_hex_byte(text, (unit % 256) as u8)
}

/// Appends the escaped text of a unit below 256.
fn push_low_unit(text: &mut Vec<u8>, unit: u8) -> Result<(), NoMemory>
    ensures { OnOk result (text.new.items ≡ text.old.items ++ escaped_unit unit) }
{
    if stays(unit) {
        text.push(unit)?;
        return Ok(());
    }
    text.push(b'%')?;
    push_hex_byte(text, unit)
}

#[tactic(auto, using(crate::proofs::Tables::stays_by_range))]
fn stays(byte: u8) -> bool
    ensures { result ≡ stays byte }
{
    matches!(byte, b'A'..=b'Z' | b'a'..=b'z' | b'0'..=b'9' | b'@' | b'*' | b'_' | b'+' | b'-' | b'.' | b'/')
}

fn push_hex_byte(text: &mut Vec<u8>, byte: u8) -> Result<(), NoMemory>
    ensures { OnOk result (text.new.items ≡ text.old.items ++ hex_byte byte) }
{
    text.push(hex_digit(byte / 16))?;
    text.push(hex_digit(byte % 16))?;
    Ok(())
}

#[tactic(auto, using(crate::proofs::Tables::hex_digit_by_range))]
fn hex_digit(value: u8) -> u8
    requires { value < 16 }
    ensures { result ≡ hex_digit value }
{
    match value {
        0..=9 => b'0' + value,
        _ => b'A' + (value - 10),
    }
}
