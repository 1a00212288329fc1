// Printing a table.
ghost use Rattle.std.specs.Prelude.{◌≡◌, ◌++◌, [], length, map, take, IsOk, IfOk, OnOk, OnErr, IsTrue, Ok};
ghost use Rattle.std.specs.List.{list_all};
ghost use Rattle.srs.specs.Kick.{pair_of};
ghost use Rattle.srs.specs.Rules.{table_of};
ghost use Rattle.kick_file.specs.Form.{signed_digit, offset_form, offsets_form};
ghost use Rattle.kick_file.specs.Printed.{entry_form, entry_of, table_form};
ghost use Rattle.kick_file.specs.Printing.{is_one_digit, is_short_move, piece_form};
ghost use Rattle.kick_file.specs.Reading.{kick_text, digit_of};

use pc_outside::NoMemory;
use srs::{Offset, Piece, Rotation, Rules};
use std::alloc::Global;

/// The digit of a number from -9 to 9.
fn digit(number: i8) -> u8
    requires { IsTrue (is_one_digit number) }
    ensures { result ≡ digit_of number }
{
    b'0' + number.unsigned_abs()
}

/// Appends a number from -9 to 9.
fn push_signed_digit(text: &mut Vec<u8>, number: i8) -> Result<(), NoMemory>
    requires { IsTrue (is_one_digit number) }
    ensures ok { OnOk result (text.new.items ≡ text.old.items ++ signed_digit number) }
    ensures err { OnErr result (text.new.items ≡ text.old.items) }
{
    let digit = digit(number);
    if number < 0 {
        text.extend_from_slice(&[b'-', digit])?;
        return Ok(());
    }
    text.push(digit)?;
    Ok(())
}

/// Appends an offset or a kick, or a front part of it.
fn push_offset(text: &mut Vec<u8>, offset: Offset) -> Result<(), NoMemory>
    requires { IsTrue (is_short_move (pair_of offset)) }
    ensures ok { OnOk result (text.new.items ≡ text.old.items ++ offset_form (pair_of offset)) }
    ensures kept { take (length text.old.items) text.new.items ≡ text.old.items }
{
    push_signed_digit(text, offset.dx)?;
    text.push(b',')?;
    push_signed_digit(text, offset.dy)
}

/// Appends offsets or kicks, separated by `/`. Each is at most nine columns and nine rows. After NoMemory `text` is
/// unchanged. Without offsets, memory cannot run out.
pub fn push_offsets(text: &mut Vec<u8>, offsets: &[Offset]) -> Result<(), NoMemory>
    requires { IsTrue (list_all is_short_move (map pair_of offsets.now)) }
    ensures ok { OnOk result (text.new.items ≡ text.old.items ++ offsets_form (map pair_of offsets.now)) }
    ensures err { OnErr result (text.new.items ≡ text.old.items) }
    ensures none { offsets.now ≡ [] → IsOk result }
{
    let before = text.len();
    let pushed = push_some_offsets(text, offsets);
    if pushed.is_err() {
        text.truncate(before);
    }
    pushed
}

/// Appends the offsets, or a front part of them.
fn push_some_offsets(text: &mut Vec<u8>, offsets: &[Offset]) -> Result<(), NoMemory>
    requires { IsTrue (list_all is_short_move (map pair_of offsets.now)) }
    ensures ok { OnOk result (text.new.items ≡ text.old.items ++ offsets_form (map pair_of offsets.now)) }
    ensures kept { take (length text.old.items) text.new.items ≡ text.old.items }
    ensures none { offsets.now ≡ [] → IsOk result }
{
    let [first, rest @ ..] = offsets else {
        return Ok(());
    };
    push_offset(text, *first)?;
    for offset in rest {
        text.push(b'/')?;
        push_offset(text, *offset)?;
    }
    Ok(())
}

/// The offsets of a piece in a rotation, in the order of the tests.
fn offsets_of(rules: &Rules, piece: Piece, rotation: Rotation) -> [Offset; 5]
    ensures { map pair_of result ≡ table_of rules.now piece rotation }
{
    [
        rules.offset(piece, rotation, 1),
        rules.offset(piece, rotation, 2),
        rules.offset(piece, rotation, 3),
        rules.offset(piece, rotation, 4),
        rules.offset(piece, rotation, 5),
    ]
}

/// Appends the entry of a piece in a rotation. After NoMemory `text` is unchanged.
pub fn push_entry(
    text: &mut Vec<u8>,
    rules: &Rules,
    piece: Piece,
    rotation: Rotation,
) -> Result<(), NoMemory>
    ensures ok { OnOk result (text.new.items
        ≡ text.old.items ++ entry_form (entry_of (table_of rules.now) piece rotation)) }
    ensures err { OnErr result (text.new.items ≡ text.old.items) }
{
    let before = text.len();
    let appended = push_some_entry(text, rules, piece, rotation);
    if appended.is_err() {
        text.truncate(before);
    }
    appended
}

/// Appends the entry, or a front part of it.
fn push_some_entry(
    text: &mut Vec<u8>,
    rules: &Rules,
    piece: Piece,
    rotation: Rotation,
) -> Result<(), NoMemory>
    ensures ok { OnOk result (text.new.items
        ≡ text.old.items ++ entry_form (entry_of (table_of rules.now) piece rotation)) }
    ensures kept { take (length text.old.items) text.new.items ≡ text.old.items }
{
    text.extend_from_slice(&[piece.letter(), rotation.letter(), b':'])?;
    push_offsets(text, &offsets_of(rules, piece, rotation))
}

/// Appends the four entries of a piece, each with a `;` after it.
fn push_piece(text: &mut Vec<u8>, rules: &Rules, piece: Piece) -> Result<(), NoMemory>
    ensures { OnOk result (text.new.items ≡ text.old.items ++ piece_form (table_of rules.now) piece) }
{
    for rotation in Rotation::ALL {
        push_entry(text, rules, piece, rotation)?;
        text.push(b';')?;
    }
    Ok(())
}

/// The text of a table: an entry for each piece, in the order of codes, and each rotation, in the order 0, R, 2, L. It
/// reads back as this table.
pub fn print(alloc: Global, rules: &Rules) -> Result<Vec<u8>, NoMemory>
    ensures form { IfOk result (λ text. text.items ≡ table_form (table_of rules.now)) }
    ensures read { IfOk result (λ text. kick_text text.items ≡ Ok (table_of rules.now)) }
{
    let mut text = Vec::new(alloc);
    for piece in Piece::ALL {
        push_piece(&mut text, rules, piece)?;
    }
    text.pop();
    Ok(text)
}
