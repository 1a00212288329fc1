// The comment part of a page: the length of the escaped text, and its characters in groups of four.
ghost use Rattle.std.specs.Prelude.{◌≡◌, ◌≢◌, ℕ, ◌+◌, ◌^◌, ◌<◌, ◌≤◌, ◌++◌, List, length, take, nat_lt, All, IfOk, OnOk, OnErr, Ok, Err};
ghost use Rattle.std.specs.List.{list_all};
ghost use Rattle.fumen_digits.specs.Number.{digits};
ghost use Rattle.fumen_digits.specs.Reading.{number_at};
ghost use Rattle.fumen_digits.specs.ReadResults.{Gives};
ghost use Rattle.pc_outside.specs.declared.answers.Refused.{Refused};
ghost use Rattle.fumen_comment.specs.declared.part.CommentFault.{CommentFault};
ghost use Rattle.fumen_comment.specs.Escape.{IsPrintable};
ghost use Rattle.fumen_comment.specs.Part.{comment_digits, group_count, is_group, packed, unpacked};
ghost use Rattle.fumen_comment.specs.Reading.{HasFirst, comment_at, group_at, text_at};
ghost use Rattle.fumen_comment.specs.Faults.{CommentStands, HasGroup, IsCommentFault, comment_fault};

use crate::comment::Comment;
use crate::unescaping::unescape;
use fumen_digits::{DigitFault, FumenFault, push_number, read_number};
use pc_outside::{NoMemory, Refused};
use std::alloc::Global;

/// Why a comment part can't be read. A place is an index among the digits.
#[derive(Clone, Copy, Debug, PartialEq, Eq)]
pub enum CommentFault {
    /// The byte at this place is not a digit.
    BadDigit { place: usize },
    /// The digits end within the number that begins at this place.
    Truncated { place: usize },
    /// The group at this place is 96^4 or more, or has a character of value 95 within the length.
    BadComment { place: usize },
}

impl From<CommentFault> for FumenFault {
    ghost from_gives = { λ fault text. text ≡ comment_fault fault };

    fn from(fault: CommentFault) -> FumenFault {
        match fault {
            CommentFault::BadDigit { place } => FumenFault::BadDigit { place },
            CommentFault::Truncated { place } => FumenFault::Truncated { place },
            CommentFault::BadComment { place } => FumenFault::BadComment { place },
        }
    }
}

/// Appends the comment part of an escaped text, as fumen writes it: its length in two digits, and five digits for each
/// group of four characters. The last group is filled up with 0. After NoMemory `out` is unchanged.
pub fn write_comment(out: &mut Vec<u8>, escaped: &[u8]) -> Result<(), NoMemory>
    requires short { length escaped.now ≤ 4095 }
    requires printable { All IsPrintable escaped.now }
    ensures ok { OnOk result (out.new.items ≡ out.old.items ++ comment_digits escaped.now) }
    ensures err { OnErr result (out.new.items ≡ out.old.items) }
{
    let before = out.len();
    let written = push_part(out, escaped);
    if written.is_err() {
        out.truncate(before);
    }
    written
}

/// Appends the length and the groups, or a front part of them.
fn push_part(out: &mut Vec<u8>, escaped: &[u8]) -> Result<(), NoMemory>
    requires short { length escaped.now ≤ 4095 }
    requires printable { All IsPrintable escaped.now }
    ensures ok { OnOk result (out.new.items ≡ out.old.items ++ comment_digits escaped.now) }
    ensures kept { take (length out.old.items) out.new.items ≡ out.old.items }
{
    push_number(out, escaped.len() as u32, 2)?;
    for group in escaped.chunks(4) {
        push_group(out, group)?;
    }
    Ok(())
}

/// Appends a group of up to four characters.
fn push_group(out: &mut Vec<u8>, group: &[u8]) -> Result<(), NoMemory>
    requires short { length group.now ≤ 4 }
    requires printable { All IsPrintable group.now }
    ensures ok { OnOk result (out.new.items ≡ out.old.items ++ digits 5 (packed group.now)) }
    ensures err { OnErr result (out.new.items ≡ out.old.items) }
{
    push_number(out, packed(group), 5)
}

/// The number that stands for up to four characters.
fn packed(group: &[u8]) -> u32
    requires short { length group.now ≤ 4 }
    requires printable { All IsPrintable group.now }
    ensures value { result ≡ packed group.now }
    ensures below { result < 96 ^ 4 }
{
    let mut number = 0;
    let mut weight = 1;
    for c in group {
        number += weight * (*c - 32) as u32;
        weight *= 96;
    }
    number
}

/// Reads the comment part at a place. Returns the comment and the place behind it.
///
/// A refusal is the first fault from the left. Characters past the length are not looked at.
pub fn read_comment(
    alloc: Global,
    digits: &[u8],
    place: usize,
) -> Result<(Comment, usize), Refused<CommentFault>>
    requires { place ≤ length digits.now }

    // The result of reading from the left.
    ensures exact { Gives (λ x. x) comment_fault result (comment_at digits.now place) }

    // The place behind it is among the digits, or at their end.
    ensures within { IfOk result (λ x. x.1 ≤ length digits.now) }

    // What is read stands there, and what stands there is read, unless memory runs out.
    ensures found { IfOk result (λ x. CommentStands digits.now place x.0 x.1) }
    ensures only { (units : List ℕ) (end : ℕ) → CommentStands digits.now place units end →
        Gives (λ x. x) comment_fault result (Ok (units, end)) }

    // A fault is the first one there, and the first one there is returned, unless memory runs out.
    ensures fault { (f : CommentFault) → result ≡ Err (Refused.Fault f) →
        IsCommentFault digits.now place (comment_fault f) }
    ensures fault_only { (f : CommentFault) → IsCommentFault digits.now place (comment_fault f) →
        Gives (λ x. x) comment_fault result (Err (comment_fault f)) }

    // Memory cannot run out for an empty comment, nor before a fault of the length or the first group is found.
    ensures memory { result ≡ Err Refused.NoMemory → HasGroup digits.now place }
{
    read_part(alloc, digits, place)
}

#[tactic(auto, unfolding(crate::specs::Reading::comment_at))]
fn read_part(
    alloc: Global,
    digits: &[u8],
    place: usize,
) -> Result<(Comment, usize), Refused<CommentFault>>
    requires { place ≤ length digits.now }
    ensures exact { Gives (λ x. x) comment_fault result (comment_at digits.now place) }
    ensures memory { result ≡ Err Refused.NoMemory → HasGroup digits.now place }
{
    let length = number_at(digits, place, 2)?;
    let (text, end) = read_text(alloc, digits, place + 2, length as usize)?;
    let comment = unescape(alloc, &text)?;
    Ok((comment, end))
}

/// This many characters, and the place behind their groups.
fn read_text(
    alloc: Global,
    digits: &[u8],
    place: usize,
    count: usize,
) -> Result<(Vec<u8>, usize), Refused<CommentFault>>
    requires { place ≤ length digits.now }
    ensures exact { Gives (λ x. (x.0.items, x.1)) comment_fault result
        (text_at digits.now place count (group_count count)) }
    ensures memory { result ≡ Err Refused.NoMemory → HasFirst digits.now place count }
{
    let mut text = Vec::new(alloc);
    let mut place = place;
    let mut left = count;
    while left > 0 {
        let group = group_at(digits, place, left)?;
        let characters = unpacked(group);
        text.extend_from_slice(&characters[..left.min(4)])?;
        left = left.saturating_sub(4);
        place += 5;
    }
    Ok((text, place))
}

/// The group at a place, with this many characters still to come.
#[tactic(auto, unfolding(crate::specs::Reading::group_at))]
fn group_at(digits: &[u8], place: usize, left: usize) -> Result<u32, Refused<CommentFault>>
    requires { place ≤ length digits.now }
    ensures exact { Gives (λ group. group) comment_fault result (group_at digits.now place left) }
    ensures within { IfOk result (λ _. place + 5 ≤ length digits.now) }
    ensures memory { result ≢ Err Refused.NoMemory }
{
    let group = number_at(digits, place, 5)?;
    if !is_group(left, group) {
        return Err(Refused::Fault(CommentFault::BadComment { place }));
    }
    Ok(group)
}

fn is_group(left: usize, group: u32) -> bool
    ensures { result ≡ is_group left group }
{
    if group >= 84_934_656 {
        return false;
    }
    let characters = unpacked(group);
    all_below_95(&characters[..left.min(4)])
}

/// Whether no character has the value 95, which stands for no character.
fn all_below_95(characters: &[u8]) -> bool
    ensures { result ≡ list_all (λ c. nat_lt c 127) characters.now }
{
    characters.iter().all(|c| *c < 127)
}

/// The four characters of a group.
#[tactic(auto, unfolding(crate::specs::Part::unpacked))]
fn unpacked(group: u32) -> [u8; 4]
    ensures { result ≡ unpacked 4 group }
{
    [
        (group % 96) as u8 + 32,
        (group / 96 % 96) as u8 + 32,
        (group / 96 / 96 % 96) as u8 + 32,
        (group / 96 / 96 / 96 % 96) as u8 + 32,
    ]
}

/// The number at a place, with its fault as one of a comment.
fn number_at(digits: &[u8], place: usize, count: u8) -> Result<u32, Refused<CommentFault>>
    requires place { place ≤ length digits.now }
    requires most { count ≤ 5 }
    ensures exact { Gives (λ n. n) comment_fault result (number_at digits.now place count) }
    ensures within { IfOk result (λ _. place + count ≤ length digits.now) }
    ensures memory { result ≢ Err Refused.NoMemory }
{
    match read_number(digits, place, count) {
        Ok(number) => Ok(number),
        Err(DigitFault::Bad { place }) => { Err(Refused::Fault(CommentFault::BadDigit { place })) }
        Err(DigitFault::Truncated { place }) => {
            Err(Refused::Fault(CommentFault::Truncated { place }))
        }
    }
}
