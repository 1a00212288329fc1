// One element of a pattern text: its set, and how many pieces are chosen.
ghost use Rattle.std.specs.Prelude.{◌≡◌, ◌≤◌, ◌<◌, ◌+◌, ◌-◌, ◌^◌, ◌==◌, ◌&&◌, length, slice_index, IfOk, IfSome, Result, Ok, Err, IsTrue, false, true};
ghost use Rattle.queue_pattern.specs.Queues.{pieces_in};
ghost use Rattle.queue_pattern.specs.Sound.{is_sound};
ghost use Rattle.queue_pattern.specs.Grammar.{outside, opened, listing, closed, is_gap};
ghost use Rattle.queue_pattern.specs.Grammar;
ghost use Rattle.queue_pattern.specs.Reading.{IsNextElement, IsNextSet, IsNext, IsChosen};

use crate::element::Element;
use crate::fault::PatternFault;
use crate::sets::{ALL, is_in, set_of_one, size};
use srs::Piece;

/// The choice of some pieces of a set, for an element that began at `start`.
#[tactic(auto, unfolding(crate::specs::Grammar::choice, crate::specs::Sound::is_sound))]
fn choice(start: usize, set: u8, chosen: u8) -> Result<Element, PatternFault>
    requires set { set < 128 }
    requires some { 0 < length (pieces_in set) → 0 < chosen }
    ensures value { result ≡ Grammar.choice start set chosen }
    ensures sound { IfOk result (λ element. IsTrue (is_sound element)) }
{
    let pieces = size(set);
    if pieces == 0 || chosen > pieces {
        return Err(PatternFault::TooManyChosen { place: start });
    }
    Ok(Element { set, chosen })
}

/// The set that brackets stand for: what they list or, after `^`, every other piece.
fn bracketed(except: bool, listed: u8) -> u8
    requires { listed < 128 }
    ensures value { result ≡ Grammar.bracketed except listed }
    ensures within { result < 128 }
{
    if except { ALL - listed } else { listed }
}

/// The pieces that are listed between brackets, the first of which stands before `place`.
fn listed_set(
    text: &[u8],
    start: usize,
    place: usize,
    except: bool,
) -> Result<(u8, usize), PatternFault>
    requires { place ≤ length text.now }
    ensures { IsNextSet text.now (listing start except 0) start place result }
{
    let mut listed = 0;
    for place in place..text.len() {
        if text[place] == b']' && listed != 0 {
            return Ok((bracketed(except, listed), place + 1));
        }
        let Some(piece) = Piece::from_letter(text[place]) else {
            return Err(PatternFault::Unexpected { place });
        };
        if is_in(piece, listed) {
            return Err(PatternFault::RepeatedPiece { place });
        }
        listed |= set_of_one(piece);
    }
    Err(PatternFault::Unexpected { place: text.len() })
}

/// The set that the brackets from `start` on spell, and the place after them.
#[tactic(auto, using(crate::proofs::ReadBrackets::set_from, crate::proofs::ReadBrackets::open_except, crate::proofs::ReadBrackets::open_listing))]
fn set_in_brackets(text: &[u8], start: usize) -> Result<(u8, usize), PatternFault>
    requires { start < length text.now }
    ensures { IsNextSet text.now (opened start) start (start + 1) result }
{
    if byte_at(text, start + 1) == b'^' {
        listed_set(text, start, start + 2, true)
    } else {
        listed_set(text, start, start + 1, false)
    }
}

/// The byte at a place, or 0 past the end of the text.
fn byte_at(text: &[u8], place: usize) -> u8
    ensures { result ≡ slice_index text.now place }
{
    text.get(place).copied().unwrap_or(0)
}

/// How many pieces are chosen of a set that ends before `place`, and the place after that count.
fn chosen_after(text: &[u8], set: u8, place: usize) -> Result<(u8, usize), PatternFault>
    requires { place ≤ length text.now }
    ensures chosen { IsChosen text.now set place result }
    ensures some { IfOk result (λ found. 0 < length (pieces_in set) → 0 < found.0) }
{
    let mark = byte_at(text, place);
    if mark == b'!' {
        return Ok((size(set), place + 1));
    }
    if mark != b'p' && mark != b'P' {
        return Ok((1, place));
    }
    let digit = byte_at(text, place + 1);
    if digit < b'1' || b'9' < digit {
        return Err(PatternFault::Unexpected { place: place + 1 });
    }
    Ok((digit - b'0', place + 2))
}

/// The element of a set that began at `start` and ends before `place`, and the place after the element.
fn chosen_element(
    text: &[u8],
    start: usize,
    set: u8,
    place: usize,
) -> Result<(Element, usize), PatternFault>
    requires within { place ≤ length text.now }
    requires set { set < 128 }
    ensures found { IsNextElement text.now (closed start set) place result }
    ensures sound { IfOk result (λ found. IsTrue (is_sound found.0)) }
{
    let (chosen, after) = chosen_after(text, set, place)?;
    let element = choice(start, set, chosen)?;
    Ok((element, after))
}

/// The element that begins at `start` with this byte, which is not a gap, and the place after it.
fn element_from(text: &[u8], start: usize) -> Result<(Element, usize), PatternFault>
    requires within { start < length text.now }
    requires no_gap { is_gap (slice_index text.now start) ≡ false }
    ensures found { IsNextElement text.now outside start result }
    ensures goes_on { IfOk result (λ found. start < found.1) }
    ensures sound { IfOk result (λ found. IsTrue (is_sound found.0)) }
{
    let byte = text[start];
    if byte == b'*' {
        return chosen_element(text, start, ALL, start + 1);
    }
    if byte == b'[' {
        let (set, after) = set_in_brackets(text, start)?;
        return chosen_element(text, start, set, after);
    }
    match Piece::from_letter(byte) {
        Some(piece) => Ok((
            Element {
                set: set_of_one(piece),
                chosen: 1,
            },
            start + 1,
        )),
        None => Err(PatternFault::Unexpected { place: start }),
    }
}

fn is_gap(byte: u8) -> bool
    ensures { result ≡ Grammar.is_gap byte }
{
    matches!(byte, b' ' | b'\t' | b',')
}

/// The first element from `place` on, and the place after it. `None` if only gaps are left.
pub fn next_element(text: &[u8], place: usize) -> Result<Option<(Element, usize)>, PatternFault>
    requires { place ≤ length text.now }
    ensures found { IsNext text.now place result }
    ensures sound { IfOk result (λ next. IfSome next (λ found. IsTrue (is_sound found.0))) }
{
    for start in place..text.len() {
        if !is_gap(text[start]) {
            let found = element_from(text, start)?;
            return Ok(Some(found));
        }
    }
    Ok(None)
}
