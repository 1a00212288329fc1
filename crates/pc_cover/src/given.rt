// The sequences that the lines of the source spell.
ghost use Rattle.std.specs.Prelude.{◌≡◌, ◌<◌, ◌≤◌, ◌^◌, IfErr, OnOk, length, map};
ghost use Rattle.std.specs.Char.{is_ascii_digit};
ghost use Rattle.std.specs.List.{list_all};
ghost use Rattle.fumen_digits.specs.ReadResults.{Gives, Reads};
ghost use Rattle.pc_cover.specs.Given.{given_in, is_count, is_counted, is_tail, numbered_sequence};
ghost use Rattle.pc_cover.specs.LineSteps.{ReadsLine, RefusesLine};
ghost use Rattle.pc_cover.specs.Sequences.{listed_placements};

use page_list::first_line;
use pc_faults::{CoverFault, CoverKind};
use pc_outside::Refused;
use problem::Sequence;
use sequence_text::sequence_in;
use std::alloc::Global;

/// The most sequences that are read.
const MOST_GIVEN: usize = 100_000;

/// Whether all bytes are decimal digits.
fn are_digits(text: &[u8]) -> bool
    ensures { result ≡ list_all is_ascii_digit text.now }
{
    text.iter().all(|byte| byte.is_ascii_digit())
}

/// Whether a text is one to twenty decimal digits.
fn is_count(text: &[u8]) -> bool
    ensures { result ≡ is_count text.now }
{
    if text.is_empty() {
        return false;
    }
    if text.len() > 20 {
        return false;
    }
    are_digits(text)
}

/// Whether a line is this name with its blank, and then a count.
fn is_counted(name: &[u8], line: &[u8]) -> bool
    ensures { result ≡ is_counted name.now line.now }
{
    match line.strip_prefix(name) {
        Some(count) => is_count(count),
        None => false,
    }
}

/// Whether a line is one that `path` writes after its sequences.
#[tactic(auto, unfolding(crate::specs::Given::is_tail))]
fn is_tail(line: &[u8]) -> bool
    ensures { result ≡ is_tail line.now }
{
    if is_counted(b"end ", line) {
        return true;
    }
    if is_counted(b"limit ", line) {
        return true;
    }
    is_counted(b"floods ", line)
}

/// The sequence that a line spells, if the line isn't skipped, after `count` other sequences.
#[tactic(auto, unfolding(crate::specs::Given::numbered_sequence))]
fn sequence_at(number: u32, count: usize, needed: u8, line: &[u8]) -> Result<Sequence, CoverFault>
    requires { needed ≤ 22 }
    ensures { Reads (λ sequence. sequence.items) (λ fault. fault) result
        (numbered_sequence needed number count line.now) }
{
    if count >= MOST_GIVEN {
        return Err(CoverFault {
            line: number,
            kind: CoverKind::TooManySequences,
        });
    }
    match sequence_in(needed, line) {
        Ok(sequence) => Ok(sequence),
        Err(_) => Err(CoverFault {
            line: number,
            kind: CoverKind::BadSequence,
        }),
    }
}

/// Reads a line after others. Either it is skipped, or its sequence is added.
fn read_line(
    sequences: &mut Vec<Sequence>,
    number: u32,
    needed: u8,
    line: &[u8],
) -> Result<(), Refused<CoverFault>>
    requires { needed ≤ 22 }
    ensures goes_on { OnOk result (ReadsLine needed number line.now
        (map listed_placements sequences.old.items) (map listed_placements sequences.new.items)) }
    ensures stops { IfErr result (RefusesLine needed number line.now (map listed_placements sequences.old.items)) }
{
    if is_tail(line) {
        return Ok(());
    }
    match sequence_at(number, sequences.len(), needed, line) {
        Ok(sequence) => {
            sequences.push(sequence)?;
            Ok(())
        }
        Err(fault) => Err(Refused::Fault(fault)),
    }
}

/// The sequences of `needed` placements that the lines of a text spell, or the fault of the first line that has one.
/// Lines end as those of page lists do.
pub fn sequences_in(
    alloc: Global,
    needed: u8,
    text: &[u8],
) -> Result<Vec<Sequence>, Refused<CoverFault>>
    requires needed { needed ≤ 22 }
    requires short { length text.now < 2 ^ 32 }
    ensures { Gives (λ sequences. map listed_placements sequences.items) (λ fault. fault) result
        (given_in needed text.now) }
{
    let mut sequences = Vec::new(alloc);
    let mut number = 0;
    let mut rest = text;
    while !rest.is_empty() {
        let (line, behind) = first_line(rest);
        number += 1;
        read_line(&mut sequences, number, needed, line)?;
        rest = behind;
    }
    Ok(sequences)
}
