// The line by which a fault is reported.
ghost use Rattle.std.specs.Prelude.{◌≡◌};
ghost use Rattle.pc_outside.specs.Counts.{HasCause};
ghost use Rattle.pc_outside.specs.Writes.{WritesAll};
ghost use Rattle.pc_faults.specs.FaultLine.{words_name, kicks_name, rows_name, pattern_name, cover_name, fumen_name, list_name, encode_name, fault_name};
ghost use Rattle.pc_faults.specs.FaultLine.{kicks_numbers, rows_numbers, pattern_numbers, fumen_numbers, encode_numbers, fault_numbers, line_with, fault_line};
ghost use Rattle.pc_faults.specs.FaultNumbers.{numbers_of};

use crate::cover_fault::CoverKind;
use crate::fault::Fault;
use crate::words_fault::WordsKind;
use fumen_digits::FumenFault;
use fumen_pages::{EncodeFault, ListKind};
use itoa::Buffer;
use kick_file::KickFault;
use pc_outside::{Failed, Sink, write_pieces};
use queue_pattern::PatternFault;
use well::RowsFault;

/// The numbers of a fault.
#[derive(Clone, Copy)]
enum FaultNumbers {
    None,
    One(usize),
    Two(usize, usize),
}

fn words_name(kind: WordsKind) -> &'static [u8]
    ensures { result.now ≡ words_name kind }
{
    match kind {
        WordsKind::NoCommand => b"Words.NoCommand",
        WordsKind::UnknownCommand => b"Words.UnknownCommand",
        WordsKind::UnknownOption => b"Words.UnknownOption",
        WordsKind::RepeatedOption => b"Words.RepeatedOption",
        WordsKind::BothFields => b"Words.BothFields",
        WordsKind::MissingValue => b"Words.MissingValue",
        WordsKind::BadValue => b"Words.BadValue",
        WordsKind::MissingOption => b"Words.MissingOption",
    }
}

fn kicks_name(fault: KickFault) -> &'static [u8]
    ensures { result.now ≡ kicks_name fault }
{
    match fault {
        KickFault::Unexpected { .. } => b"Kicks.Unexpected",
        KickFault::RepeatedEntry { .. } => b"Kicks.RepeatedEntry",
    }
}

fn rows_name(fault: RowsFault) -> &'static [u8]
    ensures { result.now ≡ rows_name fault }
{
    match fault {
        RowsFault::BadRowChar { .. } => b"Rows.BadRowChar",
        RowsFault::BadRowLength { .. } => b"Rows.BadRowLength",
        RowsFault::TooManyRows => b"Rows.TooManyRows",
    }
}

fn pattern_name(fault: PatternFault) -> &'static [u8]
    ensures { result.now ≡ pattern_name fault }
{
    match fault {
        PatternFault::Unexpected { .. } => b"Pattern.Unexpected",
        PatternFault::RepeatedPiece { .. } => b"Pattern.RepeatedPiece",
        PatternFault::TooManyChosen { .. } => b"Pattern.TooManyChosen",
        PatternFault::PatternTooLong => b"Pattern.PatternTooLong",
        PatternFault::TooManyQueues => b"Pattern.TooManyQueues",
    }
}

fn cover_name(kind: CoverKind) -> &'static [u8]
    ensures { result.now ≡ cover_name kind }
{
    match kind {
        CoverKind::BadSequence => b"Cover.BadSequence",
        CoverKind::TooManySequences => b"Cover.TooManySequences",
    }
}

fn fumen_name(fault: FumenFault) -> &'static [u8]
    ensures { result.now ≡ fumen_name fault }
{
    match fault {
        FumenFault::NoFumen => b"Fumen.NoFumen",
        FumenFault::BadDigit { .. } => b"Fumen.BadDigit",
        FumenFault::Truncated { .. } => b"Fumen.Truncated",
        FumenFault::RunPastEnd { .. } => b"Fumen.RunPastEnd",
        FumenFault::BadCell { .. } => b"Fumen.BadCell",
        FumenFault::BadAction { .. } => b"Fumen.BadAction",
        FumenFault::PieceOutside { .. } => b"Fumen.PieceOutside",
        FumenFault::BadComment { .. } => b"Fumen.BadComment",
        FumenFault::TooManyPages => b"Fumen.TooManyPages",
    }
}

fn list_name(kind: ListKind) -> &'static [u8]
    ensures { result.now ≡ list_name kind }
{
    match kind {
        ListKind::TooManyPages => b"List.TooManyPages",
        ListKind::BadLine => b"List.BadLine",
        ListKind::BadCells => b"List.BadCells",
        ListKind::BadOperation => b"List.BadOperation",
        ListKind::BadFlags => b"List.BadFlags",
        ListKind::BadComment => b"List.BadComment",
    }
}

fn encode_name(fault: EncodeFault) -> &'static [u8]
    ensures { result.now ≡ encode_name fault }
{
    match fault {
        EncodeFault::TooManyPages => b"Encode.TooManyPages",
        EncodeFault::BadCell { .. } => b"Encode.BadCell",
        EncodeFault::PieceOutside { .. } => b"Encode.PieceOutside",
        EncodeFault::CommentTooLong { .. } => b"Encode.CommentTooLong",
        EncodeFault::RowTooHigh { .. } => b"Encode.RowTooHigh",
    }
}

fn fault_name(fault: Fault) -> &'static [u8]
    ensures { result.now ≡ fault_name fault }
{
    match fault {
        Fault::Words(words) => words_name(words.kind),
        Fault::Kicks(kicks) => kicks_name(kicks),
        Fault::SourceTooLong => b"SourceTooLong",
        Fault::Fumen(fumen) => fumen_name(fumen),
        Fault::NoPage { .. } => b"NoPage",
        Fault::List(list) => list_name(list.kind),
        Fault::Encode(encode) => encode_name(encode),
        Fault::Rows(rows) => rows_name(rows),
        Fault::FieldTooHigh { .. } => b"FieldTooHigh",
        Fault::FullRow { .. } => b"FullRow",
        Fault::Pattern(pattern) => pattern_name(pattern),
        Fault::NotOneQueue { .. } => b"NotOneQueue",
        Fault::TooFewPieces { .. } => b"TooFewPieces",
        Fault::BadAfter { .. } => b"BadAfter",
        Fault::Cover(cover) => cover_name(cover.kind),
    }
}

fn kicks_numbers(fault: KickFault) -> FaultNumbers
    ensures { numbers_of result ≡ kicks_numbers fault }
{
    match fault {
        KickFault::Unexpected { place } => FaultNumbers::One(place),
        KickFault::RepeatedEntry { place } => FaultNumbers::One(place),
    }
}

fn rows_numbers(fault: RowsFault) -> FaultNumbers
    ensures { numbers_of result ≡ rows_numbers fault }
{
    match fault {
        RowsFault::BadRowChar { place } => FaultNumbers::One(place),
        RowsFault::BadRowLength { row } => FaultNumbers::One(usize::from(row)),
        RowsFault::TooManyRows => FaultNumbers::None,
    }
}

fn pattern_numbers(fault: PatternFault) -> FaultNumbers
    ensures { numbers_of result ≡ pattern_numbers fault }
{
    match fault {
        PatternFault::Unexpected { place } => FaultNumbers::One(place),
        PatternFault::RepeatedPiece { place } => FaultNumbers::One(place),
        PatternFault::TooManyChosen { place } => FaultNumbers::One(place),
        PatternFault::PatternTooLong => FaultNumbers::None,
        PatternFault::TooManyQueues => FaultNumbers::None,
    }
}

fn fumen_numbers(fault: FumenFault) -> FaultNumbers
    ensures { numbers_of result ≡ fumen_numbers fault }
{
    match fault {
        FumenFault::NoFumen => FaultNumbers::None,
        FumenFault::BadDigit { place } => FaultNumbers::One(place),
        FumenFault::Truncated { place } => FaultNumbers::One(place),
        FumenFault::RunPastEnd { place } => FaultNumbers::One(place),
        FumenFault::BadCell { place } => FaultNumbers::One(place),
        FumenFault::BadAction { place } => FaultNumbers::One(place),
        FumenFault::PieceOutside { page } => FaultNumbers::One(page as usize),
        FumenFault::BadComment { place } => FaultNumbers::One(place),
        FumenFault::TooManyPages => FaultNumbers::None,
    }
}

fn encode_numbers(fault: EncodeFault) -> FaultNumbers
    ensures { numbers_of result ≡ encode_numbers fault }
{
    match fault {
        EncodeFault::TooManyPages => FaultNumbers::None,
        EncodeFault::BadCell { page } => FaultNumbers::One(page as usize),
        EncodeFault::PieceOutside { page } => FaultNumbers::One(page as usize),
        EncodeFault::CommentTooLong { page } => FaultNumbers::One(page as usize),
        EncodeFault::RowTooHigh { page } => FaultNumbers::One(page as usize),
    }
}

fn fault_numbers(fault: Fault) -> FaultNumbers
    ensures { numbers_of result ≡ fault_numbers fault }
{
    match fault {
        Fault::Words(words) => FaultNumbers::One(words.index),
        Fault::Kicks(kicks) => kicks_numbers(kicks),
        Fault::SourceTooLong => FaultNumbers::None,
        Fault::Fumen(fumen) => fumen_numbers(fumen),
        Fault::List(list) => FaultNumbers::One(list.line as usize),
        Fault::Encode(encode) => encode_numbers(encode),
        Fault::NoPage { asked, there } => FaultNumbers::Two(asked as usize, there as usize),
        Fault::Rows(rows) => rows_numbers(rows),
        Fault::FieldTooHigh { row } => FaultNumbers::One(usize::from(row)),
        Fault::FullRow { row } => FaultNumbers::One(usize::from(row)),
        Fault::Pattern(pattern) => pattern_numbers(pattern),
        Fault::NotOneQueue { count } => FaultNumbers::One(count as usize),
        Fault::TooFewPieces { have, need } => FaultNumbers::Two(
            usize::from(have),
            usize::from(need),
        ),
        Fault::BadAfter { place } => FaultNumbers::One(place),
        Fault::Cover(cover) => FaultNumbers::One(cover.line as usize),
    }
}

fn write_named<E: Sink>(err: &mut E, name: &[u8], numbers: FaultNumbers) -> Result<(), Failed>
    ensures written { WritesAll (E.written err.old) (E.written err.new) result
        (line_with name.now (numbers_of numbers)) }
    ensures cause { HasCause E.counts_failures_alone (E.faults err.old) (E.faults err.new) result }
{
    let mut one = Buffer::new();
    let mut other = Buffer::new();
    match numbers {
        FaultNumbers::None => write_pieces(err, &[b"input: ", name, b"\n"]),
        FaultNumbers::One(number) => {
            let digits = one.format(number).as_bytes();
            write_pieces(err, &[b"input: ", name, b" ", digits, b"\n"])
        }
        FaultNumbers::Two(first, second) => {
            let digits = one.format(first).as_bytes();
            let more = other.format(second).as_bytes();
            write_pieces(err, &[b"input: ", name, b" ", digits, b" ", more, b"\n"])
        }
    }
}

/// Writes the line of a fault, as in `input: TooFewPieces 1 2`.
#[tactic(auto, unfolding(crate::specs::FaultLine::fault_line))]
pub fn write_fault<E: Sink>(err: &mut E, fault: Fault) -> Result<(), Failed>
    ensures written { WritesAll (E.written err.old) (E.written err.new) result (fault_line fault) }
    ensures cause { HasCause E.counts_failures_alone (E.faults err.old) (E.faults err.new) result }
{
    write_named(err, fault_name(fault), fault_numbers(fault))
}
