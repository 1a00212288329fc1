// Other tables of offsets: how they change `path`, and what `kicks` writes for them.
use crate::whole::runs;
use kick_file::{parse, print};
use pc_outside::{MemorySource, NoMemory, Source};
use run_outcomes::Outcome;
use run_outcomes::asserts::{Case, has_ended, is_so, newlines};
use std::alloc::Global;
use std::test::Fail;

const TWO_ROWS: &str = "path --rows XXXXXX____/XXXXXX____ --clear-line 2 --patterns LL";

const RATE: &str = "percent --rows XXXXXXXXX_/XXXXXXX___ --clear-line 2 --patterns L --kicks";

const NO_QUESTION: &str = "path --patterns Q --rows / --kicks";

/// An L without any kick.
const NO_KICK: &str = "LR:0,0/0,0/0,0/0,0/0,0;LL:0,0/0,0/0,0/0,0/0,0";

const PIECE_WITHOUT_KICKS: &[Case<'_>] = &[
    (TWO_ROWS, &["--kicks", NO_KICK], b"L0:8,0 L2:7,1\nend 1\n"),
    (
        TWO_ROWS,
        &["--kicks", ""],
        b"L0:8,0 L2:7,1\nL2:7,1 L0:8,0\nend 2\n",
    ),
    (TWO_ROWS, &[], b"L0:8,0 L2:7,1\nL2:7,1 L0:8,0\nend 2\n"),
    (RATE, &[""], b"queues 1\ngood 1\nrate 10000\n"),
    (RATE, &[NO_KICK], b"queues 1\ngood 0\nrate 0\n"),
];

/// Tables that `kicks` refuses, as does `path`, which reads the table before anything else.
const FAULTS: &[Case<'_>] = &[
    ("kicks --kicks", &["TR:0,0"], b"input: Kicks.Unexpected 6\n"),
    (NO_QUESTION, &["TR:0,0"], b"input: Kicks.Unexpected 6\n"),
    ("kicks --kicks", &["TR:4"], b"input: Kicks.Unexpected 3\n"),
    (NO_QUESTION, &["TR:4"], b"input: Kicks.Unexpected 3\n"),
    ("kicks --kicks", &["Tr:0,0"], b"input: Kicks.Unexpected 1\n"),
    (NO_QUESTION, &["Tr:0,0"], b"input: Kicks.Unexpected 1\n"),
    ("kicks --kicks", &["TR:-0"], b"input: Kicks.Unexpected 4\n"),
    (NO_QUESTION, &["TR:-0"], b"input: Kicks.Unexpected 4\n"),
    (
        "kicks --kicks",
        &["TR:0,0/0,0/0,0/0,0/0,0;TR"],
        b"input: Kicks.RepeatedEntry 23\n",
    ),
    (
        NO_QUESTION,
        &["TR:0,0/0,0/0,0/0,0/0,0;TR"],
        b"input: Kicks.RepeatedEntry 23\n",
    ),
    (
        "kicks --kicks",
        &["TR:0,0/0,0/0,0/0,0/0,0;"],
        b"input: Kicks.Unexpected 23\n",
    ),
    (
        NO_QUESTION,
        &["TR:0,0/0,0/0,0/0,0/0,0;"],
        b"input: Kicks.Unexpected 23\n",
    ),
    ("kicks --rows", &[], b"input: Words.UnknownOption 1\n"),
];

/// Tables whose printed entries are given back.
const GIVEN_BACK: &[&str] = &["", NO_KICK, "tR:3,-3/0,0/0,0/0,0/-3,3"];

/// Lines that `kicks` writes.
const LINES: &[&[u8]] = &[
    b"IR:-1,0/0,0/0,0/0,1/0,-2",
    b"I0R:1,0/-1,0/2,0/-1,-1/2,2",
    b"T0R:0,0/-1,0/-1,1/0,-2/-1,-2",
];

#[test]
fn a_piece_without_kicks(rt: HostRuntime) -> Result<(), Fail> {
    runs(rt.alloc()).lists_all(PIECE_WITHOUT_KICKS)
}

#[test]
fn faults_of_tables(rt: HostRuntime) -> Result<(), Fail> {
    runs(rt.alloc()).refuses_all(FAULTS)
}

/// The output of `kicks` with a table text.
fn kicks_of(rt: &impl AllocGlobal, text: &str) -> Result<Vec<u8>, Fail> {
    let ended = runs(rt.alloc()).over("kicks --kicks", &[text], b"")?;
    let output = ended.out.bytes();
    is_so(has_ended(&ended, 0, output, b""), text)?;
    Ok(Vec::from_slice(rt.alloc(), output)?)
}

fn has_line(output: &[u8], line: &[u8]) -> bool {
    output
        .split(|byte| *byte == b'\n')
        .any(|other| other == line)
}

#[test]
fn the_table_and_its_kicks(rt: HostRuntime) -> Result<(), Fail> {
    let output = kicks_of(&rt, "")?;
    for line in LINES {
        assert!(rt; has_line(&output, line));
    }
    assert!(rt; newlines(&output) == 84);
    assert!(rt; output.starts_with(b"I0:0,0/-1,0/2,0/-1,0/2,0\nIR:-1,0/0,0/0,0/0,1/0,-2\n"));
    runs(rt.alloc()).lists("kicks", &[], &output)
}

/// The first 28 lines, separated by `;`.
fn entries(alloc: Global, output: &[u8]) -> Result<Vec<u8>, NoMemory> {
    let mut text = Vec::new(alloc);
    for line in output.split(|byte| *byte == b'\n').take(28) {
        if !text.is_empty() {
            text.push(b';')?;
        }
        text.extend_from_slice(line)?;
    }
    Ok(text)
}

/// Asserts that the entries which `kicks` prints for a table give the same output again.
fn printed_again(rt: &impl AllocGlobal, text: &str) -> Result<(), Fail> {
    let output = kicks_of(rt, text)?;
    let entries = String::from_utf8(entries(rt.alloc(), &output)?);
    let again = kicks_of(rt, entries.ok().ok_or("no text")?.as_str())?;
    is_so(output.as_slice() == again.as_slice(), text)
}

#[test]
fn printed_entries_may_be_given_back(rt: HostRuntime) -> Result<(), Fail> {
    for text in GIVEN_BACK {
        printed_again(&rt, text)?;
    }
    Ok(())
}

/// A run of `path` with a faulty table, over a source whose first read fails.
fn with_faulty_table(alloc: Global) -> Result<Outcome, NoMemory> {
    let bytes = Vec::from_slice(alloc, b"hello")?;
    let source = MemorySource::new(bytes, vec![in alloc; 1]?);
    let line = "path --tetfu - --patterns I --kicks T";
    runs(alloc).run_words(line, &[], source, &[])
}

#[test]
fn a_faulty_table_leaves_the_source(rt: HostRuntime) -> Result<(), Fail> {
    let mut ended = with_faulty_table(rt.alloc())?;
    assert!(rt; has_ended(&ended, 2, b"", b"input: Kicks.Unexpected 1\n"));
    let mut rest = [0u8; 8];
    assert!(rt; ended.source.read(&mut rest).is_err());
    assert!(rt; ended.source.read(&mut rest) == Ok(5));
    assert!(rt; rest == *b"hello\0\0\0");
    Ok(())
}

/// The numbers of offsets.
const NUMBERS: [&[u8]; 7] = [b"-3", b"-2", b"-1", b"0", b"1", b"2", b"3"];

/// The next number of a list that looks random.
fn next(state: u64) -> u64 {
    state
        .wrapping_mul(6_364_136_223_846_793_005)
        .wrapping_add(1_442_695_040_888_963_407)
}

/// Appends the offset that was drawn.
fn push_offset(text: &mut Vec<u8>, drawn: u64) -> Result<(), NoMemory> {
    text.extend_from_slice(NUMBERS[(drawn >> 40) as usize % 7])?;
    text.push(b',')?;
    text.extend_from_slice(NUMBERS[(drawn >> 50) as usize % 7])?;
    Ok(())
}

/// The text of a table whose offsets depend on a number, as it is printed.
fn table_text(alloc: Global, seed: u64) -> Result<Vec<u8>, NoMemory> {
    let mut state = seed;
    let mut text = Vec::new(alloc);
    for piece in b"ILOZTJS" {
        for rotation in b"0R2L" {
            if !text.is_empty() {
                text.push(b';')?;
            }
            text.push(*piece)?;
            text.push(*rotation)?;
            for divider in b":////" {
                state = next(state);
                text.push(*divider)?;
                push_offset(&mut text, state)?;
            }
        }
    }
    Ok(text)
}

#[test]
fn tables_are_printed_as_they_were_read(rt: HostRuntime) -> Result<(), Fail> {
    for number in 0..10_000 {
        let text = String::from_utf8(table_text(rt.alloc(), number)?);
        let text = text.ok().ok_or("no text")?;
        let rules = parse(text.as_str())?;
        let printed = print(rt.alloc(), &rules)?;
        is_so(printed.as_slice() == text.as_bytes(), text.as_str())?;
    }
    Ok(())
}
