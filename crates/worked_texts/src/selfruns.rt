// Runs of `selfrun`, and its pages by the public calls.
use crate::tables::succeeds;
use crate::whole::runs;
use fumen_digits::Dialect;
use fumen_text::{decode, encode};
use pc_app::sample_pages;
use run_outcomes::asserts::{Case, newlines};
use std::alloc::Global;
use std::test::Fail;

const FAULTS: &[Case<'_>] = &[
    ("selfrun", &[], b"input: Words.MissingOption 1\n"),
    ("selfrun --number 0", &[], b"input: Words.MissingOption 3\n"),
    ("selfrun --pages 1", &[], b"input: Words.MissingOption 3\n"),
    (
        "selfrun --pages 0 --seed 1",
        &[],
        b"input: Words.BadValue 2\n",
    ),
    ("selfrun --pages 10001", &[], b"input: Words.BadValue 2\n"),
    (
        "selfrun --number 4294967296",
        &[],
        b"input: Words.BadValue 2\n",
    ),
    ("selfrun --number -1", &[], b"input: Words.BadValue 2\n"),
    (
        "selfrun --pages 1 --number",
        &[],
        b"input: Words.MissingValue 3\n",
    ),
    (
        "selfrun --pages 1 --pages",
        &[],
        b"input: Words.RepeatedOption 3\n",
    ),
    ("selfrun --page 1", &[], b"input: Words.UnknownOption 1\n"),
];

/// Whether `decode` reads 100 sample pages again from what `encode` writes. None if memory runs out, or a call gives a
/// fault.
fn are_read_again(alloc: Global) -> Option<bool> {
    let pages = sample_pages(alloc, 0, 100).ok()?;
    let text = encode(alloc, Dialect::V115, &pages).ok()?;
    let (dialect, again) = decode(alloc, &text).ok()?;
    Some(pages.len() == 100 && dialect == Dialect::V115 && again == pages)
}

#[test]
fn pages_are_read_again(rt: HostRuntime) {
    assert!(rt; are_read_again(rt.alloc()) == Some(true));
}

fn has_third_line(output: &[u8], line: &[u8]) -> bool {
    output.split(|byte| *byte == b'\n').nth(2) == Some(line)
}

#[test]
fn a_hundred_pages(rt: HostRuntime) -> Result<(), Fail> {
    let ended = succeeds(&rt, "selfrun --number 0 --pages 100", b"")?;
    let output = ended.out.bytes();
    assert!(rt; output.starts_with(b"pages 100\nbytes "));
    assert!(rt; has_third_line(output, b"same yes"));
    assert!(rt; newlines(output) == 5);
    runs(rt.alloc()).lists("selfrun --pages 100 --number", &["0"], output)
}

#[test]
fn faults_of_selfrun(rt: HostRuntime) -> Result<(), Fail> {
    runs(rt.alloc()).refuses_all(FAULTS)
}
