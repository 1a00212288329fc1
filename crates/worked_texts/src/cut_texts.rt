// Fumen texts that are cut at each digit, and lists of the most pages that may be read.
use crate::tables::{repeated, succeeds};
use crate::whole::runs;
use pc_outside::NoMemory;
use std::alloc::Global;
use std::test::Fail;

/// How `decode` of a text ends.
#[derive(Clone, Copy)]
enum Ends<'a> {
    /// With status 0, after these lines of pages.
    Lines(&'a [u8]),
    /// With status 2, the line of a fault and no output.
    Fault(&'a [u8]),
}

/// How `decode` ends, from a number of digits on.
type Step<'a> = (usize, Ends<'a>);

const PAGE_WITH_A_COMMENT: &[Step<'_>] = &[
    (1, Ends::Fault(b"input: Fumen.Truncated 0\n")),
    (2, Ends::Fault(b"input: Fumen.Truncated 2\n")),
    (3, Ends::Fault(b"input: Fumen.Truncated 3\n")),
    (6, Ends::Fault(b"input: Fumen.Truncated 6\n")),
    (8, Ends::Fault(b"input: Fumen.Truncated 8\n")),
    (13, Ends::Fault(b"input: Fumen.Truncated 13\n")),
    (18, Ends::Lines(b"| - --cl #hello\n")),
];

const PROMISED_PAGE: &[Step<'_>] = &[
    (1, Ends::Fault(b"input: Fumen.Truncated 0\n")),
    (2, Ends::Fault(b"input: Fumen.Truncated 2\n")),
    (3, Ends::Fault(b"input: Fumen.Truncated 3\n")),
    (6, Ends::Fault(b"input: Fumen.Truncated 6\n")),
    (
        9,
        Ends::Lines(b"| T0:4,0 --cl -\n____T_____/___TTT____| - ---l -\n"),
    ),
];

const PAGES_OF_RUNS: &[Step<'_>] = &[
    (1, Ends::Fault(b"input: Fumen.Truncated 0\n")),
    (2, Ends::Fault(b"input: Fumen.Truncated 2\n")),
    (4, Ends::Fault(b"input: Fumen.Truncated 4\n")),
    (6, Ends::Fault(b"input: Fumen.Truncated 6\n")),
    (8, Ends::Fault(b"input: Fumen.Truncated 8\n")),
    (10, Ends::Fault(b"input: Fumen.Truncated 10\n")),
    (13, Ends::Lines(b"XXXXXX____/XXXXXX____| I0:7,0 --cl -\n")),
    (14, Ends::Fault(b"input: Fumen.Truncated 13\n")),
    (15, Ends::Fault(b"input: Fumen.Truncated 15\n")),
    (16, Ends::Fault(b"input: Fumen.Truncated 16\n")),
    (
        19,
        Ends::Lines(b"XXXXXX____/XXXXXX____| I0:7,0 --cl -\nXXXXXX____| I0:7,0 ---l -\n"),
    ),
];

/// The step that holds at this number of digits. Each step holds from its own number on.
fn ends_at<'a>(steps: &[Step<'a>], count: usize) -> Ends<'a> {
    let mut ends = Ends::Lines(b"");
    for (from, step) in steps {
        if *from <= count {
            ends = *step;
        }
    }
    ends
}

/// Asserts how `decode` of these digits ends.
fn decode_ends(rt: &impl AllocGlobal, digits: &[u8], ends: Ends<'_>) -> Result<(), Fail> {
    let text = repeated(rt.alloc(), b"v115@", digits, 1, b"")?;
    match ends {
        Ends::Lines(lines) => runs(rt.alloc()).writes("decode", &text, lines),
        Ends::Fault(line) => runs(rt.alloc()).refused("decode", &[], &text, line),
    }
}

/// Asserts how `decode` ends for every text that is cut after some digits.
fn cut(rt: &impl AllocGlobal, digits: &[u8], steps: &[Step<'_>]) -> Result<(), Fail> {
    for count in 0..=digits.len() {
        decode_ends(rt, &digits[..count], ends_at(steps, count))?;
    }
    Ok(())
}

#[test]
fn a_page_with_a_comment(rt: HostRuntime) -> Result<(), Fail> {
    cut(&rt, b"vhAAgWFAooMDEPBAAA", PAGE_WITH_A_COMMENT)
}

#[test]
fn a_promised_page(rt: HostRuntime) -> Result<(), Fail> {
    cut(&rt, b"vhBVQJAAA", PROMISED_PAGE)
}

#[test]
fn pages_of_runs(rt: HostRuntime) -> Result<(), Fail> {
    cut(&rt, b"RhF8DeF8NexRJvhAxxB", PAGES_OF_RUNS)
}

#[test]
fn a_comment_without_its_length(rt: HostRuntime) -> Result<(), Fail> {
    decode_ends(&rt, b"vhAAgW//", Ends::Fault(b"input: Fumen.Truncated 8\n"))
}

const DIGITS: &[u8; 64] = b"ABCDEFGHIJKLMNOPQRSTUVWXYZabcdefghijklmnopqrstuvwxyz0123456789+/";

/// The fumen of this many pages, all unchanged.
fn unchanged(alloc: Global, pages: usize) -> Result<Vec<u8>, NoMemory> {
    let mut text = Vec::from_slice(alloc, b"v115@")?;
    for page in 0..pages {
        if page % 64 == 0 {
            text.extend_from_slice(b"vh")?;
            text.push(DIGITS[(pages - page - 1).min(63)])?;
        }
        text.extend_from_slice(if page == 0 { b"AgH" } else { b"AAA" })?;
    }
    Ok(text)
}

/// The lines of a page and of this many more pages, all unchanged.
fn unchanged_lines(alloc: Global, more: usize) -> Result<Vec<u8>, NoMemory> {
    repeated(alloc, b"| - --cl -\n", b"| - ---l -\n", more, b"")
}

const COUNTS_OF_PAGES: &[usize] = &[1, 64, 65, 128, 129, 10_000];

#[test]
fn unchanged_pages(rt: HostRuntime) -> Result<(), Fail> {
    for pages in COUNTS_OF_PAGES {
        let text = unchanged(rt.alloc(), *pages)?;
        let lines = unchanged_lines(rt.alloc(), pages.saturating_sub(1))?;
        runs(rt.alloc()).writes("decode", &text, &lines)?;
    }
    Ok(())
}

#[test]
fn more_pages_than_may_be_read(rt: HostRuntime) -> Result<(), Fail> {
    let line = b"input: Fumen.TooManyPages\n";
    let text = unchanged(rt.alloc(), 10_001)?;
    runs(rt.alloc()).refused("decode", &[], &text, line)?;
    runs(rt.alloc()).refused("show --page 1", &[], &text, line)
}

#[test]
fn as_many_lines_as_may_be_read(rt: HostRuntime) -> Result<(), Fail> {
    let lines = unchanged_lines(rt.alloc(), 9_999)?;
    let ended = succeeds(&rt, "encode", &lines)?;
    runs(rt.alloc()).writes("decode", ended.out.bytes(), &lines)
}

#[test]
fn more_lines_than_may_be_read(rt: HostRuntime) -> Result<(), Fail> {
    let lines = unchanged_lines(rt.alloc(), 10_000)?;
    let fault = b"input: List.TooManyPages 10001\n";
    runs(rt.alloc()).refused("encode", &[], &lines, fault)
}
