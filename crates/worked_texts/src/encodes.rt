// Runs of `encode`, which reads the lines of pages from the source.
use crate::tables::{repeated, succeeds};
use crate::whole::runs;
use pc_outside::NoMemory;
use run_outcomes::asserts::TextCase;
use std::alloc::Global;
use std::test::Fail;

/// Lines of pages, and their fumens, from which `decode` gives the lines back.
const ENCODED: &[TextCase<'_>] = &[
    (
        "encode",
        b"| T0:4,0 --cl -\n____T_____/___TTT____| - ---l -\n",
        b"v115@vhBVQJAAA\n",
    ),
    ("encode", b"| - --cl #hello\n", b"v115@vhAAgWFAooMDEPBAAA\n"),
    (
        "encode",
        b"| - --cl #%uD800\n",
        b"v115@vhAAgWGAl/SSBQYAAA\n",
    ),
    (
        "encode",
        b"XXXX____XX/XXXX___XXX/XXXX__XXXX/XXXX___XXX| - --cl -\n",
        b"v115@9gD8DeF8CeG8BeH8CeC8JeAgH\n",
    ),
    ("encode", b"", b"v115@\n"),
    (
        "encode --dialect 110",
        b"| T0:4,0 --cl -\n",
        b"v110@7eAVeI\n",
    ),
];

/// Lines that are refused, each with its fault.
const REFUSED: &[TextCase<'_>] = &[
    ("encode", b"| - --cl", b"input: List.BadLine 1\n"),
    (
        "encode",
        b"| - --cl -\nX| - --cl -\n",
        b"input: List.BadCells 2\n",
    ),
    (
        "encode",
        b"| T0:4,23 --cl -\n",
        b"input: List.BadOperation 1\n",
    ),
    ("encode", b"| - -mr- -\n", b"input: List.BadFlags 1\n"),
    ("encode", b"| - --cl hello\n", b"input: List.BadComment 1\n"),
    (
        "encode",
        b"| T0:0,0 --cl -\n",
        b"input: Encode.PieceOutside 1\n",
    ),
    (
        "encode --dialect 110",
        b"| T0:4,20 --cl -\n",
        b"input: Encode.PieceOutside 1\n",
    ),
    ("encode --dialect 111", b"", b"input: Words.BadValue 2\n"),
];

/// Asserts that `encode` writes this text for these lines, and that `decode` gives the lines back.
fn both_ways(rt: &impl AllocGlobal, line: &str, lines: &[u8], text: &[u8]) -> Result<(), Fail> {
    runs(rt.alloc()).writes(line, lines, text)?;
    runs(rt.alloc()).writes("decode", text, lines)
}

#[test]
fn pages_are_encoded_and_decoded(rt: HostRuntime) -> Result<(), Fail> {
    for (line, lines, text) in ENCODED {
        both_ways(&rt, line, lines, text)?;
    }
    Ok(())
}

#[test]
fn the_last_line_may_have_no_end(rt: HostRuntime) -> Result<(), Fail> {
    runs(rt.alloc()).writes("encode", b"| - --cl -", b"v115@vhAAgH\n")
}

#[test]
fn lists_that_are_refused(rt: HostRuntime) -> Result<(), Fail> {
    runs(rt.alloc()).refuses_all_texts(REFUSED)
}

#[test]
fn row_22_is_above_the_pages_of_21_rows(rt: HostRuntime) -> Result<(), Fail> {
    let _ = succeeds(&rt, "encode --dialect 115", b"| T0:4,20 --cl -\n")?;
    let rows = repeated(
        rt.alloc(),
        b"X_________",
        b"/__________",
        21,
        b"| - --cl -\n",
    )?;
    let fault = b"input: Encode.RowTooHigh 1\n";
    runs(rt.alloc()).refused("encode --dialect 110", &[], &rows, fault)
}

/// These digits as a text, in which a `?` stands before each that begins a line.
fn broken(alloc: Global, digits: &[u8]) -> Result<Vec<u8>, NoMemory> {
    let mut text = Vec::from_slice(alloc, b"v115@")?;
    for (place, digit) in digits.iter().enumerate() {
        if matches!(place, 42 | 89 | 136 | 183) {
            text.push(b'?')?;
        }
        text.push(*digit)?;
    }
    text.push(b'\n')?;
    Ok(text)
}

#[test]
fn promised_pages(rt: HostRuntime) -> Result<(), Fail> {
    let lines = repeated(rt.alloc(), b"| - --cl -\n", b"| - ---l -\n", 64, b"")?;
    let digits = repeated(rt.alloc(), b"vh/AgH", b"AAA", 63, b"vhAAAA")?;
    both_ways(&rt, "encode", &lines, &broken(rt.alloc(), &digits)?)
}

/// The line of a page with a comment of this many letters.
fn commented(alloc: Global, letters: usize) -> Result<Vec<u8>, NoMemory> {
    repeated(alloc, b"| - --cl #", b"a", letters, b"\n")
}

#[test]
fn long_comments(rt: HostRuntime) -> Result<(), Fail> {
    let _ = succeeds(&rt, "encode", &commented(rt.alloc(), 4095)?)?;
    let longer = commented(rt.alloc(), 4096)?;
    let fault = b"input: Encode.CommentTooLong 1\n";
    runs(rt.alloc()).refused("encode", &[], &longer, fault)
}
