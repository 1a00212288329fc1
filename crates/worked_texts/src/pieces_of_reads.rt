// Sources that give few bytes at a time: that doesn't change how a run ends.
ghost use Rattle.std.specs.Prelude.{◌≤◌};

use crate::tables::repeated;
use crate::whole::runs;
use pc_outside::{MemorySource, NoMemory};
use run_outcomes::Outcome;
use run_outcomes::asserts::{has_ended, is_so};
use std::alloc::Global;
use std::test::Fail;

/// Lines that read, each with its source, and one that doesn't.
const READING: &[(&str, &[u8])] = &[
    ("decode", b"v115@vhBVQJAAA"),
    ("decode", b"v115@vhAAg"),
    ("decode", b""),
    ("show", b"v115@vhBVQJAAA"),
    ("show --page 3", b"v115@vhBVQJAAA"),
    (
        "encode",
        b"| T0:4,0 --cl -\n____T_____/___TTT____| - ---l -\n",
    ),
    ("encode", b"| - --cl -\r\n| - --cl\n"),
    (
        "path --tetfu - --clear-line 1 --patterns I",
        b"v115@bhF8NeAgH",
    ),
    (
        "path --tetfu - --clear-line 1 --patterns I",
        b"v115@bhF8NeAg",
    ),
    (
        "percent --tetfu - --clear-line 1 --patterns *p2",
        b"v115@bhF8NeAgH",
    ),
    ("combo --tetfu - --patterns I", b"v115@bhF8NeAgH"),
    (
        "cover --rows XXXXXX____ --clear-line 1 --patterns *p2",
        b"I0:7,0\r\nend 1\n",
    ),
    (
        "cover --rows XXXXXX____ --clear-line 1 --patterns *p2",
        b"I0:7,0\r\nI0:7",
    ),
    ("kicks", b"not read"),
];

/// The most bytes that a read may move.
const PIECES: &[usize] = &[1, 2, 7, 4095, 4097];

/// Runs a line over a source whose reads move at most `piece` bytes each.
fn by_pieces(alloc: Global, line: &str, text: &[u8], piece: usize) -> Result<Outcome, NoMemory>
    requires { 1 ≤ piece }
{
    let bytes = Vec::from_slice(alloc, text)?;
    let source = MemorySource::new(bytes, Vec::new(alloc)).with_piece(piece);
    runs(alloc).run_words(line, &[], source, &[])
}

/// Whether a run ends like another one if each read moves at most `piece` bytes.
fn is_alike(
    alloc: Global,
    line: &str,
    text: &[u8],
    other: &Outcome,
    piece: usize,
) -> Result<bool, NoMemory>
    requires { 1 ≤ piece }
{
    let ended = by_pieces(alloc, line, text, piece)?;
    Ok(has_ended(
        &ended,
        other.status.code(),
        other.out.bytes(),
        other.err.bytes(),
    ))
}

/// Asserts that a run over a text ends alike for reads of several sizes.
fn ends_alike(rt: &impl AllocGlobal, line: &str, text: &[u8]) -> Result<(), Fail> {
    let whole = runs(rt.alloc()).over(line, &[], text)?;
    for piece in PIECES {
        is_so(
            0 < *piece && is_alike(rt.alloc(), line, text, &whole, *piece)?,
            line,
        )?;
    }
    Ok(())
}

#[test]
fn each_command_that_reads(rt: HostRuntime) -> Result<(), Fail> {
    for (line, text) in READING {
        ends_alike(&rt, line, text)?;
    }
    Ok(())
}

#[test]
fn more_than_one_chunk(rt: HostRuntime) -> Result<(), Fail> {
    let lines = repeated(rt.alloc(), b"", b"| T0:4,0 ---- #hello\n", 1500, b"")?;
    ends_alike(&rt, "encode", &lines)?;
    let text = runs(rt.alloc()).over("encode", &[], &lines)?;
    ends_alike(&rt, "decode", text.out.bytes())?;
    ends_alike(&rt, "show --page 1500", text.out.bytes())
}
