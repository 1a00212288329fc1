// Sources of the most bytes that may be read, and of one byte more.
use crate::tables::repeated;
use crate::whole::runs;
use pc_outside::NoMemory;
use std::alloc::Global;
use std::test::Fail;

const MOST: usize = 4_194_304;

/// A line, a text that is filled up with a byte to the most bytes that may be read, and how that run ends.
struct LongSource<'a> {
    line: &'a str,
    text: &'a [u8],
    filler: u8,
    /// The status, the output and the line of a fault.
    end: (u8, &'a [u8], &'a [u8]),
}

const FUMENS: &[LongSource<'_>] = &[
    LongSource {
        line: "decode",
        text: b"v115@vhAVQJ",
        filler: b'?',
        end: (0, b"| T0:4,0 --cl -\n", b""),
    },
    LongSource {
        line: "show",
        text: b"v115@vhAVQJ",
        filler: b' ',
        end: (0, b"page 1\n____t_____\n___ttt____\n__________\n", b""),
    },
    LongSource {
        line: "show --page 1",
        text: b"",
        filler: b' ',
        end: (2, b"", b"input: Fumen.NoFumen\n"),
    },
    LongSource {
        line: "decode",
        text: b"v115@vhAVQJ&",
        filler: b'x',
        end: (0, b"| T0:4,0 --cl -\n", b""),
    },
    LongSource {
        line: "decode",
        text: b"",
        filler: b' ',
        end: (2, b"", b"input: Fumen.NoFumen\n"),
    },
];

const FIELDS: &[LongSource<'_>] = &[
    LongSource {
        line: "path --tetfu - --clear-line 1 --patterns I",
        text: b"v115@bhF8NeAgH",
        filler: b'?',
        end: (0, b"I0:7,0\nend 1\n", b""),
    },
    LongSource {
        line: "percent --tetfu - --clear-line 1 --patterns I",
        text: b"v115@bhF8NeAgH",
        filler: b'\n',
        end: (0, b"queues 1\ngood 1\nrate 10000\n", b""),
    },
    LongSource {
        line: "combo --tetfu - --patterns I",
        text: b"v115@bhF8NeAgH",
        filler: b'\t',
        end: (0, b"I0:7,0\ncombo 1\n", b""),
    },
];

const LINES: &[LongSource<'_>] = &[
    LongSource {
        line: "encode",
        text: b"",
        filler: b'\n',
        end: (2, b"", b"input: List.BadLine 1\n"),
    },
    LongSource {
        line: "encode",
        text: b"| - --cl #",
        filler: b'%',
        end: (2, b"", b"input: Encode.CommentTooLong 1\n"),
    },
    LongSource {
        line: "cover --rows XXXXXX____ --clear-line 1 --patterns I",
        text: b"end 1\n",
        filler: b'0',
        end: (2, b"", b"input: Cover.BadSequence 2\n"),
    },
    LongSource {
        line: "cover --rows XXXXXXX___ --clear-line 1 --patterns I",
        text: b"end 1\n",
        filler: b'\n',
        end: (2, b"", b"input: Cover.TooManySequences 100002\n"),
    },
];

/// A text that is filled up with this byte to a length.
fn filled(alloc: Global, text: &[u8], filler: u8, length: usize) -> Result<Vec<u8>, NoMemory> {
    repeated(
        alloc,
        text,
        &[filler],
        length.saturating_sub(text.len()),
        b"",
    )
}

/// Asserts how a run ends for a text of the most bytes that may be read, and that one byte more is too many, whatever
/// the text.
fn reads(rt: &impl AllocGlobal, case: &LongSource<'_>) -> Result<(), Fail> {
    let most = filled(rt.alloc(), case.text, case.filler, MOST)?;
    runs(rt.alloc()).ends((case.line, &[], &most), case.end)?;
    let more = filled(rt.alloc(), case.text, case.filler, MOST + 1)?;
    let too_long = (2, b"".as_slice(), b"input: SourceTooLong\n".as_slice());
    runs(rt.alloc()).ends((case.line, &[], &more), too_long)
}

fn reads_all(rt: &impl AllocGlobal, cases: &[LongSource<'_>]) -> Result<(), Fail> {
    for case in cases {
        reads(rt, case)?;
    }
    Ok(())
}

#[test]
fn fumen_texts(rt: HostRuntime) -> Result<(), Fail> {
    reads_all(&rt, FUMENS)
}

#[test]
fn fields(rt: HostRuntime) -> Result<(), Fail> {
    reads_all(&rt, FIELDS)
}

#[test]
fn lines(rt: HostRuntime) -> Result<(), Fail> {
    reads_all(&rt, LINES)
}
