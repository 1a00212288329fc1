// Runs of `decode` and `show`, which read the source.
use crate::whole::runs;
use pc_outside::{MemorySource, NoMemory};
use run_outcomes::Outcome;
use run_outcomes::asserts::{TextCase, has_ended};
use std::alloc::Global;
use std::test::Fail;

/// Fumens, each with the lines that `decode` writes.
const DECODED: &[(&[u8], &[u8])] = &[
    (b"v115@vhAAgH", b"| - --cl -\n"),
    (b"v115@", b""),
    (b"v115@vhAVQJ", b"| T0:4,0 --cl -\n"),
    (
        b"v115@vhBVQJAAA",
        b"| T0:4,0 --cl -\n____T_____/___TTT____| - ---l -\n",
    ),
    (b"v115@vhAAgWFAooMDEPBAAA", b"| - --cl #hello\n"),
    (b"v115@vhAAgWGAl/SSBQYAAA", b"| - --cl #%uD800\n"),
    (
        b"http://fumen.zui.jp/?v115@vhA?VQ J&x=1",
        b"| T0:4,0 --cl -\n",
    ),
    (
        b"v115@9gD8DeF8CeG8BeH8CeC8JeAgH",
        b"XXXX____XX/XXXX___XXX/XXXX__XXXX/XXXX___XXX| - --cl -\n",
    ),
    (b"v110@7eAA4G", b"| - --cl -\n"),
    (b"v110@7eAVeI", b"| T0:4,0 --cl -\n"),
];

/// Fumens with a page of 21 rows that are refused.
const FAULTS_OF_21_ROWS: &[TextCase<'_>] = &[
    ("decode", b"v110@7eAAA3", b"input: Fumen.BadAction 3\n"),
    ("decode", b"v110@7eA//2", b"input: Fumen.PieceOutside 1\n"),
];

/// Fumens that `decode` and `show` refuse.
const FAULTS: &[(&[u8], &[u8])] = &[
    (b"v115@vhAAg", b"input: Fumen.Truncated 3\n"),
    (b"v115@vh-AgH", b"input: Fumen.BadDigit 2\n"),
    (b"v115@bhbhAgH", b"input: Fumen.RunPastEnd 2\n"),
    (b"v115@/dAgH", b"input: Fumen.BadCell 0\n"),
    (b"v115@vhA///", b"input: Fumen.BadAction 3\n"),
    (b"v115@vhAVOJ", b"input: Fumen.PieceOutside 1\n"),
    (b"v115@vhAAgWBA/////", b"input: Fumen.BadComment 8\n"),
    (b"v115@vhBAgH", b"input: Fumen.Truncated 6\n"),
    (b"v115@vhAAgW//", b"input: Fumen.Truncated 8\n"),
    (b"hello", b"input: Fumen.NoFumen\n"),
];

const SHOWN: &[TextCase<'_>] = &[
    (
        "show",
        b"v115@vhAVQJ",
        b"page 1\n____t_____\n___ttt____\n__________\n",
    ),
    (
        "show --page 1",
        b"v115@vhAVQJ",
        b"page 1\n____t_____\n___ttt____\n__________\n",
    ),
    (
        "show --page 2",
        b"v115@vhBVQJAAA",
        b"page 2\n____T_____\n___TTT____\n__________\n",
    ),
    (
        "show",
        b"v115@vhBVQJAAA",
        b"page 1\n____t_____\n___ttt____\n__________\npage 2\n____T_____\n___TTT____\n__________\n",
    ),
    ("show", b"v115@vhAAgH", b"page 1\n__________\n"),
    ("show", b"v115@", b""),
];

/// Pages that a fumen doesn't have, and words that the commands refuse.
const REFUSED: &[TextCase<'_>] = &[
    ("show --page 2", b"v115@vhAVQJ", b"input: NoPage 2 1\n"),
    ("show --page 1", b"v115@", b"input: NoPage 1 0\n"),
    (
        "decode --page 1",
        b"v115@vhAAgH",
        b"input: Words.UnknownOption 1\n",
    ),
    (
        "show --rows _",
        b"v115@vhAAgH",
        b"input: Words.UnknownOption 1\n",
    ),
    (
        "show --page 0",
        b"v115@vhAAgH",
        b"input: Words.BadValue 2\n",
    ),
    (
        "show --page 10001",
        b"v115@vhAAgH",
        b"input: Words.BadValue 2\n",
    ),
    (
        "show --page",
        b"v115@vhAAgH",
        b"input: Words.MissingValue 1\n",
    ),
    (
        "show --page 1 --page 1",
        b"v115@vhAAgH",
        b"input: Words.RepeatedOption 3\n",
    ),
    (
        "path --dialect 115",
        b"v115@vhAAgH",
        b"input: Words.UnknownOption 1\n",
    ),
];

/// Runs `decode` over a source that gives one byte at a time.
fn slowly(alloc: Global, text: &[u8]) -> Result<Outcome, NoMemory> {
    let bytes = Vec::from_slice(alloc, text)?;
    let source = MemorySource::new(bytes, Vec::new(alloc)).with_piece(1);
    runs(alloc).run_words("decode", &[], source, &[])
}

/// Asserts what `decode` writes, also for a source that gives one byte at a time.
fn decodes(rt: &impl AllocGlobal, text: &[u8], output: &[u8]) -> Result<(), Fail> {
    runs(rt.alloc()).writes("decode", text, output)?;
    if !has_ended(&slowly(rt.alloc(), text)?, 0, output, b"") {
        return Err(Fail::new(format_args!("another end: {text:?}")));
    }
    Ok(())
}

#[test]
fn pages_are_decoded(rt: HostRuntime) -> Result<(), Fail> {
    for (text, output) in DECODED {
        decodes(&rt, text, output)?;
    }
    Ok(())
}

#[test]
fn first_faults_of_a_fumen(rt: HostRuntime) -> Result<(), Fail> {
    for (text, line) in FAULTS {
        runs(rt.alloc()).refused("decode", &[], text, line)?;
        runs(rt.alloc()).refused("show --page 1", &[], text, line)?;
    }
    Ok(())
}

#[test]
fn first_faults_of_pages_of_21_rows(rt: HostRuntime) -> Result<(), Fail> {
    runs(rt.alloc()).refuses_all_texts(FAULTS_OF_21_ROWS)
}

#[test]
fn pages_are_shown(rt: HostRuntime) -> Result<(), Fail> {
    runs(rt.alloc()).writes_all(SHOWN)
}

#[test]
fn words_and_numbers_of_pages_are_refused(rt: HostRuntime) -> Result<(), Fail> {
    runs(rt.alloc()).refuses_all_texts(REFUSED)
}
