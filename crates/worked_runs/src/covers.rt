// Runs of `cover`: which queues given sequences cover.
use crate::whole::runs;
use run_outcomes::asserts::TextCase;
use std::test::Fail;

const ONE_ROW: &str = "cover --rows XXXXXX____ --clear-line 1 --patterns *p2";

/// A field whose cells no number of pieces fills.
const NO_PLACEMENTS: &str = "cover --rows XXXXXXX___ --clear-line 1 --patterns *";

const OPENER: &str = "v115@9gD8DeF8CeG8BeH8CeC8JeAgH";

const ALL_WITH_I: &[u8] =
    b"IL\nIO\nIZ\nIT\nIJ\nIS\nLI\nOI\nZI\nTI\nJI\nSI\nqueues 42\ngood 12\nrate 2857\n";

const NONE: &[u8] = b"queues 42\ngood 0\nrate 0\n";

const COVERED: &[TextCase] = &[
    (ONE_ROW, b"I0:7,0\nend 1\n", ALL_WITH_I),
    (ONE_ROW, b"T0:7,0\n", NONE),
    (ONE_ROW, b"", NONE),
    // Lines end as those of page lists.
    (ONE_ROW, b"T0:7,0\r\nI0:7,0\r\nlimit 2\r\n", ALL_WITH_I),
    (ONE_ROW, b"I0:7,0:RRRH", ALL_WITH_I),
    (
        ONE_ROW,
        b"floods 12345678901234567890\nI0:7,0\nI0:7,0",
        ALL_WITH_I,
    ),
    (NO_PLACEMENTS, b"\n", b"queues 7\ngood 0\nrate 0\n"),
    // Sequences are played with the kicks of the words.
    (
        "cover --rows XXXXXXXXX_/XXXXXXX___ --clear-line 2 --patterns L",
        b"L0:8,0\n",
        b"L\nqueues 1\ngood 1\nrate 10000\n",
    ),
    (
        "cover --rows XXXXXXXXX_/XXXXXXX___ --clear-line 2 --patterns L --kicks LR:0,0/0,0/0,0/0,0/0,0;LL:0,0/0,0/0,0/0,0/0,0",
        b"L0:8,0\n",
        b"queues 1\ngood 0\nrate 0\n",
    ),
];

#[test]
fn queues_that_sequences_cover(rt: HostRuntime) -> Result<(), Fail> {
    runs(rt.alloc()).writes_all(COVERED)
}

const NO_SEQUENCES: &[TextCase] = &[
    (ONE_ROW, b"I0:7", b"input: Cover.BadSequence 1\n"),
    (ONE_ROW, b"I0:7,0\r", b"input: Cover.BadSequence 1\n"),
    (ONE_ROW, b"I0:7,0\n\n", b"input: Cover.BadSequence 2\n"),
    (ONE_ROW, b"end 1\nend\n", b"input: Cover.BadSequence 2\n"),
    (
        ONE_ROW,
        b"end 123456789012345678901",
        b"input: Cover.BadSequence 1\n",
    ),
    (NO_PLACEMENTS, b"I0:7,0", b"input: Cover.BadSequence 1\n"),
];

#[test]
fn lines_that_are_no_sequences(rt: HostRuntime) -> Result<(), Fail> {
    runs(rt.alloc()).refuses_all_texts(NO_SEQUENCES)
}

const FAULTS_OF_FIELDS: &[TextCase] = &[
    (
        "cover --rows XXXXXXXXXX --clear-line 1 --patterns *p2",
        b"no line",
        b"input: FullRow 0\n",
    ),
    (
        "cover --rows XXXXXX____/XXXXXX____ --clear-line 2 --patterns I",
        b"no line",
        b"input: TooFewPieces 1 2\n",
    ),
    (
        "cover --tetfu - --patterns *p2",
        b"v115@bhF8NeAgH",
        b"input: Fumen.NoFumen\n",
    ),
    (
        "cover --rows XXXXXX____ --clear-line 1 --patterns *p2 --failed 1",
        b"",
        b"input: Words.UnknownOption 7\n",
    ),
];

#[test]
fn faults_of_the_field_come_first(rt: HostRuntime) -> Result<(), Fail> {
    runs(rt.alloc()).refuses_all_texts(FAULTS_OF_FIELDS)
}

/// Further words of `path`, `cover` and `percent`, and the numbers of both reports.
const PIPED: &[(&[&str], &[u8])] = &[
    (
        &["--tetfu", OPENER, "--patterns", "*p4"],
        b"queues 840\ngood 514\nrate 6119\n",
    ),
    (
        &["--tetfu", OPENER, "--patterns", "*p4", "--hold", "avoid"],
        b"queues 840\ngood 144\nrate 1714\n",
    ),
    (
        &["--tetfu", OPENER, "--patterns", "*p3", "--held", "I"],
        b"queues 210\ngood 131\nrate 6238\n",
    ),
];

/// Asserts what `cover` writes for the list that `path` writes with the same words, and that `percent` counts the same.
#[test]
fn all_solutions_of_the_opener(rt: HostRuntime) -> Result<(), Fail> {
    for (more, numbers) in PIPED {
        let listed = runs(rt.alloc()).over("path", more, b"")?;
        runs(rt.alloc()).ends_with("cover", more, listed.out.bytes(), numbers)?;
        runs(rt.alloc()).lists("percent", more, numbers)?;
    }
    Ok(())
}

#[test]
fn a_hundred_thousand_sequences(rt: HostRuntime) -> Result<(), Fail> {
    let more = b"I0:7,0\n".repeat(rt.alloc(), 100_001)?;
    let most = &more[..more.len() - 7];
    runs(rt.alloc()).writes(ONE_ROW, most, ALL_WITH_I)?;
    let fault = b"input: Cover.TooManySequences 100001\n";
    runs(rt.alloc()).refused(ONE_ROW, &[], &more, fault)
}
