// Runs that are refused, each with the line of its first fault.
use crate::whole::runs;
use run_outcomes::asserts::Case;
use std::test::Fail;

const WORDS: &[Case<'_>] = &[
    ("", &[], b"input: Words.NoCommand 0\n"),
    ("find", &[], b"input: Words.UnknownCommand 0\n"),
    (
        "path --rows XXXXXX____",
        &[],
        b"input: Words.MissingOption 3\n",
    ),
    ("path --limit", &[], b"input: Words.MissingValue 1\n"),
    ("path --drop harder", &[], b"input: Words.BadValue 2\n"),
    ("path --keys Yes", &[], b"input: Words.BadValue 2\n"),
    ("path --keys", &[], b"input: Words.MissingValue 1\n"),
    (
        "path --rows _ --rows _",
        &[],
        b"input: Words.RepeatedOption 3\n",
    ),
    ("path --dialect 115", &[], b"input: Words.UnknownOption 1\n"),
];

const FIELDS: &[Case<'_>] = &[
    (
        "path --rows XXXXXXXXXX --clear-line 1 --patterns I",
        &[],
        b"input: FullRow 0\n",
    ),
    (
        "path --rows XXXXXXXXXX/XXXXXX____ --clear-line 1 --patterns I",
        &[],
        b"input: FieldTooHigh 1\n",
    ),
    (
        "path --rows / --clear-line 1 --patterns I",
        &[],
        b"input: Rows.BadRowLength 1\n",
    ),
    (
        "path --rows XXXXXX____/XXXXXX____ --clear-line 2 --patterns I",
        &[],
        b"input: TooFewPieces 1 2\n",
    ),
];

const OF_A_PATTERN: &str = "path --rows XXXXXX____ --clear-line 1 --patterns";

const AFTER: &str = "path --rows XXXXXX____ --clear-line 1 --patterns I --after";

const PATTERNS: &[Case<'_>] = &[
    (
        OF_A_PATTERN,
        &["[TTI]p2"],
        b"input: Pattern.RepeatedPiece 2\n",
    ),
    (
        OF_A_PATTERN,
        &["[TI]p3"],
        b"input: Pattern.TooManyChosen 0\n",
    ),
    (OF_A_PATTERN, &["TQ"], b"input: Pattern.Unexpected 1\n"),
    (
        OF_A_PATTERN,
        &["*!*!*!TT"],
        b"input: Pattern.PatternTooLong\n",
    ),
    (
        OF_A_PATTERN,
        &["*p7,*p5"],
        b"input: Pattern.TooManyQueues\n",
    ),
];

const GIVEN_SEQUENCES: &[Case<'_>] = &[
    (AFTER, &["I0:7"], b"input: BadAfter 4\n"),
    (AFTER, &["I0:7,0 I0:7,0"], b"input: BadAfter 6\n"),
];

#[test]
fn words(rt: HostRuntime) -> Result<(), Fail> {
    runs(rt.alloc()).refuses_all(WORDS)
}

#[test]
fn fields(rt: HostRuntime) -> Result<(), Fail> {
    runs(rt.alloc()).refuses_all(FIELDS)
}

#[test]
fn patterns(rt: HostRuntime) -> Result<(), Fail> {
    runs(rt.alloc()).refuses_all(PATTERNS)
}

#[test]
fn given_sequences(rt: HostRuntime) -> Result<(), Fail> {
    runs(rt.alloc()).refuses_all(GIVEN_SEQUENCES)
}
