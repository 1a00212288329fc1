// Runs of `path` whose field is a page of a fumen text.
use crate::whole::runs;
use pc_outside::Source;
use run_outcomes::asserts::{Case, TextCase, is_so};
use std::test::Fail;

/// The words of a line, a page as a text that follows them, and what their run writes.
type PageCase<'a> = (&'a str, &'a str, &'a [u8]);

const ONE_ROW: &str = "path --clear-line 1 --patterns I --tetfu";

const SECOND_PAGE: &str = "path --page 2 --patterns Q --tetfu";

const LAID_FLAT: &[u8] = b"I0:7,0\nend 1\n";

const TWO_PAGES: &str = "v115@RhF8DeF8NexRJvhAxxB";

const PAGES: &[PageCase] = &[
    (ONE_ROW, "v115@bhF8NeAgH", LAID_FLAT),
    (
        "path --clear-line 2 --patterns II --tetfu",
        TWO_PAGES,
        b"I0:7,0 I0:7,0\nend 1\n",
    ),
    (
        "path --page 1 --clear-line 2 --patterns II --tetfu",
        TWO_PAGES,
        b"I0:7,0 I0:7,0\nend 1\n",
    ),
    (
        "path --page 2 --clear-line 1 --patterns I --tetfu",
        TWO_PAGES,
        LAID_FLAT,
    ),
    // A row of garbage is no row of the field.
    (ONE_ROW, "v115@bhF8DeJ8AgH", LAID_FLAT),
    // An older page has 21 rows.
    (ONE_ROW, "v110@neF3tbA4G", LAID_FLAT),
];

/// Asserts what each case writes, once with the text in the words and once with the text in the source.
fn shows_all(rt: &impl AllocGlobal, cases: &[PageCase]) -> Result<(), Fail> {
    for (line, text, output) in cases {
        runs(rt.alloc()).lists(line, &[text], output)?;
        runs(rt.alloc()).ends((line, &["-"], text.as_bytes()), (0, output, b""))?;
    }
    Ok(())
}

#[test]
fn pages_are_fields(rt: HostRuntime) -> Result<(), Fail> {
    shows_all(&rt, PAGES)
}

/// A run that needs no page, and runs that write the pages.
const BESIDE_PAGES: &[TextCase] = &[
    (
        "path --page 3 --rows XXXXXX____ --clear-line 1 --patterns I",
        b"",
        LAID_FLAT,
    ),
    (
        "decode",
        b"v115@bhF8DeJ8AgH",
        b"XXXXXX____|XXXXXXXXXX - --cl -\n",
    ),
    ("decode", b"v110@neF3tbA4G", b"XXXXXX____| - --cl -\n"),
];

#[test]
fn rows_beside_pages(rt: HostRuntime) -> Result<(), Fail> {
    runs(rt.alloc()).writes_all(BESIDE_PAGES)
}

#[test]
fn rows_and_pages_agree(rt: HostRuntime) -> Result<(), Fail> {
    let rows = "path --patterns *p4 --rows XXXX____XX/XXXX___XXX/XXXX__XXXX/XXXX___XXX";
    runs(rt.alloc()).ends_with(rows, &[], b"", b"\nend 39\n")?;
    let listed = runs(rt.alloc()).over(rows, &[], b"")?;
    let text = "v115@9gD8DeF8CeG8BeH8CeC8JeAgH";
    let line = "path --patterns *p4 --tetfu";
    shows_all(&rt, &[(line, text, listed.out.bytes())])
}

const FAULTS_OF_PAGES: &[PageCase] = &[
    (ONE_ROW, TWO_PAGES, b"input: FieldTooHigh 1\n"),
    (
        "path --page 3 --clear-line 1 --patterns I --tetfu",
        TWO_PAGES,
        b"input: NoPage 3 2\n",
    ),
    (ONE_ROW, "v115@", b"input: NoPage 1 0\n"),
    // Each of these has more faults than one.
    (
        "path --patterns Q --tetfu",
        "hello",
        b"input: Fumen.NoFumen\n",
    ),
    (SECOND_PAGE, "v115@vhAAg", b"input: Fumen.Truncated 3\n"),
    (SECOND_PAGE, "v115@vhAAgH", b"input: NoPage 2 1\n"),
    (
        "path --clear-line 1 --patterns Q --tetfu",
        "v115@RhF8DeF8NeAgH",
        b"input: FieldTooHigh 1\n",
    ),
    (
        "path --clear-line 1 --patterns Q --tetfu",
        "v115@bhF8NeAgH",
        b"input: Pattern.Unexpected 0\n",
    ),
];

/// The text is in the words, and then in the source.
#[test]
fn faults_of_pages(rt: HostRuntime) -> Result<(), Fail> {
    for (line, text, fault) in FAULTS_OF_PAGES {
        runs(rt.alloc()).refused(line, &[text], b"", fault)?;
        runs(rt.alloc()).refused(line, &["-"], text.as_bytes(), fault)?;
    }
    Ok(())
}

/// Lines whose runs leave their source unread.
const UNREAD: &[&str] = &[
    "path --rows XXXXXX____ --clear-line 1 --patterns I",
    "path --tetfu v115@bhF8NeAgH --clear-line 1 --patterns I",
    "path --tetfu hello --patterns I",
    "path --tetfu -",
];

/// Whether a run of these words leaves its source unread.
fn is_unread(rt: &impl AllocGlobal, line: &str) -> Result<bool, Fail> {
    let mut run = runs(rt.alloc()).over(line, &[], b"hello")?;
    let mut rest = [0; 8];
    let read = run.source.read(&mut rest);
    Ok(read == Ok(5) && rest.starts_with(b"hello"))
}

#[test]
fn sources_that_are_not_read(rt: HostRuntime) -> Result<(), Fail> {
    for line in UNREAD {
        is_so(is_unread(&rt, line)?, line)?;
    }
    Ok(())
}

const FAULTS_OF_WORDS: &[Case] = &[
    (
        "path --rows XXXXXX____ --tetfu x",
        &[],
        b"input: Words.BothFields 3\n",
    ),
    (
        "path --tetfu x --rows XXXXXX____",
        &[],
        b"input: Words.BothFields 3\n",
    ),
    ("path --tetfu x --rows", &[], b"input: Words.BothFields 3\n"),
    (
        "path --tetfu x --tetfu x",
        &[],
        b"input: Words.RepeatedOption 3\n",
    ),
    ("path --tetfu", &[], b"input: Words.MissingValue 1\n"),
    ("path --page 0", &[], b"input: Words.BadValue 2\n"),
    (
        "path --patterns I --page 1",
        &[],
        b"input: Words.MissingOption 5\n",
    ),
];

#[test]
fn words_of_the_field(rt: HostRuntime) -> Result<(), Fail> {
    runs(rt.alloc()).refuses_all(FAULTS_OF_WORDS)
}
