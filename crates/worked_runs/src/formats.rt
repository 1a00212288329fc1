// Solutions as fumen texts and as grids.
use crate::whole::runs;
use run_outcomes::asserts::{Case, is_so, newlines};
use std::test::Fail;

const ONE: &str = "path --rows XXXXXX____ --clear-line 1 --patterns I --hold avoid --format";

const TWO: &str = "path --rows XXXXXX____/XXXXXX____ --clear-line 2 --patterns II --format";

const OVERHANG: &str =
    "path --rows XXXXXXXX__/XXXXXX____/XXXXXXXX__ --clear-line 3 --patterns IO --format";

const HARD: &str =
    "path --rows XXXXXX____/XXXXXX____ --clear-line 2 --patterns LL --drop hard --keys yes --format";

const FORMS: &[Case] = &[
    (ONE, &["fumen"], b"v115@bhF8NexRJ\nend 1\n"),
    (
        ONE,
        &["fumen", "--keys", "yes"],
        b"v115@bhF8NexRYEAyrxIC\nend 1\n",
    ),
    (TWO, &["fumen"], b"v115@RhF8DeF8NexRJvhAxxB\nend 1\n"),
    (
        OVERHANG,
        &["grid"],
        b"I0:7,1 O0:8,0\n\
        XXXXXXXX__\nXXXXXXIIII\nXXXXXXXX__\n\n\
        XXXXXXXXOO\nXXXXXXXXOO\n\nend 1\n",
    ),
    (
        TWO,
        &["grid"],
        b"I0:7,0 I0:7,0\nXXXXXX____\nXXXXXXIIII\n\nXXXXXXIIII\n\nend 1\n",
    ),
    (
        HARD,
        &["grid"],
        b"L0:8,0:RRRRH L2:7,1:RRRCCH\n\
        XXXXXX___L\nXXXXXX_LLL\n\n\
        XXXXXXLLLX\nXXXXXXLXXX\n\nend 1\n",
    ),
    (HARD, &["text"], b"L0:8,0:RRRRH L2:7,1:RRRCCH\nend 1\n"),
    (
        HARD,
        &["fumen"],
        b"v115@RhF8DeF8NeSSYFAyrhqCoAAAAvhAisQGAyr53Bj8AA?A\nend 1\n",
    ),
];

#[test]
fn solutions_in_each_form(rt: HostRuntime) -> Result<(), Fail> {
    runs(rt.alloc()).lists_all(FORMS)?;
    let fumen = b"v115@RhF8DeF8NeSSYFAyrhqCoAAAAvhAisQGAyr53Bj8AA?A";
    let keyed = b"XXXXXX____/XXXXXX____| L0:8,0 --cl #RRRRH\n\
        XXXXXX___L/XXXXXX_LLL| L2:7,1 ---l #RRRCCH\n";
    runs(rt.alloc()).writes("decode", fumen, keyed)
}

#[test]
fn what_is_no_form(rt: HostRuntime) -> Result<(), Fail> {
    runs(rt.alloc()).refused(ONE, &["Grid"], b"", b"input: Words.BadValue 10\n")
}

fn fumen_lines(bytes: &[u8]) -> usize {
    bytes
        .split(|byte| *byte == b'\n')
        .filter(|line| line.starts_with(b"v115@"))
        .count()
}

/// Whether both commands read a fumen of three pages.
fn is_read(rt: &impl AllocGlobal, fumen: &[u8]) -> Result<bool, Fail> {
    let decoded = runs(rt.alloc()).over("decode", &[], fumen)?;
    let shown = runs(rt.alloc()).over("show", &[], fumen)?;
    Ok(
        decoded.status.code() == 0
            && newlines(decoded.out.bytes()) == 3
            && shown.status.code() == 0
            && shown.out.bytes().starts_with(b"page 1\n"),
    )
}

/// Asserts that each fumen of a report is read.
fn are_read(rt: &impl AllocGlobal, report: &[u8]) -> Result<(), Fail> {
    for line in report.split(|byte| *byte == b'\n') {
        if line.starts_with(b"v115@") {
            is_so(is_read(rt, line)?, "a fumen that is not read")?;
        }
    }
    Ok(())
}

#[test]
fn each_fumen_is_read(rt: HostRuntime) -> Result<(), Fail> {
    let opener = "path --tetfu v115@9gD8DeF8CeG8BeH8CeC8JeAgH --patterns *p4 --format fumen";
    runs(rt.alloc()).ends_with(opener, &[], b"", b"\nend 39\n")?;
    let listed = runs(rt.alloc()).over(opener, &[], b"")?;
    let report = listed.out.bytes();
    is_so(
        newlines(report) == 40 && fumen_lines(report) == 39,
        "39 fumens",
    )?;
    are_read(&rt, report)
}
