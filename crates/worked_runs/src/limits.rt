// Long lists: their limit, and resuming after a sequence.
use crate::whole::runs;
use run_outcomes::asserts::{is_so, newlines};
use std::test::Fail;

const SQUARES: &str = "path --rows  --clear-line 2 --patterns OOOOO --hold avoid";

const FIRST: &[u8] = b"O0:0,0 O0:2,0 O0:4,0 O0:6,0 O0:8,0\n";

/// The words of long lists, how many lines they write, and their first and last lines.
const LONG_LISTS: &[(&str, &[&str], usize, &[u8], &[u8])] = &[
    (
        "path --clear-line 2 --patterns OOOOO --hold avoid --rows __________",
        &[],
        121,
        FIRST,
        b"\nend 120\n",
    ),
    (SQUARES, &[], 121, FIRST, b"\nend 120\n"),
    (
        SQUARES,
        &["--limit", "7"],
        8,
        FIRST,
        b"\nO0:0,0 O0:4,0 O0:2,0 O0:6,0 O0:8,0\nlimit 7\n",
    ),
    (
        SQUARES,
        &["--after", "O0:0,0 O0:4,0 O0:2,0 O0:6,0 O0:8,0"],
        114,
        b"O0:0,0 O0:4,0 O0:2,0 O0:8,0 O0:6,0\n",
        b"\nend 113\n",
    ),
    // The empty field comes after one that is not.
    (
        "path --rows XXXXXX____ --clear-line 3 --patterns IOOOOO --hold avoid",
        &[],
        121,
        b"I0:7,0 O0:0,0 O0:2,0 O0:4,0 O0:6,0 O0:8,0\n",
        b"\nend 120\n",
    ),
];

#[test]
fn long_lists(rt: HostRuntime) -> Result<(), Fail> {
    for (line, more, number, first, last) in LONG_LISTS {
        let listed = runs(rt.alloc()).over(line, more, b"")?;
        let report = listed.out.bytes();
        is_so(
            newlines(report) == *number && report.starts_with(first),
            line,
        )?;
        runs(rt.alloc()).ends_with(line, more, b"", last)?;
    }
    Ok(())
}
