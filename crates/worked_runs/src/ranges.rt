// Values at the ends of their ranges: heights, limits, comments, actions, and lines of digits.
use crate::whole::runs;
use run_outcomes::asserts::{Case, TextCase, is_so};
use std::test::Fail;

const SQUARES: &str = "path --patterns OOOO";

/// As many rows of two open columns as each height says. Squares fill them in one way if their number is even.
const HEIGHTS: &[Case] = &[
    (
        SQUARES,
        &["--rows", "XXXXXXXX__", "--clear-line", "1"],
        b"end 0\n",
    ),
    (
        SQUARES,
        &["--rows", "XXXXXXXX__/XXXXXXXX__", "--clear-line", "2"],
        b"O0:8,0\nend 1\n",
    ),
    (
        SQUARES,
        &[
            "--rows",
            "XXXXXXXX__/XXXXXXXX__/XXXXXXXX__",
            "--clear-line",
            "3",
        ],
        b"end 0\n",
    ),
    (
        SQUARES,
        &[
            "--rows",
            "XXXXXXXX__/XXXXXXXX__/XXXXXXXX__/XXXXXXXX__",
            "--clear-line",
            "4",
        ],
        b"O0:8,0 O0:8,0\nend 1\n",
    ),
    (
        SQUARES,
        &[
            "--rows",
            "XXXXXXXX__/XXXXXXXX__/XXXXXXXX__/XXXXXXXX__/XXXXXXXX__",
            "--clear-line",
            "5",
        ],
        b"end 0\n",
    ),
    (
        SQUARES,
        &[
            "--rows",
            "XXXXXXXX__/XXXXXXXX__/XXXXXXXX__/XXXXXXXX__/XXXXXXXX__/XXXXXXXX__",
            "--clear-line",
            "6",
        ],
        b"O0:8,0 O0:8,0 O0:8,0\nend 1\n",
    ),
    (
        SQUARES,
        &[
            "--rows",
            "XXXXXXXX__/XXXXXXXX__/XXXXXXXX__/XXXXXXXX__/XXXXXXXX__/XXXXXXXX__/XXXXXXXX__",
            "--clear-line",
            "7",
        ],
        b"end 0\n",
    ),
    (
        SQUARES,
        &[
            "--rows",
            "XXXXXXXX__/XXXXXXXX__/XXXXXXXX__/XXXXXXXX__/XXXXXXXX__/XXXXXXXX__/XXXXXXXX__/XXXXXXXX__",
            "--clear-line",
            "8",
        ],
        b"O0:8,0 O0:8,0 O0:8,0 O0:8,0\nend 1\n",
    ),
    (
        "path --patterns I",
        &["--rows", "XXXXXX____", "--clear-line", "1"],
        b"I0:7,0\nend 1\n",
    ),
];

#[test]
fn each_height(rt: HostRuntime) -> Result<(), Fail> {
    runs(rt.alloc()).lists_all(HEIGHTS)
}

const FIVE_SQUARES: &str = "path --rows  --clear-line 2 --patterns OOOOO --hold";

/// Further words of a run without hold and of one with hold that write the same, and its last line.
const SAME_LISTS: &[(&[&str], &[&str], &[u8])] = &[
    (&["avoid"], &["use"], b"\nend 120\n"),
    (
        &["avoid", "--limit", "1"],
        &["use", "--limit", "1"],
        b"\nlimit 1\n",
    ),
    (
        &["avoid", "--limit", "7"],
        &["use", "--limit", "7"],
        b"\nlimit 7\n",
    ),
    (
        &["avoid", "--limit", "119"],
        &["use", "--limit", "119"],
        b"\nlimit 119\n",
    ),
    (
        &["avoid", "--limit", "120"],
        &["use", "--limit", "120"],
        b"\nlimit 120\n",
    ),
    (
        &["avoid", "--limit", "121"],
        &["use", "--limit", "121"],
        b"\nend 120\n",
    ),
    (&["avoid"], &["use", "--limit", "121"], b"\nend 120\n"),
];

#[test]
fn five_squares_with_hold(rt: HostRuntime) -> Result<(), Fail> {
    for (without, with, tail) in SAME_LISTS {
        runs(rt.alloc()).ends_with(FIVE_SQUARES, without, b"", tail)?;
        let avoided = runs(rt.alloc()).over(FIVE_SQUARES, without, b"")?;
        runs(rt.alloc()).lists(FIVE_SQUARES, with, avoided.out.bytes())?;
    }
    Ok(())
}

const TEXTS_BOTH_WAYS: &[TextCase] = &[
    ("encode", b"| - --cl #\n", b"v115@vhAAgWAA\n"),
    ("decode", b"v115@vhAAgWAA\n", b"| - --cl #\n"),
    // 38 digits are one line.
    (
        "encode",
        b"| - --cl #aaaaaaaaaaaaaaaaaaaaaaaa\n",
        b"v115@vhAAgWYAhyrdDhyrdDhyrdDhyrdDhyrdDhyrdD\n",
    ),
    (
        "decode",
        b"v115@vhAAgWYAhyrdDhyrdDhyrdDhyrdDhyrdDhyrdD\n",
        b"| - --cl #aaaaaaaaaaaaaaaaaaaaaaaa\n",
    ),
    // The last of 43 digits begins a second line.
    (
        "encode",
        b"| - --cl #aaaaaaaaaaaaaaaaaaaaaaaaaaaa\n",
        b"v115@vhAAgWcAhyrdDhyrdDhyrdDhyrdDhyrdDhyrdDhyrd?D\n",
    ),
    (
        "decode",
        b"v115@vhAAgWcAhyrdDhyrdDhyrdDhyrdDhyrdDhyrdDhyrd?D\n",
        b"| - --cl #aaaaaaaaaaaaaaaaaaaaaaaaaaaa\n",
    ),
    // A row of garbage may have colours.
    (
        "show",
        b"v115@bhF8DeJ8AgH",
        b"page 1\nXXXXXX____\nXXXXXXXXXX\n",
    ),
    (
        "encode",
        b"XXXXXX____|ILOZTJSX__ - --cl -\n",
        b"v115@bhF8DewhglQpAtwwg0Q4A8BeAgH\n",
    ),
    (
        "show",
        b"v115@bhF8DewhglQpAtwwg0Q4A8BeAgH\n",
        b"page 1\nXXXXXX____\nILOZTJSX__\n",
    ),
];

#[test]
fn comments_and_garbage_both_ways(rt: HostRuntime) -> Result<(), Fail> {
    runs(rt.alloc()).writes_all(TEXTS_BOTH_WAYS)
}

/// The line of a page with a comment of this many letters.
fn commented(rt: &impl AllocGlobal, letters: usize) -> Result<Vec<u8>, Fail> {
    let mut line = Vec::from_slice(rt.alloc(), b"| - --cl #")?;
    for _ in 0..letters {
        line.push(b'a')?;
    }
    line.push(b'\n')?;
    Ok(line)
}

#[test]
fn the_longest_comment_both_ways(rt: HostRuntime) -> Result<(), Fail> {
    let line = commented(&rt, 4095)?;
    let encoded = runs(rt.alloc()).over("encode", &[], &line)?;
    let text = encoded.out.bytes();
    // Three digits for the cells, three for the action, two for the length, and five for each four letters.
    let digits = text.iter().filter(|byte| **byte != b'?').count();
    is_so(
        encoded.status.code() == 0 && digits == b"v115@\n".len() + 8 + 5 * 1024,
        "all digits",
    )?;
    runs(rt.alloc()).writes("decode", text, &line)
}

/// 245,760 in digits of base 64, lowest first, and the number before it.
const LARGE_ACTIONS: &[TextCase] = &[
    ("decode", b"v115@vhAAA8", b"input: Fumen.BadAction 3\n"),
    ("decode", b"v115@vhA//7", b"input: Fumen.PieceOutside 1\n"),
];

#[test]
fn the_least_action_that_is_too_large(rt: HostRuntime) -> Result<(), Fail> {
    runs(rt.alloc()).refuses_all_texts(LARGE_ACTIONS)
}
