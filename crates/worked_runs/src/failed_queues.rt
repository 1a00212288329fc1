// The failed queues of `percent` beside what `path` finds for each queue alone.
use crate::whole::runs;
use pc_outside::NoMemory;
use queue_pattern::{Pattern, Queue};
use run_outcomes::asserts::is_so;
use std::alloc::Global;
use std::test::Fail;

/// The words of a field, and a pattern.
type Field<'a> = (&'a str, &'a str);

const NOTCH: Field = (
    "--rows XXXXX___XX/XXXXXX__XX/XXXXX___XX --clear-line 3",
    "[OTJS]p3",
);

const OPENER: Field = (
    "--rows XXXX____XX/XXXX___XXX/XXXX__XXXX/XXXX___XXX",
    "[TJS],[IOT],[LOJS]",
);

const COLUMN: Field = (
    "--rows XXXXXXXXX_/XXXXXXXXX_/XXXXXXXXX_/XXXXXXXXX_/XXXXXXXXX_/XXXXXXXXX_/XXXXXXXXX_/XXXXXXXXX_ --clear-line 8",
    "[IT],[IL],[IO]",
);

const LEDGE: Field = (
    "--rows XXXXXX__XX/XXXXXX__XX/XX____XXXX --clear-line 3",
    "[IOTJS]p2",
);

/// An I that is turned as it spawns rises by three rows.
const RISING: &str = "--held I --kicks IR:0,-3/0,-3/0,-3/0,-3/0,-3;IL:0,-3/0,-3/0,-3/0,-3/0,-3";

/// Fields, the words of the rules of play, and the last lines that `percent` writes for them.
const QUESTIONS: &[(Field, &str, &str)] = &[
    (NOTCH, "--hold use", "queues 24\ngood 18\nrate 7500\n"),
    (NOTCH, "--hold avoid", "queues 24\ngood 6\nrate 2500\n"),
    (
        NOTCH,
        "--drop hard --held T",
        "queues 24\ngood 12\nrate 5000\n",
    ),
    (
        NOTCH,
        "--drop hard --hold avoid",
        "queues 24\ngood 2\nrate 833\n",
    ),
    (OPENER, "--held T", "queues 36\ngood 24\nrate 6666\n"),
    (
        OPENER,
        "--held T --hold avoid",
        "queues 36\ngood 5\nrate 1388\n",
    ),
    (OPENER, "--drop hard", "queues 36\ngood 7\nrate 1944\n"),
    (COLUMN, "--held I", "queues 8\ngood 6\nrate 7500\n"),
    (LEDGE, "--held I", "queues 20\ngood 4\nrate 2000\n"),
    (LEDGE, RISING, "queues 20\ngood 8\nrate 4000\n"),
];

/// The letters of a queue.
fn letters(alloc: Global, queue: &Queue) -> Result<String, NoMemory> {
    let mut letters = String::new(alloc);
    for piece in queue.as_slice() {
        letters.push(char::from(piece.letter()))?;
    }
    Ok(letters)
}

/// Whether `path` finds a solution for a queue alone.
fn has_path(rt: &impl AllocGlobal, words: &str, queue: &str) -> Result<bool, Fail> {
    let line = format!(in rt.alloc(); "path {words} --limit 1 --patterns {queue}")?;
    let ended = runs(rt.alloc()).over(&line, &[], b"")?;
    is_so(ended.status.code() == 0, &line)?;
    Ok(ended.out.bytes() != b"end 0\n".as_slice())
}

/// The lines of the queues of a pattern without a solution, in the order of their numbers.
fn failed_lines(rt: &impl AllocGlobal, words: &str, pattern: &Pattern) -> Result<String, Fail> {
    let mut lines = String::new(rt.alloc());
    for number in 0..pattern.count() {
        let queue = letters(rt.alloc(), &pattern.queue(number))?;
        if !has_path(rt, words, &queue)? {
            lines.push_str("failed ")?;
            lines.push_str(&queue)?;
            lines.push('\n')?;
        }
    }
    Ok(lines)
}

#[test]
fn failed_queues_have_no_path(rt: HostRuntime) -> Result<(), Fail> {
    for (question, more, numbers) in QUESTIONS {
        let (field, pattern) = *question;
        let words = format!(in rt.alloc(); "{field} {more}")?;
        let queues = Pattern::parse(pattern)?;
        let failed = failed_lines(&rt, &words, &queues)?;
        let line = format!(in rt.alloc(); "percent {words} --failed 50 --patterns {pattern}")?;
        let report = format!(in rt.alloc(); "{failed}{numbers}")?;
        runs(rt.alloc()).lists(&line, &[], report.as_bytes())?;
    }
    Ok(())
}
