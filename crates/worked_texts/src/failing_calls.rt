// Reads and writes that fail, and sinks without enough room.
use crate::tables::succeeds;
use crate::whole::runs;
use pc_outside::{MemorySink, MemorySource, NoMemory};
use run_outcomes::Outcome;
use run_outcomes::asserts::{has_ended, is_so};
use std::alloc::Global;
use std::test::Fail;

const SQUARES: &str = "path --clear-line 2 --patterns OOOOO --hold avoid --rows __________";

const FULL: &str = "path --rows XXXXXXXXXX --clear-line 1 --patterns I";

/// Lines that write lists, each with its source.
const LISTS: &[(&str, &[u8])] = &[
    (
        "path --rows XXXXXX____ --clear-line 1 --patterns I --hold avoid --format fumen",
        b"",
    ),
    (
        "path --rows XXXXXX____ --clear-line 1 --patterns I --keys yes --format fumen",
        b"",
    ),
    (
        "path --rows XXXXXX____/XXXXXX____ --clear-line 2 --patterns II --format fumen",
        b"",
    ),
    (
        "path --rows XXXXXXXX__/XXXXXX____/XXXXXXXX__ --clear-line 3 --patterns IO --format grid",
        b"",
    ),
    (
        "path --rows XXXXXX____ --clear-line 1 --patterns I --keys yes --stats yes",
        b"",
    ),
];

/// Lines of other commands, each with its source.
const OTHER_COMMANDS: &[(&str, &[u8])] = &[
    (
        "percent --rows XXXXXX____ --clear-line 1 --patterns *p2 --failed 40",
        b"",
    ),
    (
        "cover --rows XXXXXX____ --clear-line 1 --patterns *p2",
        b"I0:7,0\n",
    ),
    (
        "combo --rows XXXXXX____/XXXXXX____ --patterns II --keys yes",
        b"",
    ),
    ("kicks", b""),
    ("decode", b"v115@vhBVQJAAA"),
    ("show", b"v115@vhBVQJAAA"),
    ("encode", b"| T0:4,0 --cl #hello\n"),
];

/// Lines that read, each with its source and how many reads of one byte there are.
const READS: &[(&str, &[u8], u32)] = &[
    ("decode", b"v115@vhBVQJAAA", 15),
    ("show --page 9", b"v115@vhBVQJAAA", 15),
    ("encode", b"| - --cl -\n", 12),
    (
        "cover --rows XXXXXX____ --clear-line 1 --patterns *p2",
        b"I0:7,0\nend 1\n",
        14,
    ),
    (
        "path --tetfu - --clear-line 1 --patterns I",
        b"v115@bhF8NeAgH",
        15,
    ),
    (
        "percent --tetfu - --clear-line 1 --patterns I",
        b"v115@bhF8NeAgH",
        15,
    ),
    ("combo --tetfu - --patterns I", b"v115@bhF8NeAgH", 15),
];

/// Runs a line over a source of these bytes. The output has this much room, and these of its writes fail, as do these
/// writes of the fault's line.
fn into(
    alloc: Global,
    (line, text): (&str, &[u8]),
    room: usize,
    failing: &[u32],
    err_failing: &[u32],
) -> Result<Outcome, NoMemory> {
    let source = MemorySource::new(Vec::from_slice(alloc, text)?, Vec::new(alloc));
    let out = MemorySink::new(alloc, room, Vec::from_slice(alloc, failing)?)?;
    let err = MemorySink::new(alloc, 1_000, Vec::from_slice(alloc, err_failing)?)?;
    runs(alloc).run_into(line, &[], source, out, err)
}

/// Whether these bytes are a front part of others, and not all of them.
fn is_shorter_front(bytes: &[u8], whole: &[u8]) -> bool {
    whole.starts_with(bytes) && bytes.len() < whole.len()
}

/// Whether a run ended with status 4 after a front part of the whole output.
fn failed_within(ended: &Outcome, whole: &[u8]) -> bool {
    ended.status.code() == 4
        && ended.err.bytes().is_empty()
        && is_shorter_front(ended.out.bytes(), whole)
}

/// The first write of the output that can't fail, as it is one more than there are. 0 if another write that fails
/// doesn't end the run with a front part of the whole output.
fn write_past_the_last(alloc: Global, case: (&str, &[u8]), whole: &[u8]) -> Result<u32, NoMemory> {
    for write in 1..5_000 {
        let ended = into(alloc, case, 100_000, &[write], &[])?;
        if has_ended(&ended, 0, whole, b"") {
            return Ok(write);
        }
        if !failed_within(&ended, whole) {
            return Ok(0);
        }
    }
    Ok(0)
}

/// Asserts that, whichever write of the output fails, the run ends with status 4 and a front part of the whole output.
fn each_write_fails(rt: &impl AllocGlobal, (line, text): (&str, &[u8])) -> Result<(), Fail> {
    let whole = succeeds(rt, line, text)?;
    let past = write_past_the_last(rt.alloc(), (line, text), whole.out.bytes())?;
    is_so(1 < past, line)
}

fn each_write_of_all_fails(rt: &impl AllocGlobal, cases: &[(&str, &[u8])]) -> Result<(), Fail> {
    for case in cases {
        each_write_fails(rt, *case)?;
    }
    Ok(())
}

/// Runs a line over a source whose read of this number fails. Each read moves one byte.
fn with_failing_read(
    alloc: Global,
    line: &str,
    text: &[u8],
    read: u32,
) -> Result<Outcome, NoMemory> {
    let bytes = Vec::from_slice(alloc, text)?;
    let source = MemorySource::new(bytes, vec![in alloc; read]?).with_piece(1);
    runs(alloc).run_words(line, &[], source, &[])
}

/// Asserts that, whichever of the first reads of one byte fails, the run ends with status 3 and writes nothing.
fn each_read_fails(rt: &impl AllocGlobal, line: &str, text: &[u8], reads: u32) -> Result<(), Fail> {
    for read in 1..=reads {
        let ended = with_failing_read(rt.alloc(), line, text, read)?;
        is_so(has_ended(&ended, 3, b"", b""), line)?;
    }
    Ok(())
}

#[test]
fn each_write_of_a_long_list(rt: HostRuntime) -> Result<(), Fail> {
    each_write_fails(&rt, (SQUARES, b""))
}

#[test]
fn each_write_of_lists(rt: HostRuntime) -> Result<(), Fail> {
    each_write_of_all_fails(&rt, LISTS)
}

#[test]
fn each_write_of_other_commands(rt: HostRuntime) -> Result<(), Fail> {
    each_write_of_all_fails(&rt, OTHER_COMMANDS)
}

#[test]
fn each_read(rt: HostRuntime) -> Result<(), Fail> {
    for (line, text, reads) in READS {
        each_read_fails(&rt, line, text, *reads)?;
    }
    Ok(())
}

/// The first write of the line of a fault that can't fail, as it is one more than there are. 0 if another write that
/// fails doesn't leave a front part of the line.
fn write_past_the_fault(alloc: Global, line: &[u8]) -> Result<u32, NoMemory> {
    for write in 1..10 {
        let ended = into(alloc, (FULL, b""), 100, &[], &[write])?;
        if has_ended(&ended, 2, b"", line) {
            return Ok(write);
        }
        let front = ended.err.bytes();
        if !line.starts_with(front) || !has_ended(&ended, 2, b"", front) {
            return Ok(0);
        }
    }
    Ok(0)
}

#[test]
fn each_write_of_the_line_of_a_fault(rt: HostRuntime) -> Result<(), Fail> {
    let past = write_past_the_fault(rt.alloc(), b"input: FullRow 0\n")?;
    assert!(rt; 1 < past);
    Ok(())
}

/// Whether runs end with status 4 after a front part of these squares if the first write fails, and if there is room
/// for 100 bytes.
fn fail_early(alloc: Global, whole: &[u8]) -> Result<bool, NoMemory> {
    let first = into(alloc, (SQUARES, b""), 100_000, &[1], &[])?;
    let room = into(alloc, (SQUARES, b""), 100, &[], &[])?;
    Ok(failed_within(&first, whole) && failed_within(&room, whole) && room.out.bytes().len() == 100)
}

#[test]
fn five_squares(rt: HostRuntime) -> Result<(), Fail> {
    let whole = succeeds(&rt, SQUARES, b"")?;
    let squares = whole.out.bytes();
    let is_whole = squares.ends_with(b"\nend 120\n");
    is_so(is_whole && fail_early(rt.alloc(), squares)?, SQUARES)
}
