// A sink that has failed is left alone. A sink that counts more than its failures is written to like any other.
ghost use Rattle.std.specs.Prelude.{None};

use crate::whole::runs;
use pc_outside::{Failed, MemorySink, MemorySource, NoMemory, Sink};
use run_outcomes::words_of;
use std::alloc::Global;
use std::marker::Brand;
use std::process::Abort;
use std::sync::ledger::Blank;

/// A sink whose writes fail after the first `left` ones. It counts a fault in each write of a byte, like a sink that
/// tried again. It keeps how many calls came after the first that failed.
#[derive(Drop)]
struct Worn {
    left: u32,
    failed: bool,
    later: u32,
    faults: u64,
}

impl Sink for Worn {
    ghost written = { λ _. None };

    ghost faults = { λ s. s.faults };

    fn write(&mut self, bytes: &[u8]) -> Result<(), Failed> {
        if self.failed {
            self.later = self.later.saturating_add(1);
        }
        if bytes.is_empty() {
            return Ok(());
        }
        self.faults = self.faults.saturating_add(1);
        if self.left == 0 {
            self.failed = true;
            return Err(Failed);
        }
        self.left -= 1;
        Ok(())
    }
}

/// Runs the words into a worn sink. Returns the status, and how many calls came after the first that failed.
fn worn_run(
    alloc: Global,
    words: &[String],
    text: &[u8],
    left: u32,
) -> Result<(u8, u32), NoMemory> {
    let bytes = Vec::from_slice(alloc, text)?;
    let mut source = MemorySource::new(bytes, Vec::new(alloc));
    let mut out = Worn {
        left,
        failed: false,
        later: 0,
        faults: 0,
    };
    let mut err = MemorySink::new(alloc, 1_000, Vec::new(alloc))?;
    let status = runs(alloc).counted::<Brand, Worn>(
        Blank::new(1),
        words,
        &mut source,
        &mut out,
        &mut err,
    );
    Ok((status.code(), out.later))
}

/// Whether the run, whichever write fails first, ends with status 4 and calls the sink no more, and with status 0 if
/// none fails.
fn is_left_alone(alloc: Global, line: &str, text: &[u8]) -> Result<bool, NoMemory> {
    let words = words_of(alloc, line, &[])?;
    for left in 0..5_000 {
        match worn_run(alloc, &words, text, left)? {
            (0, 0) => return Ok(left > 0),
            (4, 0) => {}
            _ => return Ok(false),
        }
    }
    Ok(false)
}

/// Asserts that each of these lines, run over its source, leaves a sink that has failed alone.
fn each_write_is_the_last(rt: &(impl AllocGlobal + Abort), runs: &[(&str, &[u8])]) {
    for (line, text) in runs {
        assert!(rt; is_left_alone(rt.alloc(), line, text) == Ok(true), "{line}");
    }
}

const RUNS_ON_A_FIELD: &[(&str, &[u8])] = &[
    (
        "path --rows XXXXXX____ --clear-line 1 --patterns I --keys yes --stats yes",
        b"",
    ),
    (
        "path --rows XXXXXX____ --clear-line 1 --patterns I --format fumen",
        b"",
    ),
    (
        "path --rows XXXXXX____ --clear-line 1 --patterns I --format grid",
        b"",
    ),
    (
        "percent --rows XXXXXX____ --clear-line 1 --patterns *p2 --failed 40",
        b"",
    ),
    (
        "combo --rows XXXXXX____/XXXXXX____ --patterns II --keys yes",
        b"",
    ),
];

#[test]
fn each_write_of_a_field(rt: HostRuntime) {
    each_write_is_the_last(&rt, RUNS_ON_A_FIELD);
}

const OTHER_RUNS: &[(&str, &[u8])] = &[
    (
        "cover --rows XXXXXX____ --clear-line 1 --patterns *p2",
        b"I0:7,0\n",
    ),
    ("kicks", b""),
    ("decode", b"v115@vhBVQJAAA"),
    ("show", b"v115@vhBVQJAAA"),
    ("encode", b"| T0:4,0 --cl #hello\n"),
    ("selfrun --number 0 --pages 3", b""),
];

#[test]
fn each_write_of_the_others(rt: HostRuntime) {
    each_write_is_the_last(&rt, OTHER_RUNS);
}
