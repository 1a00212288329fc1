// How runs of a whole call end over sources and sinks in memory, and what tests ask of them. A test says which call it is.
#![tactic(auto)]

ghost use Rattle.std.specs.Prelude.{◌≡◌, ◌<◌};

use pc_faults::Status;
use pc_outside::{MemorySink, MemorySource, NoMemory, Sink};
use reach::Steps;
use std::alloc::Global;
use std::marker::Brand;
use std::sync::ledger::{Blank, Ledger};

pub mod asserts;

/// A whole call.
pub trait Call {
    /// Runs the command that the words name over a source, into these sinks.
    fn run<O: Sink, L: Ledger>(
        &self,
        alloc: Global,
        words: &[String],
        source: &mut MemorySource,
        out: &mut O,
        err: &mut MemorySink,
        steps: &mut Steps<L>,
    ) -> Status;
}

/// How a run ended, and what it wrote.
#[derive(Drop)]
pub struct Outcome {
    pub status: Status,
    pub out: MemorySink,
    pub err: MemorySink,
    /// The source, with the bytes that were not read.
    pub source: MemorySource,
}

/// The words of a line, separated by single blanks, and then these further words, which may have blanks.
pub fn words_of(alloc: Global, line: &str, more: &[&str]) -> Result<Vec<String>, NoMemory> {
    let mut words = Vec::new(alloc);
    if !line.is_empty() {
        for word in line.split(' ') {
            words.push(String::from_str(alloc, word)?)?;
        }
    }
    for word in more {
        words.push(String::from_str(alloc, word)?)?;
    }
    Ok(words)
}

/// Runs of a call, with this memory.
#[derive(Clone, Copy)]
pub struct Runs<C> {
    pub alloc: Global,
    pub call: C,
}

impl<C: Call> Runs<C> {
    /// Runs the words over a source, into these sinks, with a counter of floods of its own.
    pub fn counted<L: Ledger, O: Sink>(
        &self,
        blank: Blank,
        words: &[String],
        source: &mut MemorySource,
        out: &mut O,
        err: &mut MemorySink,
    ) -> Status
        requires name { blank.name ≡ L.name }
        requires parts { blank.parts ≡ L.parts }
        requires some { 0 < blank.parts }
    {
        let mut steps = Steps::<L>::new(blank);
        self.call
            .run(self.alloc, words, source, out, err, &mut steps)
    }

    /// Runs the words of a line and these further words over a source, into these sinks.
    pub fn run_into(
        &self,
        line: &str,
        more: &[&str],
        mut source: MemorySource,
        mut out: MemorySink,
        mut err: MemorySink,
    ) -> Result<Outcome, NoMemory> {
        let words = words_of(self.alloc, line, more)?;
        let status = self.counted::<Brand, MemorySink>(
            Blank::new(1),
            &words,
            &mut source,
            &mut out,
            &mut err,
        );
        Ok(Outcome {
            status,
            out,
            err,
            source,
        })
    }

    /// The same, with these writes of the output failing.
    pub fn run_words(
        &self,
        line: &str,
        more: &[&str],
        source: MemorySource,
        failing: &[u32],
    ) -> Result<Outcome, NoMemory> {
        let out = MemorySink::new(self.alloc, 1_000_000, Vec::from_slice(self.alloc, failing)?)?;
        let err = MemorySink::new(self.alloc, 1_000, Vec::new(self.alloc))?;
        self.run_into(line, more, source, out, err)
    }
}
