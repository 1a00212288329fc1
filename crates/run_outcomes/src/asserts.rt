// Runs, and assertions about how they end.
use crate::{Call, Outcome, Runs};
use pc_outside::MemorySource;
use std::test::Fail;

/// A line, further words, and what their run writes.
pub type Case<'a> = (&'a str, &'a [&'a str], &'a [u8]);

/// A line, a source, and what their run writes.
pub type TextCase<'a> = (&'a str, &'a [u8], &'a [u8]);

/// Asserts that something is so.
pub fn is_so(so: bool, what: &str) -> Result<(), Fail> {
    if so { Ok(()) } else { Err(Fail::new(what)) }
}

/// What a run ended with in the place of this status, this output and this line of a fault.
fn difference(ended: &Outcome, code: u8, output: &[u8], fault: &[u8]) -> Option<&'static str> {
    if ended.status.code() != code {
        Some("another status")
    } else if ended.out.bytes() != output {
        Some("another output")
    } else if ended.err.bytes() != fault {
        Some("another line of a fault")
    } else {
        None
    }
}

/// Whether a run ended with this status, this output and this line of a fault.
pub fn has_ended(ended: &Outcome, code: u8, output: &[u8], fault: &[u8]) -> bool {
    difference(ended, code, output, fault).is_none()
}

/// How many newlines an output has.
pub fn newlines(output: &[u8]) -> usize {
    output.iter().filter(|byte| **byte == b'\n').count()
}

impl<C: Call> Runs<C> {
    /// Runs the words of a line, and then these further words, over a source of these bytes.
    pub fn over(&self, line: &str, more: &[&str], text: &[u8]) -> Result<Outcome, Fail> {
        let Ok(bytes) = Vec::from_slice(self.alloc, text) else {
            return Err(Fail::new("no memory for the source"));
        };
        let source = MemorySource::new(bytes, Vec::new(self.alloc));
        match self.run_words(line, more, source, &[]) {
            Ok(ended) => Ok(ended),
            Err(_) => Err(Fail::new("no memory for the run")),
        }
    }

    /// Asserts how a run over this text ends. A failure names its words.
    pub fn ends(
        &self,
        (line, more, text): (&str, &[&str], &[u8]),
        (code, output, fault): (u8, &[u8], &[u8]),
    ) -> Result<(), Fail> {
        match difference(&self.over(line, more, text)?, code, output, fault) {
            None => Ok(()),
            Some(what) => Err(Fail::new(format_args!("{line} {more:?}: {what}"))),
        }
    }

    /// Asserts that a run over this text ends with this output and no fault.
    pub fn writes(&self, line: &str, text: &[u8], output: &[u8]) -> Result<(), Fail> {
        self.ends((line, &[], text), (0, output, b""))
    }

    /// Asserts that each run over its text ends with its output and no fault.
    pub fn writes_all(&self, cases: &[TextCase]) -> Result<(), Fail> {
        for (line, text, output) in cases {
            self.writes(line, text, output)?;
        }
        Ok(())
    }

    /// Asserts that a run of these words ends with this output and no fault.
    pub fn lists(&self, line: &str, more: &[&str], output: &[u8]) -> Result<(), Fail> {
        self.ends((line, more, b""), (0, output, b""))
    }

    /// Asserts that each run ends with its output and no fault.
    pub fn lists_all(&self, cases: &[Case]) -> Result<(), Fail> {
        for (line, more, output) in cases {
            self.lists(line, more, output)?;
        }
        Ok(())
    }

    /// Asserts that a run over this text writes only this line of a fault.
    pub fn refused(
        &self,
        line: &str,
        more: &[&str],
        text: &[u8],
        fault: &[u8],
    ) -> Result<(), Fail> {
        self.ends((line, more, text), (2, b"", fault))
    }

    /// Asserts that each run writes only its line of a fault.
    pub fn refuses_all(&self, cases: &[Case]) -> Result<(), Fail> {
        for (line, more, fault) in cases {
            self.refused(line, more, b"", fault)?;
        }
        Ok(())
    }

    /// Asserts that each run over its text writes only its line of a fault.
    pub fn refuses_all_texts(&self, cases: &[TextCase]) -> Result<(), Fail> {
        for (line, text, fault) in cases {
            self.refused(line, &[], text, fault)?;
        }
        Ok(())
    }

    /// Asserts that a run of these words ends with status 0, and its output with these bytes.
    pub fn ends_with(
        &self,
        line: &str,
        more: &[&str],
        text: &[u8],
        tail: &[u8],
    ) -> Result<(), Fail> {
        let ended = self.over(line, more, text)?;
        let so = ended.status.code() == 0 && ended.out.bytes().ends_with(tail);
        is_so(so, line)
    }
}
