// A source over a reader of the standard library.
ghost use Rattle.std.specs.Prelude.{◌≡◌, [], true, None, IfOk, is_ok, if◌then◌else◌};
ghost use Rattle.std.specs.Io.KnownBytes.{ReadConsumes};
ghost use Rattle.pc_outside.specs.Counts.{next_count, HasCause};
ghost use Rattle.pc_outside.specs.Reads.{Moves};

use crate::counts::next_count;
use crate::{Failed, Source};
use std::io::Read;
use std::marker::Model;

/// A source over a reader, such as a file or standard input. It doesn't tell what is left. It counts each error of the
/// reader as a fault, also an interrupted read.
#[derive(Drop)]
pub struct FileSource<R: Read> {
    reader: R,
    faults: u64,
}

impl<R: Read> Model for FileSource<R> {
    ghost use Rattle.pc_outside.specs.Counted.{Counted};

    ghost Value = { Counted R };

    ghost view = { λ s. record { inner = s.reader; faults = s.faults } };
}

impl<R: Read> FileSource<R> {
    /// A source that reads from this reader.
    pub fn new(inner: R) -> FileSource<R>
        ensures { result ≡ record { inner = inner; faults = 0 } }
    {
        FileSource {
            reader: inner,
            faults: 0,
        }
    }
}

impl<R: Read> Source for FileSource<R> {
    ghost left = { λ _. None };

    ghost faults = { λ s. s.faults };

    ghost counts_failures_alone = { true };

    fn read(&mut self, buf: &mut [u8]) -> Result<usize, Failed>
        ensures moved { IfOk result (Moves None None buf.old buf.new) }
        ensures cause { HasCause true self.old.faults self.new.faults result }

        // The count rises only at an error, and everything that the reader gives is passed on.
        ensures counted { self.new.faults ≡ (if is_ok result then self.old.faults else next_count self.old.faults) }
        ensures passed { ReadConsumes (R.remaining self.old.inner) (R.remaining self.new.inner) result buf.new }
        ensures empty { buf.old ≡ [] → (result ≡ Ok 0) × (self.new ≡ self.old) }
    {
        if buf.is_empty() {
            return Ok(0);
        }
        match self.reader.read(buf) {
            Ok(n) => Ok(n),
            Err(_) => {
                self.faults = next_count(self.faults);
                Err(Failed)
            }
        }
    }
}
