// A sink over a writer of the standard library.
ghost use Rattle.std.specs.Prelude.{◌≡◌, ◌<◌, ◌≤◌, [], length, take, true, None, IsOk, IfOk, OnErr, is_ok, if◌then◌else◌};
ghost use Rattle.pc_outside.specs.Counts.{next_count, HasCause};
ghost use Rattle.pc_outside.specs.Writes.{Grows, WritesAll};

use crate::counts::next_count;
use crate::{Failed, Sink};
use std::io::Write;
use std::marker::Model;

/// A sink over a writer, such as a file or standard output. It doesn't tell what it holds. It counts each error of the
/// writer as a fault, also an interrupted write and a write that takes no bytes.
#[derive(Drop)]
pub struct FileSink<W: Write> {
    writer: W,
    faults: u64,
}

impl<W: Write> Model for FileSink<W> {
    ghost use Rattle.pc_outside.specs.Counted.{Counted};

    ghost Value = { Counted W };

    ghost view = { λ s. record { inner = s.writer; faults = s.faults } };
}

impl<W: Write> FileSink<W> {
    /// A sink that writes to this writer.
    pub fn new(inner: W) -> FileSink<W>
        ensures { result ≡ record { inner = inner; faults = 0 } }
    {
        FileSink {
            writer: inner,
            faults: 0,
        }
    }
}

/// Writes at least one of these bytes and returns how many it wrote.
fn write_some<W: Write>(writer: &mut W, bytes: &[u8]) -> Result<usize, Failed>
    requires { 0 < length bytes.now }
    ensures some { IfOk result (λ n. (0 < n) × (n ≤ length bytes.now)) }
    ensures taken { IfOk result (λ n. Grows (W.contents writer.old) (W.contents writer.new) (take n bytes.now)) }
    ensures none { OnErr result (Grows (W.contents writer.old) (W.contents writer.new) []) }
{
    match writer.write(bytes) {
        Ok(0) => Err(Failed),
        Ok(n) => Ok(n),
        Err(_) => Err(Failed),
    }
}

/// Writes these bytes, and stops at the first fault.
fn write_whole<W: Write>(writer: &mut W, bytes: &[u8]) -> Result<(), Failed>
    ensures passed { WritesAll (W.contents writer.old) (W.contents writer.new) result bytes.now }
    ensures idle { bytes.now ≡ [] → IsOk result × (writer.new ≡ writer.old) }
{
    let mut rest = bytes;
    while !rest.is_empty() {
        let n = write_some(writer, rest)?;
        rest = &rest[n..];
    }
    Ok(())
}

impl<W: Write> Sink for FileSink<W> {
    ghost written = { λ _. None };

    ghost faults = { λ s. s.faults };

    ghost counts_failures_alone = { true };

    fn write(&mut self, bytes: &[u8]) -> Result<(), Failed>
        ensures written { WritesAll None None result bytes.now }
        ensures cause { HasCause true self.old.faults self.new.faults result }

        // The count rises only at a fault, and all bytes are passed on.
        ensures counted { self.new.faults ≡ (if is_ok result then self.old.faults else next_count self.old.faults) }
        ensures passed { WritesAll (W.contents self.old.inner) (W.contents self.new.inner) result bytes.now }
        ensures empty { bytes.now ≡ [] → IsOk result × (self.new ≡ self.old) }
    {
        match write_whole(&mut self.writer, bytes) {
            Ok(()) => Ok(()),
            Err(failed) => {
                self.faults = next_count(self.faults);
                Err(failed)
            }
        }
    }
}
