// A sink over a borrowed slice.
ghost use Rattle.std.specs.Prelude.{◌≡◌, ◌<◌, ◌↔◌, ◌++◌, ◌≤◌, [], length, take, drop, true, Some, IsOk, IsErr, OnOk, OnErr};
ghost use Rattle.pc_outside.specs.Counts.{next_count, HasCause};
ghost use Rattle.pc_outside.specs.Writes.{WritesAll};

use crate::counts::next_count;
use crate::{Failed, Sink};

/// A sink over a borrowed slice, which it fills from the front. A write that doesn't fit appends the bytes that fit,
/// and fails. The first byte that doesn't fit is kept beside the slice, so the sink holds more bytes than the slice
/// exactly when a write has failed.
#[derive(Drop)]
pub struct SliceSink<'a> {
    buffer: &'a mut [u8],
    count: usize,
    missed: u8,
    faults: u64,
    ghost within: { count ≤ length buffer.now },
    ghost full: { 0 < faults → count ≡ length buffer.now },
}

impl<'a> SliceSink<'a> {
    ghost use Rattle.pc_outside.specs.SliceSinkView.{sink_view};

    /// An empty sink that fills this slice.
    pub fn new(slice: &'a mut [u8]) -> SliceSink<'a>
        ensures { sink_view result ≡ record {
          bytes = [];
          rest = slice.old;
          missed = [];
          faults = 0;
          slice = slice.entry.ghost_name;
        } }
    {
        SliceSink {
            buffer: slice,
            count: 0,
            missed: 0,
            faults: 0,
        }
    }

    /// How many bytes have been written.
    pub fn count(&self) -> usize
        ensures { result ≡ length (sink_view self.now).bytes }
    {
        self.count
    }
}

impl Sink for SliceSink<'_> {
    ghost use Rattle.pc_outside.specs.SliceSink.{held_bytes};
    ghost use Rattle.pc_outside.specs.SliceSinkView.{sink_view};

    ghost written = { λ s. Some (held_bytes (sink_view s)) };

    ghost faults = { λ s. s.faults };

    ghost counts_failures_alone = { true };

    fn write(&mut self, bytes: &[u8]) -> Result<(), Failed>
        ensures written { WritesAll (Some (held_bytes (sink_view self.old)))
            (Some (held_bytes (sink_view self.new))) result bytes.now }
        ensures cause { HasCause true (sink_view self.old).faults (sink_view self.new).faults result }

        ensures fails { IsErr result ↔ (length (sink_view self.old).rest < length bytes.now) }
        ensures empty { bytes.now ≡ [] → IsOk result }
        ensures done { OnOk result (sink_view self.new ≡ record (sink_view self.old) {
          bytes = (sink_view self.old).bytes ++ bytes.now;
          rest = drop (length bytes.now) (sink_view self.old).rest;
        }) }
        // A write that doesn't fit appends what fits.
        ensures full { OnErr result (sink_view self.new ≡ record (sink_view self.old) {
          bytes = (sink_view self.old).bytes ++ take (length (sink_view self.old).rest) bytes.now;
          rest = [];
          missed = take 1 ((sink_view self.old).missed
              ++ drop (length (sink_view self.old).rest) bytes.now);
          faults = next_count (sink_view self.old).faults;
        }) }
    {
        let free = self.buffer.len() - self.count;
        let n = bytes.len().min(free);
        self.buffer[self.count..self.count + n].copy_from_slice(&bytes[..n]);
        self.count += n;
        if n < bytes.len() {
            if self.faults == 0 {
                self.missed = bytes[n];
            }
            self.faults = next_count(self.faults);
            return Err(Failed);
        }
        Ok(())
    }
}
