// A sink in memory with fixed room. A write fails where it is told to, or where there is no room for it.
ghost use Rattle.std.specs.Prelude.{◌≡◌, ◌+◌, ◌-◌, ◌/◌, ◌<◌, ◌≤◌, ◌↔◌, ◌⊎◌, ◌++◌, [], min, length, true, Some, IsOk, IsErr, IfOk, OnOk, OnErr, Contains};
ghost use Rattle.pc_outside.specs.Counts.{next_count, HasCause};
ghost use Rattle.pc_outside.specs.MemorySink.{front_with_room};
ghost use Rattle.pc_outside.specs.Writes.{GrowsByFront, WritesAll};

use crate::counts::{is_listed, next_count};
use crate::{Failed, NoMemory, Sink};
use std::alloc::Global;
use std::marker::Model;

/// A sink in memory that holds a fixed number of bytes at most. Its writes of at least one byte are numbered from 1;
/// those whose numbers are listed fail.
#[derive(Drop)]
pub struct MemorySink {
    content: Vec<u8>,
    room: usize,
    failing: Vec<u32>,
    calls: u64,
    faults: u64,
}

impl Model for MemorySink {
    ghost use Rattle.std.specs.Prelude.{◌≤◌, vec_len, vec_capacity};
    ghost use Rattle.pc_outside.specs.MemorySink.{MemorySinkState};

    ghost Value = { MemorySinkState };

    ghost view = { λ s. record {
      bytes = s.content.items;
      room = s.room;
      failing = s.failing.items;
      calls = s.calls;
      faults = s.faults;
    } };

    ghost invariant = { λ s. (vec_len s.content ≤ s.room) × (s.room ≤ vec_capacity s.content) };
}

impl MemorySink {
    /// An empty sink with room for this many bytes, which it allocates now. The writes with these numbers fail.
    pub fn new(alloc: Global, room: usize, failing: Vec<u32>) -> Result<MemorySink, NoMemory>
        ensures { IfOk result (λ s. s ≡ record {
          bytes = [];
          room = room;
          failing = failing.items;
          calls = 0;
          faults = 0;
        }) }
    {
        let content = Vec::with_capacity(alloc, room)?;
        Ok(MemorySink {
            content,
            room,
            failing,
            calls: 0,
            faults: 0,
        })
    }

    /// The bytes written so far.
    pub fn bytes(&self) -> &[u8]
        ensures value { result.now ≡ self.now.bytes }
        ensures within { length result.now ≤ self.now.room }
    {
        &self.content
    }

    /// Appends the first `most` of these bytes, as far as they fit, and fails.
    #[tactic(auto, using(crate::specs::WriteLaws::front_taken))]
    fn fail_after(&mut self, bytes: &[u8], most: usize) -> Result<(), Failed>
        requires { most ≤ length bytes.now }
        ensures fails { IsErr result }
        ensures appended { self.new ≡ record self.old {
          bytes = self.old.bytes ++ front_with_room self.old most bytes.now;
          faults = next_count self.old.faults;
        } }
        ensures front { GrowsByFront (Some self.old.bytes) (Some self.new.bytes) bytes.now }
    {
        let front_with_room = most.min(self.room - self.content.len());
        self.content
            .extend_from_slice(&bytes[..front_with_room])
            .unwrap();
        self.faults = next_count(self.faults);
        Err(Failed)
    }
}

impl Sink for MemorySink {
    ghost written = { λ s. Some s.bytes };

    ghost faults = { λ s. s.faults };

    ghost counts_failures_alone = { true };

    #[tactic(auto, using(crate::specs::WriteLaws::at_err))]
    fn write(&mut self, bytes: &[u8]) -> Result<(), Failed>
        ensures written { WritesAll (Some self.old.bytes) (Some self.new.bytes) result bytes.now }
        ensures cause { HasCause true self.old.faults self.new.faults result }

        ensures fails { IsErr result ↔ ((0 < length bytes.now)
            × (Contains self.old.failing (next_count self.old.calls)
            ⊎ (self.old.room < length self.old.bytes + length bytes.now))) }
        ensures empty { bytes.now ≡ [] → IsOk result × (self.new ≡ self.old) }
        ensures done { 0 < length bytes.now → OnOk result (self.new ≡ record self.old {
          bytes = self.old.bytes ++ bytes.now;
          calls = next_count self.old.calls;
        }) }
        // A listed write appends its first half, as far as it fits.
        ensures listed { Contains self.old.failing (next_count self.old.calls)
            → OnErr result (self.new ≡ record self.old {
              bytes = self.old.bytes ++ front_with_room self.old (length bytes.now / 2) bytes.now;
              calls = next_count self.old.calls;
              faults = next_count self.old.faults;
            }) }
        // A write that doesn't fit appends what fits.
        ensures full { (Contains self.old.failing (next_count self.old.calls) → ⊥)
            → OnErr result (self.new ≡ record self.old {
              bytes = self.old.bytes ++ front_with_room self.old (length bytes.now) bytes.now;
              calls = next_count self.old.calls;
              faults = next_count self.old.faults;
            }) }
    {
        if bytes.is_empty() {
            return Ok(());
        }
        self.calls = next_count(self.calls);
        if is_listed(&self.failing, self.calls) {
            return self.fail_after(bytes, bytes.len() / 2);
        }
        if self.room - self.content.len() < bytes.len() {
            return self.fail_after(bytes, bytes.len());
        }
        self.content.extend_from_slice(bytes).unwrap();
        Ok(())
    }
}
