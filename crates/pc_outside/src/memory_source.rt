// A source over bytes in memory, whose reads fail where they are told to.
ghost use Rattle.std.specs.Prelude.{◌≡◌, ◌-◌, ◌<◌, ◌≤◌, ◌↔◌, ◌++◌, [], min, length, take, drop, true, Some, IsErr, IfOk, OnErr, Contains};
ghost use Rattle.pc_outside.specs.Counts.{next_count, HasCause};
ghost use Rattle.pc_outside.specs.Reads.{Moves};

use crate::counts::{is_listed, next_count};
use crate::{Failed, Source};
use std::marker::Model;

/// A source over bytes in memory. Its reads into buffers that have room are numbered from 1; those whose numbers are
/// listed fail.
#[derive(Drop)]
pub struct MemorySource {
    content: Vec<u8>,
    taken: usize,
    failing: Vec<u32>,
    calls: u64,
    faults: u64,
    piece: usize,
}

impl Model for MemorySource {
    ghost use Rattle.std.specs.Prelude.{◌≤◌, drop, vec_len};
    ghost use Rattle.pc_outside.specs.MemorySource.{MemorySourceState};

    ghost Value = { MemorySourceState };

    ghost view = { λ s. record {
      bytes = drop s.taken s.content.items;
      failing = s.failing.items;
      calls = s.calls;
      faults = s.faults;
      piece = s.piece;
    } };

    ghost invariant = { λ s. (s.taken ≤ vec_len s.content) × (1 ≤ s.piece) };
}

impl MemorySource {
    /// A source with these bytes left. The reads with these numbers fail.
    pub fn new(bytes: Vec<u8>, failing: Vec<u32>) -> MemorySource
        ensures { result ≡ record {
          bytes = bytes.items;
          failing = failing.items;
          calls = 0;
          faults = 0;
          piece = usize.MAX;
        } }
    {
        MemorySource {
            content: bytes,
            taken: 0,
            failing,
            calls: 0,
            faults: 0,
            piece: usize::MAX,
        }
    }

    /// The same source with reads that move at most `piece` bytes each.
    pub fn with_piece(self, piece: usize) -> MemorySource
        requires { 1 ≤ piece }
        ensures { result ≡ record self { piece = piece } }
    {
        MemorySource { piece, ..self }
    }
}

/// Moves bytes from the front of `left` to the front of the buffer, `most` of them at most.
#[tactic(auto, using(crate::proofs::Moving::moves_front))]
pub(crate) fn move_front(left: &[u8], buf: &mut [u8], most: usize) -> usize
    requires { 1 ≤ most }
    ensures amount { result ≡ min (min (length buf.old) (length left.now)) most }
    ensures buffer { buf.new ≡ take result left.now ++ drop result buf.old }
    ensures moved { Moves (Some left.now) (Some (drop result left.now)) buf.old buf.new result }
{
    let n = buf.len().min(left.len()).min(most);
    buf[..n].copy_from_slice(&left[..n]);
    n
}

impl Source for MemorySource {
    ghost left = { λ s. Some s.bytes };

    ghost faults = { λ s. s.faults };

    ghost counts_failures_alone = { true };

    fn read(&mut self, buf: &mut [u8]) -> Result<usize, Failed>
        ensures moved { IfOk result (Moves (Some self.old.bytes) (Some self.new.bytes) buf.old buf.new) }
        ensures cause { HasCause true self.old.faults self.new.faults result }

        ensures fails { IsErr result
            ↔ ((0 < length buf.old) × Contains self.old.failing (next_count self.old.calls)) }
        ensures amount { IfOk result (λ n.
            n ≡ min (min (length buf.old) (length self.old.bytes)) self.old.piece) }
        ensures buffer { IfOk result (λ n. buf.new ≡ take n self.old.bytes ++ drop n buf.old) }
        ensures untouched { OnErr result (buf.new ≡ buf.old) }
        ensures empty { buf.old ≡ [] → (result ≡ Ok 0) × (self.new ≡ self.old) }
        ensures done { 0 < length buf.old → IfOk result (λ n. self.new ≡ record self.old {
          bytes = drop n self.old.bytes;
          calls = next_count self.old.calls;
        }) }
        ensures failed { OnErr result (self.new ≡ record self.old {
          calls = next_count self.old.calls;
          faults = next_count self.old.faults;
        }) }
    {
        if buf.is_empty() {
            return Ok(0);
        }
        self.calls = next_count(self.calls);
        if is_listed(&self.failing, self.calls) {
            self.faults = next_count(self.faults);
            return Err(Failed);
        }
        let n = move_front(&self.content[self.taken..], buf, self.piece);
        self.taken += n;
        Ok(n)
    }
}
