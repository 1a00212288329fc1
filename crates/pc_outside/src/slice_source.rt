// A source over a borrowed slice.
ghost use Rattle.std.specs.Prelude.{◌≡◌, ℕ, ◌++◌, [], min, length, take, drop, true, Some, IfOk, OnErr, IsOk};
ghost use Rattle.pc_outside.specs.Counts.{HasCause};
ghost use Rattle.pc_outside.specs.Reads.{Moves};

use crate::memory_source::move_front;
use crate::{Failed, Source};
use std::marker::Model;

/// A source over a borrowed slice. Its reads never fail.
#[derive(Drop)]
pub struct SliceSource<'a> {
    rest: &'a [u8],
}

impl<'a> Model for SliceSource<'a> {
    ghost use Rattle.std.specs.Prelude.{ℕ, List};

    // the bytes still to come
    ghost Value = { List ℕ };

    ghost view = { λ s. s.rest.now };
}

impl<'a> SliceSource<'a> {
    /// A source with these bytes left.
    pub fn new(bytes: &'a [u8]) -> SliceSource<'a>
        ensures { result ≡ bytes.now }
    {
        SliceSource { rest: bytes }
    }
}

impl Source for SliceSource<'_> {
    ghost left = { λ s. Some s };

    ghost faults = { λ _. 0 };

    ghost counts_failures_alone = { true };

    fn read(&mut self, buf: &mut [u8]) -> Result<usize, Failed>
        ensures moved { IfOk result (Moves (Some self.old) (Some self.new) buf.old buf.new) }
        ensures cause { HasCause true 0 0 result }

        ensures succeeds { IsOk result }
        ensures kept { OnErr result (Some self.new ≡ Some self.old) }
        ensures empty { buf.old ≡ [] → result ≡ Ok 0 }
        ensures amount { IfOk result (λ n. n ≡ min (length buf.old) (length self.old)) }
        ensures buffer { IfOk result (λ n. buf.new ≡ take n self.old ++ drop n buf.old) }
        ensures left { IfOk result (λ n. self.new ≡ drop n self.old) }
    {
        let n = move_front(self.rest, buf, usize::MAX);
        self.rest = &self.rest[n..];
        Ok(n)
    }
}
