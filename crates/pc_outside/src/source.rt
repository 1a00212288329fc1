// A source of bytes.
ghost use Rattle.std.specs.Prelude.{◌≡◌, ℕ, [], List, Bool, false, Option, IfOk, OnErr};
ghost use Rattle.pc_outside.specs.Counts.{HasCause};
ghost use Rattle.pc_outside.specs.Reads.{Moves};

use crate::Failed;

/// Something that bytes are read from. A read may fail.
pub trait Source {
    // The bytes still to come, if the source tells them.
    ghost left: { Self → Option (List ℕ) };

    // How many faults there were.
    ghost faults: { Self → ℕ };

    // Whether only failed reads are counted. If a source also counts other faults, such as a read that it tried again,
    // a read may raise the count and succeed.
    ghost counts_failures_alone: { Bool } = { false };

    /// Moves bytes into the front of the buffer and returns how many. If the buffer has room, it moves none only at the
    /// end. A read that fails takes no byte.
    fn read(&mut self, buf: &mut [u8]) -> Result<usize, Failed>
        ensures moved { IfOk result (Moves (left self.old) (left self.new) buf.old buf.new) }
        ensures kept { OnErr result (left self.new ≡ left self.old) }
        ensures empty { buf.old ≡ [] → result ≡ Ok 0 }
        ensures cause { HasCause counts_failures_alone (faults self.old) (faults self.new) result };
}
