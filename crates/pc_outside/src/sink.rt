// A sink of bytes.
ghost use Rattle.std.specs.Prelude.{◌≡◌, ℕ, [], List, Bool, false, Option, IsOk};
ghost use Rattle.pc_outside.specs.Counts.{HasCause};
ghost use Rattle.pc_outside.specs.Writes.{WritesAll};

use crate::Failed;

/// Something that bytes are written to. A write may fail.
pub trait Sink {
    // The bytes that the sink holds, if it tells them.
    ghost written: { Self → Option (List ℕ) };

    // How many faults there were.
    ghost faults: { Self → ℕ };

    // Whether only failed writes are counted. If a sink also counts other faults, such as a write that it tried again,
    // a write may raise the count and succeed.
    ghost counts_failures_alone: { Bool } = { false };

    /// Appends the bytes. A write that fails has appended a front part of them, possibly none. A write of no bytes
    /// never fails.
    fn write(&mut self, bytes: &[u8]) -> Result<(), Failed>
        ensures written { WritesAll (written self.old) (written self.new) result bytes.now }
        ensures empty { bytes.now ≡ [] → IsOk result }
        ensures cause { HasCause counts_failures_alone (faults self.old) (faults self.new) result };
}
