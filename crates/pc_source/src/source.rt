// The bytes of the source.
ghost use Rattle.std.specs.Prelude.{◌≡◌, ◌≢◌, ◌+◌, ◌≤◌, [], true, false, Some, Err, vec_len, IfOk, IfErr};
ghost use Rattle.std.specs.Option.{ForSome};
ghost use Rattle.pc_outside.specs.Counts.{Rose};
ghost use Rattle.pc_outside.specs.Reads.{TakesFirst, TakesAtMost};
ghost use Rattle.pc_faults.specs.declared.fault.Fault.{Fault};
ghost use Rattle.pc_faults.specs.declared.status.Status.{Status};
ghost use Rattle.pc_source.specs.Had.{IsUnread};
ghost use Rattle.pc_source.specs.Task.{HasBytes, most_bytes};

use pc_faults::Status;
use pc_outside::{Source, read_all};
use std::alloc::Global;

/// The most bytes that a command reads from its source. If there are more, that is a fault of the input.
pub const MOST_BYTES: usize = 4_194_304;

/// The bytes of the source that a run sees, or the status that ends it. If the run reads the source, it reads all bytes
/// that are left, at most 4,194,304. Otherwise it sees none, and the source is unchanged.
pub fn source_bytes<S: Source>(
    alloc: Global,
    source: &mut S,
    reads: bool,
) -> Result<Vec<u8>, Status>
    ensures bytes { IfOk result (λ bytes. HasBytes reads (S.left source.old) bytes.items) }
    ensures within { IfOk result (λ bytes. vec_len bytes ≤ most_bytes) }
    ensures unread { IfErr result (λ status. (reads ≡ true) × IsUnread status) }
    ensures ended { reads ≡ true → IfOk result (λ _. ForSome (S.left source.old) (λ _. S.left source.new ≡ Some [])) }
    ensures too_long { result ≡ Err (Status.Input Fault.SourceTooLong)
        → TakesFirst (S.left source.old) (S.left source.new) (most_bytes + 1) }
    ensures most { reads ≡ true → TakesAtMost (S.left source.old) (S.left source.new) (most_bytes + 1) }
    ensures untouched { reads ≡ false → source.new ≡ source.old }
    ensures rose { result ≡ Err Status.SourceFault → Rose (S.faults source.old) (S.faults source.new) }
    ensures kept { S.counts_failures_alone ≡ true → result ≢ Err Status.SourceFault
        → S.faults source.new ≡ S.faults source.old }
{
    if !reads {
        return Ok(Vec::new(alloc));
    }
    match read_all(alloc, source, MOST_BYTES) {
        Ok(bytes) => Ok(bytes),
        Err(error) => Err(Status::from(error)),
    }
}
