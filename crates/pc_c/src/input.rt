// What a command sees of the input.
ghost use Rattle.std.specs.Prelude.{◌≡◌, ◌<◌, ◌≤◌, [], length, true, if◌then◌else◌, IfOk, IfErr, OnErr};
ghost use Rattle.pc_faults.specs.declared.fault.Fault.{Fault};
ghost use Rattle.pc_source.specs.Task.{most_bytes};

use pc_faults::Fault;
use pc_source::MOST_BYTES;

/// The bytes that a command sees of the input, if it reads it. A refusal says that these are too many.
pub(crate) fn seen_bytes(input: &[u8], reads: bool) -> Result<&[u8], Fault>
    ensures bytes { IfOk result (λ bytes. bytes.now ≡ (if reads then input.entry.now else [])) }
    ensures within { IfOk result (λ bytes. length bytes.now ≤ most_bytes) }
    ensures too_long { IfErr result (λ fault. fault ≡ Fault.SourceTooLong) }
    ensures reads { OnErr result (reads ≡ true) }
    ensures more { OnErr result (most_bytes < length input.entry.now) }
{
    if !reads {
        return Ok(&[]);
    }
    if input.len() > MOST_BYTES {
        return Err(Fault::SourceTooLong);
    }
    Ok(input)
}
