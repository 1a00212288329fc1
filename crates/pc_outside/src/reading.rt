// Reading a source to its end, up to a limit.
ghost use Rattle.std.specs.Prelude.{◌≡◌, ◌≢◌, ◌+◌, ◌<◌, ◌≤◌, vec_len, true, Err, IfOk};
ghost use Rattle.pc_outside.specs.declared.reading.ReadError.{ReadError};
ghost use Rattle.pc_outside.specs.Counts.{Rose};
ghost use Rattle.pc_outside.specs.Reads.{TakesAll, TakesFirst, TakesAtMost};

use crate::{Failed, Source};
use std::alloc::{AllocError, Global};

/// Why a source could not be read to its end.
#[derive(Clone, Copy, Debug, PartialEq, Eq)]
pub enum ReadError {
    /// The source has more bytes than the limit.
    TooLong,
    /// A read failed.
    Failed,
    /// There was not enough memory for its bytes.
    NoMemory,
}

impl From<Failed> for ReadError {
    ghost from_gives = { λ _ e. e ≡ ReadError.Failed };

    fn from(_error: Failed) -> ReadError {
        ReadError::Failed
    }
}

impl From<AllocError> for ReadError {
    ghost from_gives = { λ _ e. e ≡ ReadError.NoMemory };

    fn from(_error: AllocError) -> ReadError {
        ReadError::NoMemory
    }
}

const CHUNK: usize = 4096;

/// All bytes that the source has left, if they are within the limit. It reads until a read gives none, or until it has
/// one byte more than the limit.
#[tactic(auto, using(crate::specs::ReadLaws::takes_at_most))]
pub fn read_all<S: Source>(
    alloc: Global,
    source: &mut S,
    limit: usize,
) -> Result<Vec<u8>, ReadError>
    requires { limit < usize.MAX }
    ensures all { IfOk result (λ bytes. TakesAll (S.left source.old) (S.left source.new) bytes.items) }
    ensures within { IfOk result (λ bytes. vec_len bytes ≤ limit) }
    ensures too_long { result ≡ Err ReadError.TooLong → TakesFirst (S.left source.old) (S.left source.new) (limit + 1) }
    ensures failed { result ≡ Err ReadError.Failed → Rose (S.faults source.old) (S.faults source.new) }
    ensures kept { S.counts_failures_alone ≡ true → result ≢ Err ReadError.Failed
        → S.faults source.new ≡ S.faults source.old }
    ensures later { S.faults source.old ≤ S.faults source.new }
    ensures front { TakesAtMost (S.left source.old) (S.left source.new) (limit + 1) }
{
    let mut bytes = Vec::new(alloc);
    let mut chunk = [0u8; CHUNK];
    while bytes.len() <= limit {
        let room = (limit - bytes.len() + 1).min(CHUNK);
        let n = source.read(&mut chunk[..room])?;
        if n == 0 {
            return Ok(bytes);
        }
        bytes.extend_from_slice(&chunk[..n])?;
    }
    Err(ReadError::TooLong)
}
