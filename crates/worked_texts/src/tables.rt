// Runs that end well, and texts that repeat a piece.
use crate::whole::runs;
use pc_outside::NoMemory;
use run_outcomes::Outcome;
use run_outcomes::asserts::is_so;
use std::alloc::Global;
use std::test::Fail;

/// A run over this text that ends with status 0.
pub fn succeeds(rt: &impl AllocGlobal, line: &str, text: &[u8]) -> Result<Outcome, Fail> {
    let ended = runs(rt.alloc()).over(line, &[], text)?;
    is_so(ended.status.code() == 0, line)?;
    Ok(ended)
}

/// A front, a piece this many times, and a back.
pub fn repeated(
    alloc: Global,
    front: &[u8],
    piece: &[u8],
    times: usize,
    back: &[u8],
) -> Result<Vec<u8>, NoMemory> {
    let mut text = Vec::from_slice(alloc, front)?;
    for _ in 0..times {
        text.extend_from_slice(piece)?;
    }
    text.extend_from_slice(back)?;
    Ok(text)
}
