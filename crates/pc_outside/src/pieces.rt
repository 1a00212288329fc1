// Writing several pieces of text one after the other.
ghost use Rattle.std.specs.List.{flat_map};
ghost use Rattle.pc_outside.specs.Counts.{HasCause};
ghost use Rattle.pc_outside.specs.Writes.{WritesAll};

use crate::{Failed, Sink};

/// Writes the pieces one after the other, and stops at the first write that fails.
pub fn write_pieces<O: Sink>(out: &mut O, pieces: &[&[u8]]) -> Result<(), Failed>
    ensures written { WritesAll (O.written out.old) (O.written out.new) result
        (flat_map (λ piece. piece.now) pieces.now) }
    ensures cause { HasCause O.counts_failures_alone (O.faults out.old) (O.faults out.new) result }
{
    for piece in pieces {
        out.write(piece)?;
    }
    Ok(())
}
