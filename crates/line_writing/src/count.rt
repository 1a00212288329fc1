// The line of a count.
ghost use Rattle.pc_outside.specs.Counts.{HasCause};
ghost use Rattle.pc_outside.specs.Writes.{WritesAll};
ghost use Rattle.line_writing.specs.Count.{count_form};

use itoa::Buffer;
use pc_outside::{Failed, Sink, write_pieces};

/// Writes a name, a blank and a count as a line: `good 12`. The blank belongs to the name.
#[tactic(auto, unfolding(crate::specs::Count::count_form))]
pub fn write_count<O: Sink>(out: &mut O, name: &[u8], count: u64) -> Result<(), Failed>
    ensures written { WritesAll (O.written out.old) (O.written out.new) result (count_form name.now count) }
    ensures cause { HasCause O.counts_failures_alone (O.faults out.old) (O.faults out.new) result }
{
    let mut digits = Buffer::new();
    write_pieces(out, &[name, digits.format(count).as_bytes(), b"\n"])
}
