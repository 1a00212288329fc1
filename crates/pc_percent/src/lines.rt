// The lines of queues without a perfect clear.
ghost use Rattle.pc_outside.specs.Counts.{HasCause};
ghost use Rattle.pc_outside.specs.Writes.{WritesAll};
ghost use Rattle.pc_percent.specs.Lines.{failed_form};

use pc_outside::{Failed, Sink, write_pieces};
use queue_lines::letters;
use queue_pattern::Queue;

/// Writes the line of a queue without a perfect clear: `failed TI`.
#[tactic(auto, unfolding(crate::specs::Lines::failed_form, queue_lines::specs::Lines::queue_form))]
pub fn write_failed<O: Sink>(out: &mut O, queue: &Queue) -> Result<(), Failed>
    ensures written { WritesAll (O.written out.old) (O.written out.new) result (failed_form queue.now.items) }
    ensures cause { HasCause O.counts_failures_alone (O.faults out.old) (O.faults out.new) result }
{
    write_pieces(out, &[b"failed ", letters(queue).as_slice(), b"\n"])
}
