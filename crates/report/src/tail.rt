// The line that ends a report, and the line of floods after it.
ghost use Rattle.std.specs.Prelude.{◌≡◌};
ghost use Rattle.pc_outside.specs.Counts.{HasCause};
ghost use Rattle.pc_outside.specs.Writes.{WritesAll};
ghost use Rattle.report.specs.Forms.{floods_form, tail_form, tail_word};

use line_writing::write_count;
use pc_outside::{Failed, Sink};

/// Why a report ends.
#[derive(Clone, Copy, Debug, PartialEq, Eq)]
pub enum Tail {
    /// There are no more sequences.
    End,
    /// As many sequences were written as were asked for.
    Limit,
}

impl Tail {
    fn word(self) -> &'static [u8]
        ensures { result.now ≡ tail_word self }
    {
        match self {
            Tail::End => b"end ",
            Tail::Limit => b"limit ",
        }
    }
}

/// Writes the line that ends a report of this many sequences: `end 12` or `limit 12`.
pub fn write_tail<O: Sink>(out: &mut O, tail: Tail, count: u64) -> Result<(), Failed>
    ensures written { WritesAll (O.written out.old) (O.written out.new) result (tail_form tail count) }
    ensures cause { HasCause O.counts_failures_alone (O.faults out.old) (O.faults out.new) result }
{
    write_count(out, tail.word(), count)
}

/// Writes the line with the number of floods, which follows a report: `floods 3`.
pub fn write_floods<O: Sink>(out: &mut O, floods: u64) -> Result<(), Failed>
    ensures written { WritesAll (O.written out.old) (O.written out.new) result (floods_form floods) }
    ensures cause { HasCause O.counts_failures_alone (O.faults out.old) (O.faults out.new) result }
{
    write_count(out, b"floods ", floods)
}
