// What stands between the real words, source and sinks and the top call: the exit status of a run.
ghost use Rattle.std.specs.Prelude.{◌≡◌};
ghost use Rattle.pc_source.specs.Sink.{sink_change};
ghost use Rattle.pc_words.specs.Words.{texts};
ghost use Rattle.pc_app.specs.Run.{RunEnds, source_change};
ghost use Rattle.pc_cli.specs.Edge.{HasStatus, IsExitStatus};

use pc_app::run;
use pc_outside::{Sink, Source};
use reach::Steps;
use std::alloc::Global;
use std::sync::ledger::Ledger;

/// Runs the command that the words name. The words do not include the program's name. Answers go to `out`; the line of
/// a fault goes to `err`. Returns the program's exit status: 0 done, 2 a fault of the input, 3 the source could not be
/// read, 4 `out` could not be written, 5 not enough memory.
pub fn exit_code<S: Source, O: Sink, E: Sink, L: Ledger>(
    alloc: Global,
    words: &[String],
    source: &mut S,
    out: &mut O,
    err: &mut E,
    steps: &mut Steps<L>,
) -> u8
    ensures status { IsExitStatus result }
    ensures ended { HasStatus result (λ status. RunEnds (texts words.now)
        (source_change S.counts_failures_alone (S.left source.old) (S.left source.new)
        (S.faults source.old) (S.faults source.new)) (source.new ≡ source.old)
        (sink_change O.counts_failures_alone (O.written out.old) (O.written out.new)
        (O.faults out.old) (O.faults out.new)) (out.new ≡ out.old)
        (sink_change E.counts_failures_alone (E.written err.old) (E.written err.new)
        (E.faults err.old) (E.faults err.new)) (err.new ≡ err.old) steps.old steps.new status) }
{
    run(alloc, words, source, out, err, steps).code()
}
