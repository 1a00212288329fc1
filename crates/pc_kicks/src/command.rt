// The command `kicks`: a table of offsets, and its kicks.
ghost use Rattle.std.specs.Prelude.{◌≡◌, [], Ok};
ghost use Rattle.srs.specs.Rules.{table_of};
ghost use Rattle.pc_source.specs.Statuses.{IsAnswered};
ghost use Rattle.pc_source.specs.Sink.{sink_change};
ghost use Rattle.pc_kicks.specs.KicksTask.{kicks_task};

use crate::lines::lines_of;
use pc_faults::Status;
use pc_outside::Sink;
use srs::Rules;
use std::alloc::Global;

/// Writes a table of offsets, and the kicks that it gives.
pub fn run_kicks<O: Sink>(alloc: Global, rules: &Rules, out: &mut O) -> Status
    ensures { let sink = sink_change O.counts_failures_alone (O.written out.old) (O.written out.new)
        (O.faults out.old) (O.faults out.new) in
        IsAnswered (kicks_task (Ok (table_of rules.now))) [] sink (out.new ≡ out.old) 0 result }
{
    match lines_of(alloc, rules) {
        Ok(text) => Status::after_writes(out.write(&text)),
        Err(_) => Status::NoMemory,
    }
}
