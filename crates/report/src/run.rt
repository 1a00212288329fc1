// The line of a run.
ghost use Rattle.std.specs.Prelude.{◌≡◌};
ghost use Rattle.srs.specs.Rules.{table_of};
ghost use Rattle.well.specs.Well.{filled};
ghost use Rattle.pc_outside.specs.Counts.{HasCause};
ghost use Rattle.pc_outside.specs.Writes.{WritesAll};
ghost use Rattle.problem.specs.Runs.{Runs};
ghost use Rattle.report.specs.Forms.{key_part, run_form};
ghost use Rattle.report.specs.Keys.{has_keys};

use crate::keys::WrittenKeys;
use crate::line::write_placements;
use moves::DropMode;
use pc_outside::{Failed, Sink};
use srs::{Placement, Rules};
use well::Well;

/// Writes the line of a run from a well, as in `I0:7,0 I0:7,0`, and nothing if the run has no placements. If
/// keys are written, the key word of each placement in the field before it follows the placement.
#[tactic(auto, using(crate::proofs::LineLemmas::runs_free, crate::proofs::LineLemmas::runs_few))]
pub fn write_run<O: Sink>(
    out: &mut O,
    well: &Well,
    rules: &Rules,
    drop_mode: DropMode,
    run: &[Placement],
    keys: &mut WrittenKeys,
) -> Result<(), Failed>
    requires { Runs (table_of rules.now) drop_mode (filled well.now) run.now }
    ensures written { WritesAll (O.written out.old) (O.written out.new) result
        (run_form (key_part (has_keys keys.old) (table_of rules.now) drop_mode) (filled well.now) run.now) }
    ensures cause { HasCause O.counts_failures_alone (O.faults out.old) (O.faults out.new) result }
    ensures keys { has_keys keys.new ≡ has_keys keys.old }
{
    if run.is_empty() {
        return Ok(());
    }
    write_placements(out, well, rules, drop_mode, run, keys)
}
