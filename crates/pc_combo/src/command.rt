// The command `combo`: the field, the longest run, and then its lines.
ghost use Rattle.std.specs.Prelude.{◌≡◌, ◌-◌, ◌≤◌, []};
ghost use Rattle.srs.specs.Rules.{table_of};
ghost use Rattle.well.specs.Well.{filled};
ghost use Rattle.pc_outside.specs.Counts.{HasCause};
ghost use Rattle.pc_outside.specs.Writes.{WritesAll};
ghost use Rattle.problem.specs.Runs.{Runs};
ghost use Rattle.report.specs.Forms.{key_part};
ghost use Rattle.report.specs.Keys.{has_keys};
ghost use Rattle.pc_settings.specs.Views.{combo_view};
ghost use Rattle.pc_source.specs.Ends.{CommandEnds};
ghost use Rattle.pc_source.specs.Sink.{sink_change};
ghost use Rattle.pc_combo.specs.ComboTask.{combo_task, run_task};
ghost use Rattle.pc_combo.specs.Output.{combo_form};

use crate::queue::queue_of;
use combo::longest;
use line_writing::write_count;
use moves::DropMode;
use pc_faults::Status;
use pc_outside::{Failed, Sink};
use pc_settings::ComboSettings;
use pc_source::{Dash, field};
use reach::Steps;
use report::{WrittenKeys, write_run};
use srs::{Placement, Rules};
use std::alloc::Global;
use std::sync::ledger::Ledger;
use well::Well;

/// Writes the lines of a run.
fn write_lines<O: Sink>(
    out: &mut O,
    well: &Well,
    rules: &Rules,
    drop_mode: DropMode,
    run: &[Placement],
    keys: &mut WrittenKeys,
) -> Result<(), Failed>
    requires { Runs (table_of rules.now) drop_mode (filled well.now) run.now }
    ensures written { WritesAll (O.written out.old) (O.written out.new) result
        (combo_form (key_part (has_keys keys.old) (table_of rules.now) drop_mode) (filled well.now) run.now) }
    ensures cause { HasCause O.counts_failures_alone (O.faults out.old) (O.faults out.new) result }
{
    write_run(out, well, rules, drop_mode, run, keys)?;
    write_count(out, b"combo ", run.len() as u64)
}

/// Writes the longest run that the settings ask for. `bytes` are those of the source. All memory is allocated before
/// any flood is made.
pub fn run_combo<O: Sink, L: Ledger>(
    alloc: Global,
    settings: &ComboSettings<'_>,
    bytes: &[u8],
    out: &mut O,
    steps: &mut Steps<L>,
) -> Status
    requires { 1 ≤ (combo_view settings.now).page }
    ensures { CommandEnds (combo_task (combo_view settings.now)) bytes.now
        (sink_change O.counts_failures_alone (O.written out.old) (O.written out.new)
        (O.faults out.old) (O.faults out.new)) (out.new ≡ out.old) steps.old steps.new result }
{
    match field(alloc, settings.field, settings.page, Dash::Source(bytes)) {
        Ok(well) => write_longest(alloc, &well, settings, out, steps),
        Err(refused) => Status::from(refused),
    }
}

/// Writes the longest run of a field.
fn write_longest<O: Sink, L: Ledger>(
    alloc: Global,
    well: &Well,
    settings: &ComboSettings<'_>,
    out: &mut O,
    steps: &mut Steps<L>,
) -> Status
    ensures { CommandEnds (run_task (combo_view settings.now) (filled well.now)) []
        (sink_change O.counts_failures_alone (O.written out.old) (O.written out.new)
        (O.faults out.old) (O.faults out.new)) (out.new ≡ out.old) steps.old steps.new result }
{
    let queue = match queue_of(well, settings) {
        Ok(queue) => queue,
        Err(fault) => return Status::Input(fault),
    };
    let mut keys = match WrittenKeys::new(alloc, settings.keys) {
        Ok(keys) => keys,
        Err(_) => return Status::NoMemory,
    };
    let rules = settings.rules;
    let drop_mode = settings.drop_mode;
    let run = longest(
        alloc,
        well,
        &rules,
        drop_mode,
        &queue,
        settings.hold,
        settings.held,
        steps,
    );
    let run = run.as_slice();
    Status::after_writes(write_lines(out, well, &rules, drop_mode, run, &mut keys))
}
