// Each command, run by its settings.
ghost use Rattle.std.specs.Prelude.{◌≡◌, ◌-◌, ◌≤◌, length};
ghost use Rattle.pc_source.specs.Ends.{CommandEnds};
ghost use Rattle.pc_source.specs.Sink.{sink_change};
ghost use Rattle.pc_source.specs.Task.{most_bytes, reads_source};
ghost use Rattle.pc_words.specs.Views.{AsksInRange, settings_view};
ghost use Rattle.pc_app.specs.Tasks.{task_for};

use pc_combo::run_combo;
use pc_cover::run_cover;
use pc_faults::Status;
use pc_kicks::run_kicks;
use pc_outside::Sink;
use pc_pages::{run_decode, run_encode, run_show};
use pc_path::run_path;
use pc_percent::run_percent;
use pc_selfrun::run_selfrun;
use pc_source::is_of_source;
use pc_words::Settings;
use reach::Steps;
use std::alloc::Global;
use std::sync::ledger::Ledger;

/// Whether a command reads the source.
pub fn reads_source(settings: &Settings<'_>) -> bool
    ensures { result ≡ reads_source (task_for (settings_view settings.now)) }
{
    match settings {
        Settings::Path(path) => is_of_source(path.common.field),
        Settings::Percent(percent) => is_of_source(percent.common.field),
        Settings::Cover(_) => true,
        Settings::Combo(combo) => is_of_source(combo.field),
        Settings::Decode => true,
        Settings::Encode { .. } => true,
        Settings::Show { .. } => true,
        Settings::Kicks { .. } => false,
        Settings::Selfrun { .. } => false,
    }
}

/// Runs a command by its settings. `bytes` are the bytes of the source that it sees.
pub fn perform<O: Sink, L: Ledger>(
    alloc: Global,
    settings: &Settings<'_>,
    bytes: &[u8],
    out: &mut O,
    steps: &mut Steps<L>,
) -> Status
    requires range { AsksInRange (settings_view settings.now) }
    requires short { length bytes.now ≤ most_bytes }
    ensures { CommandEnds (task_for (settings_view settings.now)) bytes.now
        (sink_change O.counts_failures_alone (O.written out.old) (O.written out.new)
        (O.faults out.old) (O.faults out.new)) (out.new ≡ out.old) steps.old steps.new result }
{
    match settings {
        Settings::Path(path) => run_path(alloc, path, bytes, out, steps),
        Settings::Percent(percent) => run_percent(alloc, percent, bytes, out, steps),
        Settings::Cover(cover) => run_cover(alloc, cover, bytes, out, steps),
        Settings::Combo(combo) => run_combo(alloc, combo, bytes, out, steps),
        Settings::Decode => run_decode(alloc, bytes, out),
        Settings::Encode { dialect } => run_encode(alloc, *dialect, bytes, out),
        Settings::Show { page } => run_show(alloc, *page, bytes, out),
        Settings::Kicks { rules } => run_kicks(alloc, rules, out),
        Settings::Selfrun { number, pages } => run_selfrun(alloc, *number, *pages, out, steps),
    }
}
