// The queue that `combo` is asked about.
ghost use Rattle.std.specs.Prelude.{◌≡◌, [], ◌∷◌, length, None, Some, Ok, IfOk, IfErr, OnOk};
ghost use Rattle.well.specs.Well.{filled};
ghost use Rattle.queue_pattern.specs.Pattern.{elements_of};
ghost use Rattle.queue_pattern.specs.Queues.{queues};
ghost use Rattle.pc_settings.specs.Views.{combo_view};
ghost use Rattle.pc_combo.specs.Faults.{one_queue, run_fault};
ghost use Rattle.pc_combo.specs.Output.{IsOneQueue};

use pc_faults::Fault;
use pc_settings::ComboSettings;
use pc_source::{open_rows, pattern_of};
use queue_pattern::{Pattern, Queue};
use well::Well;

/// The one queue of a pattern.
#[tactic(auto, using(crate::proofs::OneQueue::only_one))]
fn only_queue(pattern: &Pattern) -> Result<Queue, Fault>
    ensures fault { IfErr result (λ fault. one_queue (length (queues (elements_of pattern.now))) ≡ Some fault) }
    ensures none { OnOk result (one_queue (length (queues (elements_of pattern.now))) ≡ None) }
    ensures only { IfOk result (λ queue. queues (elements_of pattern.now) ≡ queue.items ∷ []) }
{
    let count = pattern.count();
    if count != 1 {
        return Err(Fault::NotOneQueue { count });
    }
    Ok(pattern.queue(0))
}

/// The queue that the settings name. A refusal is the first fault of these: a full row, the pattern, the number of its
/// queues.
#[tactic(auto, unfolding(crate::specs::Faults::run_fault))]
pub fn queue_of(well: &Well, settings: &ComboSettings<'_>) -> Result<Queue, Fault>
    ensures fault { IfErr result (λ fault. run_fault (combo_view settings.now) (filled well.now) ≡ Some fault) }
    ensures none { OnOk result (run_fault (combo_view settings.now) (filled well.now) ≡ None) }
    ensures queue { IfOk result (λ queue. IsOneQueue (combo_view settings.now).patterns queue.items) }
{
    open_rows(well)?;
    let pattern = pattern_of(settings.patterns)?;
    only_queue(&pattern)
}
