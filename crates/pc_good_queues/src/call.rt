// The call: the problem, the room, the answers for all queues, and then their bits.
ghost use Rattle.std.specs.Prelude.{◌≡◌, ◌-◌, ◌≤◌, IfOk, IfErr, OnOk, OnErr, None, length, take, drop};
ghost use Rattle.pc_percent.specs.PercentTask.{percent_fault};
ghost use Rattle.pc_settings.specs.Request.{IsInRange};
ghost use Rattle.pc_settings.specs.Views.{percent_view};
ghost use Rattle.pc_good_queues.specs.Bits;
ghost use Rattle.pc_good_queues.specs.GoodQueues.{AreGoodQueues};
ghost use Rattle.pc_good_queues.specs.Refusals.{Refuses};

use crate::answer::{NoBits, QueueCounts};
use crate::bits::{bytes_for, write_bits};
use pc_settings::PercentSettings;
use pc_source::{Dash, problem_asked};
use percent::Answers;
use reach::Steps;
use std::alloc::Global;
use std::sync::ledger::Ledger;

/// Writes one bit for each queue of the pattern that the settings name, in rising order, to the first bytes of `bits`:
/// 1 if the queue has a perfect clear. Queue i, counted from 0, is bit i mod 8 of byte i / 8, counted from the lowest.
/// The bits of the last byte behind the last queue are 0, and no byte behind it changes. `bytes` are those of the
/// source. Nothing is written after a refusal. Too little room is found before the first flood.
pub fn write_good_queues<L: Ledger>(
    alloc: Global,
    settings: &PercentSettings<'_>,
    bytes: &[u8],
    bits: &mut [u8],
    steps: &mut Steps<L>,
) -> Result<QueueCounts, NoBits>
    requires { IsInRange (percent_view settings.now).common }
    ensures found { IfOk result (λ counts. AreGoodQueues (percent_view settings.now).common bytes.now
        (take (Bits.bytes_for counts.queues) bits.new) counts.queues counts.good) }
    ensures none { OnOk result (percent_fault (percent_view settings.now) bytes.now ≡ None) }
    ensures rest { IfOk result (λ counts.
        drop (Bits.bytes_for counts.queues) bits.new ≡ drop (Bits.bytes_for counts.queues) bits.old) }
    ensures refused { IfErr result (λ why. Refuses (percent_view settings.now) bytes.now (length bits.old)
        (steps.new - steps.old) why) }
    ensures kept { OnErr result (bits.new ≡ bits.old) }
    ensures counted { steps.old ≤ steps.new }
{
    let problem = problem_asked(alloc, &settings.common, Dash::Source(bytes))?;
    let queues = problem.pattern.count();
    if bits.len() < bytes_for(queues) {
        return Err(NoBits::NoRoom { queues });
    }
    let answers = Answers::new(alloc, &problem, steps)?;
    write_bits(&answers, queues, bits);
    Ok(QueueCounts {
        queues,
        good: answers.count_good(),
    })
}
