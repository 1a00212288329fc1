// The queues that permit the kinds of given sequences.
ghost use Rattle.std.specs.Prelude.{◌≡◌, ◌+◌, ◌≤◌, IfOk, length, map, sum_by};
ghost use Rattle.pc_outside.specs.Counts.{HasCause};
ghost use Rattle.pc_outside.specs.Writes.{WritesAll};
ghost use Rattle.queue_pattern.specs.Pattern.{elements_of};
ghost use Rattle.queue_pattern.specs.Queues.{queues};
ghost use Rattle.problem.specs.Problem.{IsFit};
ghost use Rattle.cover.specs.Covered.{IsCoveredList};
ghost use Rattle.cover.specs.Kept.{lists_of, kept_problem};
ghost use Rattle.pc_cover.specs.Covering.{numbers_from};
ghost use Rattle.pc_cover.specs.Lines.{queues_form};
ghost use Rattle.pc_cover.specs.Sequences.{listed_placements};

use cover::CoverSet;
use hold_queue::laws::permits_is_decided;
use pc_outside::{Failed, NoMemory, Sink};
use problem::{Problem, Sequence};
use queue_lines::write_queue;
use reach::Steps;
use std::alloc::Global;
use std::sync::ledger::Ledger;

/// The set of the kinds of those sequences that clear the field. Counts at most one flood for each of their placements.
/// The only refusal is that memory runs out.
pub fn covering<L: Ledger>(
    alloc: Global,
    problem: &Problem,
    sequences: &[Sequence],
    steps: &mut Steps<L>,
) -> Result<CoverSet, NoMemory>
    requires { IsFit problem.now }
    ensures problem { IfOk result (λ set. kept_problem set ≡ problem.now) }
    ensures covered { IfOk result (λ set. IsCoveredList problem.now (map listed_placements sequences.now)
        (numbers_from problem.now (lists_of set) 0)) }
    ensures counted { steps.old ≤ steps.new }
    ensures few { steps.new ≤ steps.old + sum_by length (map listed_placements sequences.now) }
{
    permits_is_decided();
    let mut set = CoverSet::start(alloc, *problem)?;
    for sequence in sequences {
        set.add(sequence, steps)?;
    }
    Ok(set)
}

/// Writes the covered queues in order, and counts them.
pub fn write_covered<O: Sink>(out: &mut O, problem: &Problem, set: &CoverSet) -> Result<u32, Failed>
    requires { kept_problem set.now ≡ problem.now }
    ensures written { WritesAll (O.written out.old) (O.written out.new) result
        (queues_form (queues (elements_of problem.now.pattern)) (numbers_from problem.now (lists_of set.now) 0)) }
    ensures count { IfOk result (λ count. count ≡ length (numbers_from problem.now (lists_of set.now) 0)) }
    ensures within { IfOk result (λ count. count ≤ length (queues (elements_of problem.now.pattern))) }
    ensures cause { HasCause O.counts_failures_alone (O.faults out.old) (O.faults out.new) result }
{
    permits_is_decided();
    let all = problem.pattern.count();
    let mut count = 0;
    let mut from = 0;
    while from < all {
        let Some(number) = set.next_covered(from) else {
            return Ok(count);
        };
        write_queue(out, &problem.pattern.queue(number))?;
        count += 1;
        from = number + 1;
    }
    Ok(count)
}
