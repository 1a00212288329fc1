// The solutions that `path` would list, as numbers.
ghost use Rattle.std.specs.Prelude.{◌≡◌, ◌≢◌, ℕ, ◌-◌, ◌≤◌, ◌⊎◌, List, [], Option, Some, Err, IfOk, IfErr, OnErr, length, take, drop};
ghost use Rattle.std.specs.Option.{ForSome};
ghost use Rattle.arrayvec.specs.ArrayVec.{array_vec_len};
ghost use Rattle.srs.specs.declared.placement.Placement.{Placement};
ghost use Rattle.placement_numbers.specs.Numbers.{AreNumbersOf};
ghost use Rattle.enumerate.specs.Items.{items_of};
ghost use Rattle.pc_faults.specs.declared.fault.Fault.{Fault};
ghost use Rattle.pc_settings.specs.Request.{IsInRange};
ghost use Rattle.pc_settings.specs.Views.{path_view};
ghost use Rattle.pc_source.specs.FieldText.{field_needs};
ghost use Rattle.pc_source.specs.Task.{nothing};
ghost use Rattle.pc_path.specs.Output.{IsGiven};
ghost use Rattle.pc_path.specs.PathTask.{path_fault};
ghost use Rattle.pc_solutions.specs.Asked.{HasNoSequence, HasSolutionRoom, IsAfter, LacksSolutionRoom};
ghost use Rattle.pc_solutions.specs.Written.{WritesSolutions};
ghost use Rattle.pc_solutions.specs.declared.solutions.Refusal.{Refusal};

use crate::list::{Written, most_written, write_list};
use enumerate::Search;
use pc_faults::Fault;
use pc_outside::{NoMemory, Refused};
use pc_path::listing_of;
use pc_settings::PathSettings;
use placement_numbers::sequence_in;
use problem::{Sequence, needed};
use reach::Steps;
use std::alloc::Global;
use std::sync::ledger::Ledger;

/// Why no solutions are written.
#[derive(Clone, Copy, Debug, PartialEq, Eq)]
pub enum Refusal {
    /// The input has a fault; this is the first one that `path` finds.
    Fault(Fault),
    /// The numbers are not those of a sequence of as many placements as a solution has.
    NoSequence,
    /// There is not room for the numbers of one solution.
    NoRoom,
    /// There is not enough memory.
    NoMemory,
}

impl From<NoMemory> for Refusal {
    ghost from_gives = { λ _ why. why ≡ Refusal.NoMemory };

    fn from(_none: NoMemory) -> Refusal {
        Refusal::NoMemory
    }
}

impl From<Refused<Fault>> for Refusal {
    ghost use Rattle.pc_solutions.specs.Told.{refusal};

    ghost from_gives = { λ refused why. why ≡ refusal refused };

    fn from(refused: Refused<Fault>) -> Refusal {
        match refused {
            Refused::Fault(fault) => Refusal::Fault(fault),
            Refused::NoMemory => Refusal::NoMemory,
        }
    }
}

/// The sequence after which the list begins: the one with these numbers or, if there are no numbers, the one that is
/// given otherwise.
fn list_after(
    needed: u8,
    given: Option<Sequence>,
    numbers: &[u8],
) -> Result<Option<Sequence>, Refusal>
    requires few { needed ≤ 22 }
    requires len { ForSome given (λ sequence. array_vec_len sequence ≡ needed) }
    ensures after { IfOk result (λ after. (text : Option (List ℕ)) → IsGiven needed text (items_of given)
        → IsAfter needed numbers.now text (items_of after)) }
    ensures len { IfOk result (λ after. ForSome after (λ sequence. array_vec_len sequence ≡ needed)) }
    ensures refused { IfErr result (λ refusal. (refusal ≡ Refusal.NoSequence)
        × (numbers.now ≢ []) × ((sequence : List Placement) → AreNumbersOf needed numbers.now sequence → ⊥)) }
{
    if numbers.is_empty() {
        return Ok(given);
    }
    match sequence_in(needed, numbers) {
        Some(sequence) => Ok(Some(sequence)),
        None => Err(Refusal::NoSequence),
    }
}

/// Writes the numbers of the solutions that `path` lists for these settings, as many as the limit allows and as
/// `placements` holds whole. The options that shape text make no difference. The list begins after the sequence that
/// the numbers of `after` give, or if there are none, after the one that the settings give. `bytes` are those of the
/// source. A refusal writes nothing and makes no flood. Memory runs out only if the text of the field takes some, or
/// where nothing else refuses.
pub fn write_solutions<L: Ledger>(
    alloc: Global,
    settings: &PathSettings<'_>,
    bytes: &[u8],
    after: &[u8],
    placements: &mut [u8],
    steps: &mut Steps<L>,
) -> Result<Written, Refusal>
    requires { IsInRange (path_view settings.now).common }
    ensures written { IfOk result (λ written. WritesSolutions (path_view settings.now) bytes.now after.now
        (length placements.old) (take written.size placements.new) written.count written.ended
        (steps.new - steps.old)) }
    ensures within { IfOk result (λ written. written.size ≤ length placements.new) }
    ensures rest { IfOk result (λ written. drop written.size placements.new ≡ drop written.size placements.old) }
    ensures fault { (fault : Fault) → result ≡ Err (Refusal.Fault fault)
        → path_fault (path_view settings.now) bytes.now ≡ Some fault }
    ensures no_sequence { result ≡ Err Refusal.NoSequence → HasNoSequence (path_view settings.now) bytes.now after.now }
    ensures no_room { result ≡ Err Refusal.NoRoom
        → LacksSolutionRoom (path_view settings.now) bytes.now after.now (length placements.old) }
    ensures memory { result ≡ Err Refusal.NoMemory → (field_needs (path_view settings.now).common.field ≢ nothing)
        ⊎ HasSolutionRoom (path_view settings.now) bytes.now after.now (length placements.old) }
    ensures quiet { OnErr result (placements.new ≡ placements.old) }
    ensures idle { OnErr result (steps.new ≡ steps.old) }
    ensures counted { steps.old ≤ steps.new }
{
    let listing = listing_of(alloc, settings, bytes)?;
    let problem = listing.problem;
    let needed = needed(&problem);
    let after = list_after(needed, listing.after, after)?;
    if placements.len() < 4 * usize::from(needed) {
        return Err(Refusal::NoRoom);
    }
    let mut search = Search::start(alloc, problem, after)?;
    let most = most_written(settings.limit, placements.len(), needed);
    Ok(write_list(&problem, &mut search, most, placements, steps))
}
