// What `path` lists.
ghost use Rattle.std.specs.Prelude.{◌≡◌, ◌≢◌, ◌≤◌, option_copied, None, Some, Err, IfOk, IfErr, OnOk};
ghost use Rattle.std.specs.Option.{ForSome};
ghost use Rattle.arrayvec.specs.ArrayVec.{array_vec_len};
ghost use Rattle.well.specs.Well.{filled};
ghost use Rattle.problem.specs.Problem.{IsFit, needed_of};
ghost use Rattle.enumerate.specs.Items.{items_of};
ghost use Rattle.pc_outside.specs.declared.answers.Refused.{Refused};
ghost use Rattle.pc_settings.specs.Request.{IsInRange};
ghost use Rattle.pc_settings.specs.Views.{path_view};
ghost use Rattle.pc_source.specs.FieldText.{field_needs, of_source};
ghost use Rattle.pc_source.specs.Had.{HasProblem, IsRefusedInput};
ghost use Rattle.pc_source.specs.Task.{nothing};
ghost use Rattle.pc_path.specs.Faults.{after_fault, listing_fault};
ghost use Rattle.pc_path.specs.Output.{IsGiven};
ghost use Rattle.pc_path.specs.PathTask.{path_fault};

use pc_faults::Fault;
use pc_outside::Refused;
use pc_settings::PathSettings;
use pc_source::{Dash, problem_asked};
use problem::{Problem, Sequence, needed};
use sequence_text::sequence_in;
use std::alloc::Global;

/// What `path` lists: the solutions of a problem, or only those above a given sequence.
#[derive(Drop)]
pub struct Listing {
    pub problem: Problem,
    /// The sequence after which the list begins.
    pub after: Option<Sequence>,
}

#[tactic(auto, using(crate::proofs::AfterFaults::given_spelled))]
fn given(needed: u8, text: Option<&str>) -> Result<Option<Sequence>, Fault>
    requires { needed ≤ 22 }
    ensures fault { IfErr result (λ fault. after_fault needed (option_copied text.entry) ≡ Some fault) }
    ensures none { OnOk result (after_fault needed (option_copied text.entry) ≡ None) }
    ensures after { IfOk result (λ after. IsGiven needed (option_copied text.entry) (items_of after)) }
    ensures len { IfOk result (λ after. ForSome after (λ sequence. array_vec_len sequence ≡ needed)) }
{
    let Some(text) = text else { return Ok(None) };
    match sequence_in(needed, text.as_bytes()) {
        Ok(sequence) => Ok(Some(sequence)),
        Err(place) => Err(Fault::BadAfter { place }),
    }
}

/// What the settings ask to list. `bytes` are those of the source. A refusal is the first fault of what they name, or
/// that memory ran out, which only a fumen text takes.
pub fn listing_of(
    alloc: Global,
    settings: &PathSettings<'_>,
    bytes: &[u8],
) -> Result<Listing, Refused<Fault>>
    requires { IsInRange (path_view settings.now).common }
    ensures problem { IfOk result (λ listing. HasProblem (path_view settings.now).common (of_source bytes.now)
        listing.problem) }
    ensures fit { IfOk result (λ listing. IsFit listing.problem) }
    ensures none { IfOk result (λ listing.
        listing_fault (path_view settings.now) (filled listing.problem.well) ≡ None) }
    ensures after { IfOk result (λ listing.
        IsGiven (needed_of listing.problem) (path_view settings.now).after (items_of listing.after)) }
    ensures len { IfOk result (λ listing.
        ForSome listing.after (λ sequence. array_vec_len sequence ≡ needed_of listing.problem)) }
    ensures refused { IfErr result (λ refused. IsRefusedInput (path_fault (path_view settings.now) bytes.now) refused) }
    ensures memory { result ≡ Err Refused.NoMemory → field_needs (path_view settings.now).common.field ≢ nothing }
{
    let problem = problem_asked(alloc, &settings.common, Dash::Source(bytes))?;
    match given(needed(&problem), settings.after) {
        Ok(after) => Ok(Listing { problem, after }),
        Err(fault) => Err(Refused::Fault(fault)),
    }
}
