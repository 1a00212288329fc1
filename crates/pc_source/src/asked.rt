// The problem that the settings name, for the field that their words give.
ghost use Rattle.std.specs.Prelude.{◌≡◌, ◌≢◌, ◌≤◌, None, Some, Ok, Err, IfOk, IfErr, IsSome, OnOk};
ghost use Rattle.well.specs.Well.{filled};
ghost use Rattle.well.specs.Counts.{lowest_full};
ghost use Rattle.queue_pattern.specs.Grammar.{elements, limited};
ghost use Rattle.queue_pattern.specs.Pattern.{elements_of};
ghost use Rattle.problem.specs.Problem.{IsFit};
ghost use Rattle.pc_outside.specs.declared.answers.Refused.{Refused};
ghost use Rattle.pc_settings.specs.Request.{IsInRange};
ghost use Rattle.pc_settings.specs.Views.{field_view};
ghost use Rattle.pc_source.specs.FieldText.{HasPrefix, field_needs};
ghost use Rattle.pc_source.specs.Had.{HasProblem, IsRefusedInput, dash_view};
ghost use Rattle.pc_source.specs.Problem.{IsProblemOf};
ghost use Rattle.pc_source.specs.ProblemFaults.{filled_rows_fault, full_row_fault, pattern_fault, problem_fault, request_fault};
ghost use Rattle.pc_source.specs.Task.{nothing};
ghost use Rattle.pc_source.specs.Told;

use crate::field_text::{Dash, field};
use pc_faults::Fault;
use pc_outside::Refused;
use pc_settings::FieldSettings;
use problem::{Problem, ProblemFault, check_field};
use queue_pattern::Pattern;
use std::alloc::Global;
use well::Well;

/// The program's fault for the fault of a problem whose height is 1 to 8.
fn told(fault: ProblemFault) -> Fault
    requires { IsSome (Told.told fault) }
    ensures { Told.told fault ≡ Some result }
{
    match fault {
        ProblemFault::BadHeight { .. } => unreachable!(),
        ProblemFault::FieldTooHigh { row } => Fault::FieldTooHigh { row },
        ProblemFault::FullRow { row } => Fault::FullRow { row },
        ProblemFault::TooFewPieces { have, need } => Fault::TooFewPieces { have, need },
    }
}

/// Checks that the field has no cell at or above the height and no full row.
#[tactic(auto, unfolding(crate::specs::ProblemFaults::filled_rows_fault))]
fn rows(well: &Well, height: u8) -> Result<(), Fault>
    requires least { 1 ≤ height }
    requires most { height ≤ 8 }
    ensures fault { IfErr result (λ fault. filled_rows_fault (filled well.now) height ≡ Some fault) }
    ensures none { OnOk result (filled_rows_fault (filled well.now) height ≡ None) }
{
    match check_field(well, height) {
        Ok(()) => Ok(()),
        Err(fault) => Err(told(fault)),
    }
}

/// Checks that the field has no full row. The fault names the lowest one.
pub fn open_rows(well: &Well) -> Result<(), Fault>
    ensures fault { IfErr result (λ fault. full_row_fault (filled well.now) ≡ Some fault) }
    ensures none { OnOk result (full_row_fault (filled well.now) ≡ None) }
    ensures open_rows { OnOk result (lowest_full (filled well.now) ≡ None) }
{
    match well.lowest_full() {
        Some(row) => Err(Fault::FullRow { row }),
        None => Ok(()),
    }
}

/// The pattern that a text spells, or its first fault.
pub fn pattern_of(text: &str) -> Result<Pattern, Fault>
    ensures fault { IfErr result (λ fault. pattern_fault (limited (elements text.now)) ≡ Some fault) }
    ensures pattern { IfOk result (λ pattern. limited (elements text.now) ≡ Ok (elements_of pattern)) }
{
    match Pattern::parse(text) {
        Ok(pattern) => Ok(pattern),
        Err(fault) => Err(Fault::Pattern(fault)),
    }
}

/// The problem that the settings name for a field. A refusal is the first fault of these: a cell at or above the
/// height, a full row, the pattern, too few pieces at hand.
#[tactic(auto, unfolding(crate::specs::ProblemFaults::problem_fault))]
fn problem_of(well: Well, settings: &FieldSettings<'_>) -> Result<Problem, Fault>
    requires least { 1 ≤ settings.now.height }
    requires most { settings.now.height ≤ 8 }
    ensures fault { IfErr result (λ fault. problem_fault (field_view settings.now) (filled well) ≡ Some fault) }
    ensures none { OnOk result (problem_fault (field_view settings.now) (filled well) ≡ None) }
    ensures problem { IfOk result (λ problem. IsProblemOf (field_view settings.now) (filled well) problem) }
    ensures fit { IfOk result (λ problem. IsFit problem) }
{
    rows(&well, settings.height)?;
    let pattern = pattern_of(settings.patterns)?;
    let problem = Problem::new(
        well,
        settings.height,
        pattern,
        settings.hold,
        settings.held,
        settings.drop_mode,
        settings.rules,
    );
    match problem {
        Ok(problem) => Ok(problem),
        Err(fault) => Err(told(fault)),
    }
}

/// The problem that the settings name for the field that their words give. A refusal is that memory ran out, which only
/// a fumen text takes, or the first fault of these: the text of the field, a cell at or above the height, a full row,
/// the pattern, too few pieces at hand.
#[tactic(auto, using(std::proofs::lemmas::Result::err_from_is_err_and, fumen_digits::proofs::CallerLemmas::err_passed))]
pub fn problem_asked(
    alloc: Global,
    settings: &FieldSettings<'_>,
    dash: Dash<'_>,
) -> Result<Problem, Refused<Fault>>
    requires { IsInRange (field_view settings.now) }
    ensures problem { IfOk result (λ problem. HasProblem (field_view settings.now) (dash_view dash.entry) problem) }
    ensures fit { IfOk result (λ problem. IsFit problem) }
    ensures refused { IfErr result
        (λ refused. IsRefusedInput (request_fault (field_view settings.now) (dash_view dash.entry)) refused) }
    ensures memory { result ≡ Err Refused.NoMemory → field_needs (field_view settings.now).field ≢ nothing }
    ensures prefix { result ≡ Err Refused.NoMemory → HasPrefix (field_view settings.now).field (dash_view dash.entry) }
{
    let well = field(alloc, settings.field, settings.page, dash)?;
    match problem_of(well, settings) {
        Ok(problem) => Ok(problem),
        Err(fault) => Err(Refused::Fault(fault)),
    }
}
