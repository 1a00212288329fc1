// Laws of the definitions: functions with an empty body whose contract is the law.
ghost use Rattle.std.specs.Prelude.{◌≡◌, ◌↔◌, ◌++◌, ℕ, Bool, true, false, List, [], ◌∷◌, Some, None};
ghost use Rattle.srs.specs.declared.placement.Placement.{Placement};
ghost use Rattle.srs.specs.Rules.{table_of};
ghost use Rattle.well.specs.Well.{filled};
ghost use Rattle.problem.specs.declared.problem.Problem.{Problem};
ghost use Rattle.problem.specs.Problem.{IsFit, needed_of};
ghost use Rattle.problem.specs.Solution.{IsSolution};
ghost use Rattle.report.specs.Forms.{key_part, line_form};
ghost use Rattle.sequence_text.specs.Form.{IsRefusedAt, Spells};
ghost use Rattle.pc_settings.specs.Request.{PathRequest};
ghost use Rattle.pc_faults.specs.declared.fault.Fault.TheVariants.{BadAfter};
ghost use Rattle.pc_source.specs.FieldText.{field_needs};
ghost use Rattle.pc_source.specs.Task.{is_source};
ghost use Rattle.pc_path.specs.Faults.{after_fault};
ghost use Rattle.pc_path.specs.PathTask.{path_fault, path_task};

/// The output of `path` depends only on its words, on the bytes of the source if it reads it, and with `--stats yes` on
/// the number of floods.
pub fn path_output_is_determined()
    ensures { (request : PathRequest) (bytes one other : List ℕ) (floods others : ℕ)
        → (request.stats ≡ true → floods ≡ others)
        → (path_task request).IsOutput bytes floods one → (path_task request).IsOutput bytes others other
        → one ≡ other }
{}

/// If `path` doesn't read the source, its first fault and its output are the same whatever bytes the source has.
pub fn unread_bytes_do_not_matter()
    ensures fault { (request : PathRequest) (one other : List ℕ) → is_source (field_needs request.common.field) ≡ false
        → path_fault request one ≡ path_fault request other }
    ensures output { (request : PathRequest) (one other output : List ℕ) (floods : ℕ)
        → is_source (field_needs request.common.field) ≡ false
        → (path_task request).IsOutput one floods output → (path_task request).IsOutput other floods output }
{}

/// A value for `--after` has no fault exactly if it spells a sequence of the needed length. It has the fault `BadAfter`
/// with a place exactly if it spells none and its longest front that begins one has this many bytes.
pub fn bad_after_is_at_the_longest_front()
    ensures none { (needed : ℕ) (text : List ℕ) →
        (after_fault needed (Some text) ≡ None) ↔ ((sequence : List Placement) × Spells needed text sequence) }
    ensures place { (needed : ℕ) (text : List ℕ) (place : ℕ) →
        (after_fault needed (Some text) ≡ Some (BadAfter place)) ↔ IsRefusedAt needed text place }
{}

/// What a report writes for a solution of a fit problem, with keys or without, is a valid value for `--after`: its line
/// without the newline spells this solution.
pub fn written_solutions_may_be_given()
    ensures { (problem : Problem) (sequence : List Placement) (keys : Bool) (text : List ℕ) → IsFit problem
        → IsSolution problem None sequence
        → line_form (key_part keys (table_of problem.rules) problem.drop_mode) (filled problem.well) sequence
        ≡ text ++ 10 ∷ []
        → Spells (needed_of problem) text sequence }
{}
