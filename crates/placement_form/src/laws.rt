// Laws of the definitions: functions with an empty body whose contract is the law.
ghost use Rattle.std.specs.Prelude.{◌≡◌, ◌↔◌, ℕ, List, Some, None};
ghost use Rattle.srs.specs.declared.placement.Placement.{Placement};
ghost use Rattle.placement_form.specs.Form.{IsPlacementText};
ghost use Rattle.placement_form.specs.Reading.{placement_in};

/// A text is read as a placement exactly if it is this placement's text, and as none exactly if it is no placement's
/// text. So it is the text of at most one placement.
pub fn texts_are_read_as_written()
    ensures read { (text : List ℕ) (placement : Placement) →
        (placement_in text ≡ Some placement) ↔ IsPlacementText text placement }
    ensures none { (text : List ℕ) → (placement_in text ≡ None)
        ↔ ((placement : Placement) → IsPlacementText text placement → ⊥) }
    ensures one { (text : List ℕ) (one other : Placement) → IsPlacementText text one → IsPlacementText text other →
        one ≡ other }
{}
