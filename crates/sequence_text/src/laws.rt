// Laws of the texts of sequences: functions with an empty body whose contract is the law.
ghost use Rattle.std.specs.Prelude.{◌≡◌, ◌↔◌, ℕ, All, List, length, map, Ok, Err};
ghost use Rattle.srs.specs.declared.placement.Placement.{Placement};
ghost use Rattle.srs.specs.Cells.{HasPivotInWell};
ghost use Rattle.sequence_text.specs.Form.{IsRefusedAt, Spells};
ghost use Rattle.sequence_text.specs.Reading.{sequence_in};
ghost use Rattle.sequence_text.specs.Written.{Keyed, sequence_form};

/// A text is read as a sequence of the needed length exactly if it spells this sequence. It is refused at a place
/// exactly if it spells none and its longest front that begins one has this many bytes.
pub fn texts_are_read_as_they_spell()
    ensures sequence { (needed : ℕ) (text : List ℕ) (sequence : List Placement) →
        (sequence_in needed text ≡ Ok sequence) ↔ Spells needed text sequence }
    ensures place { (needed : ℕ) (text : List ℕ) (place : ℕ) →
        (sequence_in needed text ≡ Err place) ↔ IsRefusedAt needed text place }
{}

/// A text spells at most one sequence of a given length.
pub fn spelled_sequences_are_determined()
    ensures { (needed : ℕ) (text : List ℕ) (one other : List Placement) →
        Spells needed text one → Spells needed text other → one ≡ other }
{}

/// The written text of placements with their pivots in the well, with whatever keys, spells these placements.
pub fn written_sequences_are_spelled()
    ensures { (keyed : List Keyed) → All (λ item. HasPivotInWell item.0) keyed →
        Spells (length keyed) (sequence_form keyed) (map (λ item. item.0) keyed) }
{}
