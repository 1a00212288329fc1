// Laws of the definitions: functions with an empty body whose contract is the law.
ghost use Rattle.std.specs.Prelude.{◌≡◌, ◌↔◌, ℕ, List, Ok, Err};
ghost use Rattle.srs.specs.declared.placement.Placement.{Placement};
ghost use Rattle.pc_faults.specs.declared.cover_fault.CoverFault.{CoverFault};
ghost use Rattle.pc_cover.specs.Given.{given_in};
ghost use Rattle.pc_cover.specs.Spelling.{IsGivenFault, SpellsGiven};

/// Lines are read as the sequences that they spell. They are refused by the fault of the first line that spells none.
pub fn lines_are_read_as_they_spell()
    ensures sequences { (needed : ℕ) (text : List ℕ) (sequences : List (List Placement)) →
        (given_in needed text ≡ Ok sequences) ↔ SpellsGiven needed text sequences }
    ensures fault { (needed : ℕ) (text : List ℕ) (fault : CoverFault) →
        (given_in needed text ≡ Err fault) ↔ IsGivenFault needed text fault }
{}
