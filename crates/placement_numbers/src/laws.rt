// Laws of the definitions: functions with an empty body whose contract is the law.
ghost use Rattle.std.specs.Prelude.{◌≡◌, ℕ, ◌*◌, length, List};
ghost use Rattle.srs.specs.declared.placement.Placement.{Placement};
ghost use Rattle.placement_numbers.specs.Numbers.{AreNumbersOf};

/// Numbers are those of at most one sequence, and each of its placements has four.
pub fn numbers_tell_their_sequence()
    ensures one { (needed other : ℕ) (numbers : List ℕ) (first second : List Placement)
        → AreNumbersOf needed numbers first → AreNumbersOf other numbers second → first ≡ second }
    ensures four { (needed : ℕ) (numbers : List ℕ) (sequence : List Placement) → AreNumbersOf needed numbers sequence
        → length numbers ≡ 4 * needed }
{}
