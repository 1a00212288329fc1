// Laws of the definitions: functions with an empty body whose contract is the law.
ghost use Rattle.std.specs.Prelude.{◌≡◌, ℕ, ◌+◌, ◌^◌, ◌<◌, List, Ok, Some};
ghost use Rattle.fumen_digits.specs.Digit.{AreDigits};
ghost use Rattle.fumen_digits.specs.Number.{digits, Stands};
ghost use Rattle.fumen_digits.specs.Reading.{number_at};
ghost use Rattle.fumen_digits.specs.declared.dialect.Dialect.{Dialect};
ghost use Rattle.fumen_digits.specs.Framing.{broken, digits_in};

/// What is written is read back: a number is written in digits only, and they are read as this number wherever they
/// stand.
pub fn push_number_undone()
    ensures digits { (count n : ℕ) → AreDigits (digits count n) }
    ensures read { (ds : List ℕ) (place count n : ℕ) → n < 64 ^ count →
        Stands ds place (digits count n) (place + count) →
        number_at ds place count ≡ Ok n }
{}

/// What is broken into lines is read back: for digits, `digits_of` undoes `break_lines`.
pub fn break_lines_undone()
    ensures { (dialect : Dialect) (digits : List ℕ) → AreDigits digits →
        digits_in (broken dialect digits) ≡ Some (dialect, digits) }
{}
