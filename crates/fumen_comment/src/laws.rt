// Laws of the definitions: functions with an empty body whose contract is the law.
ghost use Rattle.std.specs.Prelude.{◌≡◌, ℕ, ◌^◌, ◌<◌, List, All, ◌≤◌, length, Ok};
ghost use Rattle.fumen_comment.specs.Escape.{escaped, IsPrintable};
ghost use Rattle.fumen_comment.specs.Unescape.{unescaped};
ghost use Rattle.fumen_digits.specs.Digit.{AreDigits};
ghost use Rattle.fumen_digits.specs.Number.{digits, Stands};
ghost use Rattle.fumen_comment.specs.Part.{comment_digits, SpellsComment};
ghost use Rattle.fumen_comment.specs.Reading.{comment_at};

/// Unescaping undoes escaping: `unescape` gives back the units that `escape` got.
pub fn escape_undone()
    ensures { (units : List ℕ) → All (λ unit. unit < 2 ^ 16) units → unescaped (escaped units) ≡ units }
{}

/// What is written is read back: the comment part of an escaped text has only digits, spells the unescaped units, and
/// is read as these units wherever it stands.
pub fn write_comment_undone()
    ensures digits { (text : List ℕ) → AreDigits (comment_digits text) }
    ensures spells { (text : List ℕ) → length text ≤ 4095 → All IsPrintable text →
        SpellsComment (unescaped text) (comment_digits text) }
    ensures read { (ds text : List ℕ) (place end : ℕ) → length text ≤ 4095 → All IsPrintable text →
        Stands ds place (comment_digits text) end → comment_at ds place ≡ Ok (unescaped text, end) }
{}
