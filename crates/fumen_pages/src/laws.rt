// Laws of the definitions: functions with an empty body whose contract is the law.
ghost use Rattle.std.specs.Prelude.{◌≡◌, ℕ, List, Bool, Ok};
ghost use Rattle.fumen_digits.specs.declared.dialect.Dialect.{Dialect};
ghost use Rattle.fumen_digits.specs.Digit.{AreDigits};
ghost use Rattle.fumen_digits.specs.Number.{Stands};
ghost use Rattle.fumen_pages.specs.Cells.{AreCells, shown};
ghost use Rattle.fumen_pages.specs.Record.{CutsOther, unchanged};
ghost use Rattle.fumen_pages.specs.Written.{AreApart, longest, written_record, action_number_of};
ghost use Rattle.fumen_pages.specs.Reading.{record_at, action_in};
ghost use Rattle.fumen_pages.specs.declared.page.Page.{Page};
ghost use Rattle.fumen_pages.specs.Action.{SaysAction};
ghost use Rattle.fumen_pages.specs.Sound.{IsSound, action_of};

/// What is written is read back. The record of some cells has only digits, and cuts the cells into the longest runs. It
/// is the run that changes no cell exactly if none changes. It is read as the new cells wherever it stands.
pub fn write_cells_undone()
    ensures digits { (dialect : Dialect) (old new : List ℕ) → AreDigits (written_record dialect old new) }
    ensures same { (dialect : Dialect) (old : List ℕ) → AreCells dialect old →
        written_record dialect old old ≡ unchanged dialect }
    ensures other { (dialect : Dialect) (old new : List ℕ) → AreCells dialect old → AreCells dialect new →
        (new ≡ old → ⊥) →
        CutsOther dialect old new (written_record dialect old new) }
    ensures longest { (dialect : Dialect) (old new : List ℕ) → AreCells dialect old → AreCells dialect new →
        AreApart (longest (shown dialect old) (shown dialect new)) }
    ensures read { (dialect : Dialect) (ds old new : List ℕ) (place end : ℕ) → AreCells dialect old →
        AreCells dialect new →
        Stands ds place (written_record dialect old new) end →
        (same : Bool) × (record_at dialect ds place old
        ≡ Ok (record { cells = new; place = end; unchanged = same })) }
{}

/// What is written is read back: the action number of a sound page stands for its operation, its flags and whether it
/// has a comment, and is read as these.
#[tactic(auto, using(crate::proofs::WrittenActionIsSpelled::number_says, crate::proofs::WrittenActionIsSpelled::number_read))]
pub fn action_number_undone()
    ensures says { (dialect : Dialect) (page : Page) → IsSound dialect page →
        SaysAction dialect (action_number_of dialect page) (action_of page) }
    ensures read { (dialect : Dialect) (page : Page) → IsSound dialect page →
        action_in dialect (action_number_of dialect page) ≡ Ok (action_of page) }
{}
