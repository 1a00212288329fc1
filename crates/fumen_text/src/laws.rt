// Laws of the definitions: functions with an empty body whose contract is the law.
ghost use Rattle.std.specs.Prelude.{◌≡◌, ℕ, List, ◌⊎◌, None};
ghost use Rattle.fumen_digits.specs.declared.dialect.Dialect.{Dialect};
ghost use Rattle.fumen_digits.specs.declared.fault.FumenFault.{FumenFault};
ghost use Rattle.fumen_pages.specs.declared.page.Page.{Page};
ghost use Rattle.fumen_text.specs.Texts.{ReadsAs};
ghost use Rattle.fumen_text.specs.Faults.{IsTextFault};
ghost use Rattle.std.specs.List.{AllByRecursion};
ghost use Rattle.fumen_text.specs.Written.{HasTypes, list_encode_fault, written};

/// Every text either reads as pages in one dialect or has a fault, never both. The dialect, the list of pages and the
/// fault are unique.
pub fn one_reading()
    ensures some { (text : List ℕ) →
        ((dialect : Dialect) × (pages : List Page) × ReadsAs text dialect pages)
        ⊎ ((f : FumenFault) × IsTextFault text f) }
    ensures one_list { (text : List ℕ) (dialect other : Dialect) (pages others : List Page) →
        ReadsAs text dialect pages → ReadsAs text other others → (dialect ≡ other) × (pages ≡ others) }
    ensures one_fault { (text : List ℕ) (f g : FumenFault) → IsTextFault text f → IsTextFault text g → f ≡ g }
    ensures never_both { (text : List ℕ) (dialect : Dialect) (pages : List Page) (f : FumenFault) →
        ReadsAs text dialect pages → IsTextFault text f → ⊥ }
{}

/// What is written reads as the pages: every list that `encode` doesn't refuse is what `decode` reads in its text.
#[tactic(auto, using(crate::proofs::WrittenIsRead::written_reads))]
pub fn encode_undone()
    ensures { (dialect : Dialect) (pages : List Page) → AllByRecursion HasTypes pages →
        list_encode_fault dialect pages ≡ None →
        ReadsAs (written dialect pages) dialect pages }
{}
