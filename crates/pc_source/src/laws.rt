// Laws of the definitions: functions with an empty body whose contract is the law.
ghost use Rattle.std.specs.Prelude.{◌≡◌, ◌≤◌, ℕ, List, Option, Some, None};
ghost use Rattle.lane_board.specs.Field.{Field};
ghost use Rattle.fumen_digits.specs.declared.dialect.Dialect.{Dialect};
ghost use Rattle.fumen_digits.specs.declared.fault.FumenFault.{FumenFault};
ghost use Rattle.fumen_pages.specs.declared.page.Page.{Page};
ghost use Rattle.fumen_text.specs.Faults.{IsTextFault};
ghost use Rattle.fumen_text.specs.Texts.{ReadsAs};
ghost use Rattle.pc_faults.specs.declared.fault.Fault.TheVariants.{Fumen};
ghost use Rattle.pc_settings.specs.Request.{FieldText, fumen_text};
ghost use Rattle.pc_source.specs.Faults.{cells_asked, field_fault, page_fault, text_fault};
ghost use Rattle.pc_source.specs.FieldText.{DashText, IsFieldOf, text_given};

/// A text of the field without a fault asks for exactly one field: the one whose cells the later faults are about.
pub fn fields_are_read_as_they_are_asked()
    ensures there { (field : FieldText) (number : ℕ) (meant : DashText) → 1 ≤ number
        → field_fault field number meant ≡ None
        → IsFieldOf field number meant (cells_asked field number meant) }
    ensures only { (field : FieldText) (number : ℕ) (meant : DashText) (F : Field) → IsFieldOf field number meant F
        → cells_asked field number meant ≡ F }
{}

/// The first fault of a fumen text, of which a page may be asked for, is the one fault of this text, or else that the
/// pages that it reads as don't have this page.
pub fn text_faults_are_those_of_the_text()
    ensures text { (asked : Option ℕ) (text : List ℕ) (fault : FumenFault) → IsTextFault text fault
        → text_fault asked text ≡ Some (Fumen fault) }
    ensures page { (asked : Option ℕ) (text : List ℕ) (dialect : Dialect) (pages : List Page)
        → ReadsAs text dialect pages
        → text_fault asked text ≡ page_fault asked pages }
{}

/// The fault of a fumen text that gives the field, in the source or in a word, is the one fault of this text, or else
/// that the pages that it reads as don't have the page that is asked for.
pub fn field_faults_are_those_of_the_text()
    ensures text { (word : List ℕ) (number : ℕ) (meant : DashText) (fault : FumenFault)
        → IsTextFault (text_given word meant) fault
        → field_fault (fumen_text word) number meant ≡ Some (Fumen fault) }
    ensures page { (word : List ℕ) (number : ℕ) (meant : DashText) (dialect : Dialect) (pages : List Page)
        → ReadsAs (text_given word meant) dialect pages
        → field_fault (fumen_text word) number meant ≡ page_fault (Some number) pages }
{}
