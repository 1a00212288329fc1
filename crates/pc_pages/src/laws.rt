// Laws of the definitions: functions with an empty body whose contract is the law.
ghost use Rattle.std.specs.Prelude.{◌≡◌, ◌≤◌, ◌<◌, ℕ, List, length, Option, option_map, Some, None};
ghost use Rattle.std.specs.List.{flat_map};
ghost use Rattle.fumen_digits.specs.declared.dialect.Dialect.{Dialect};
ghost use Rattle.fumen_digits.specs.declared.fault.FumenFault.{FumenFault};
ghost use Rattle.fumen_pages.specs.declared.page.Page.{Page};
ghost use Rattle.fumen_pages.specs.declared.list_fault.ListFault.{ListFault};
ghost use Rattle.fumen_text.specs.Faults.{IsTextFault};
ghost use Rattle.fumen_text.specs.Texts.{ReadsAs};
ghost use Rattle.fumen_text.specs.Written.{list_encode_fault};
ghost use Rattle.page_list.specs.LineSpelling.{IsListFault, SpellsPages};
ghost use Rattle.page_list.specs.PrintedLine.{page_form};
ghost use Rattle.pc_faults.specs.declared.fault.Fault.TheVariants as faults;
ghost use Rattle.pc_source.specs.Faults.{page_fault};
ghost use Rattle.pc_source.specs.Task.{first_fault, most_bytes};
ghost use Rattle.pc_pages.specs.Faults.{encode_fault};
ghost use Rattle.pc_pages.specs.Output.{IsDecodeOutput, IsEncodeOutput, IsShowOutput};
ghost use Rattle.pc_pages.specs.Tasks.{decode_task, encode_task, show_task};

/// The output of `decode`, `encode` and `show` depends only on the bytes of the source.
pub fn outputs_are_determined()
    ensures decode { (bytes one other : List ℕ) → IsDecodeOutput bytes one → IsDecodeOutput bytes other → one ≡ other }
    ensures encode { (dialect : Dialect) (bytes one other : List ℕ) → IsEncodeOutput dialect bytes one
        → IsEncodeOutput dialect bytes other → one ≡ other }
    ensures show { (asked : Option ℕ) (bytes one other : List ℕ) → IsShowOutput asked bytes one
        → IsShowOutput asked bytes other → one ≡ other }
{}

/// The lines that `decode` writes are valid input for `encode`: they spell the pages that were decoded.
pub fn decoded_lines_spell_their_pages()
    ensures { (bytes output : List ℕ) (decoded : IsDecodeOutput bytes output) → SpellsPages output decoded.pages }
{}

/// `encode` refuses a source that is too long, or else by the one fault of its lines, or else because the pages that
/// they spell can't be written.
pub fn encode_faults_are_those_of_the_lines()
    ensures too_long { (dialect : Dialect) (bytes : List ℕ) → most_bytes < length bytes
        → first_fault (encode_task dialect) bytes ≡ Some faults.SourceTooLong }
    ensures lines { (dialect : Dialect) (bytes : List ℕ) (fault : ListFault) → length bytes ≤ most_bytes
        → IsListFault bytes fault
        → first_fault (encode_task dialect) bytes ≡ Some (faults.List fault) }
    ensures pages { (dialect : Dialect) (bytes : List ℕ) (pages : List Page) → length bytes ≤ most_bytes
        → SpellsPages bytes pages
        → first_fault (encode_task dialect) bytes ≡ option_map (λ fault. faults.Encode fault)
        (list_encode_fault dialect pages) }
{}

/// `decode` refuses a source that is too long, or else by the one fault of its text. So does `show`, which also refuses
/// a page number that the text's pages don't have.
pub fn source_faults_are_those_of_the_text()
    ensures decode_too_long { (bytes : List ℕ) → most_bytes < length bytes
        → first_fault decode_task bytes ≡ Some faults.SourceTooLong }
    ensures decode_text { (bytes : List ℕ) (fault : FumenFault) → length bytes ≤ most_bytes → IsTextFault bytes fault
        → first_fault decode_task bytes ≡ Some (faults.Fumen fault) }
    ensures decode_pages { (bytes : List ℕ) (dialect : Dialect) (pages : List Page) → length bytes ≤ most_bytes
        → ReadsAs bytes dialect pages → first_fault decode_task bytes ≡ None }
    ensures show_too_long { (asked : Option ℕ) (bytes : List ℕ) → most_bytes < length bytes
        → first_fault (show_task asked) bytes ≡ Some faults.SourceTooLong }
    ensures show_text { (asked : Option ℕ) (bytes : List ℕ) (fault : FumenFault) → length bytes ≤ most_bytes
        → IsTextFault bytes fault
        → first_fault (show_task asked) bytes ≡ Some (faults.Fumen fault) }
    ensures show_page { (asked : Option ℕ) (bytes : List ℕ) (dialect : Dialect) (pages : List Page)
        → length bytes ≤ most_bytes
        → ReadsAs bytes dialect pages → first_fault (show_task asked) bytes ≡ page_fault asked pages }
{}

/// What `encode` writes, with its newline, is valid input for `decode`: it reads as the pages whose lines `encode` got.
/// So `decode` writes their lines if this text has at most 4,194,304 bytes, and otherwise says that it is too long.
pub fn encoded_texts_are_decoded()
    ensures reads { (dialect : Dialect) (bytes output : List ℕ) (encoded : IsEncodeOutput dialect bytes output)
        → encode_fault dialect bytes ≡ None → ReadsAs output dialect encoded.pages }
    ensures decoded { (dialect : Dialect) (bytes output : List ℕ) (encoded : IsEncodeOutput dialect bytes output)
        → encode_fault dialect bytes ≡ None → length output ≤ most_bytes
        → (first_fault decode_task output ≡ None) × IsDecodeOutput output (flat_map page_form encoded.pages) }
    ensures too_long { (dialect : Dialect) (bytes output : List ℕ) → IsEncodeOutput dialect bytes output
        → most_bytes < length output → first_fault decode_task output ≡ Some faults.SourceTooLong }
{}
