// Laws of the definitions: functions with an empty body whose contract is the law.
ghost use Rattle.std.specs.Prelude.{◌≡◌, ◌<◌, ◌≤◌, ◌↔◌, ◌⊎◌, ℕ, List, length, All, Ok, Err};
ghost use Rattle.std.specs.List.{flat_map};
ghost use Rattle.fumen_comment.specs.Escape.{HasUnits};
ghost use Rattle.fumen_digits.specs.declared.dialect.Dialect.{Dialect};
ghost use Rattle.fumen_digits.specs.declared.dialect.Dialect.TheVariants.{V115};
ghost use Rattle.fumen_pages.specs.Cells.{AreCells};
ghost use Rattle.fumen_pages.specs.Sound.{IsSound};
ghost use Rattle.fumen_pages.specs.declared.page.Page.{Page};
ghost use Rattle.fumen_pages.specs.declared.list_fault.ListFault.{ListFault};
ghost use Rattle.fumen_pages.specs.Lists.{most_pages};
ghost use Rattle.page_list.specs.PrintedLine.{page_form};
ghost use Rattle.page_list.specs.LineSpelling.{HasLines, IsFirstLine, IsListFault, Spelled, SpellsPages};
ghost use Rattle.page_list.specs.ListReading.{first_line, lines_of, pages_in};

/// The lines of a text follow each other from its start to its end: each is the first line of what comes after the
/// lines before it. So each text has one list of lines. `first_line` gives the first line of each text that has a byte.
#[tactic(auto, using(crate::proofs::FirstLine::first_line_is))]
pub fn lines_follow_each_other()
    ensures lines { (text : List ℕ) (lines : List (List ℕ)) → (lines_of text ≡ lines) ↔ HasLines text lines }
    ensures first { (text : List ℕ) → 0 < length text → IsFirstLine text (first_line text).0 (first_line text).1 }
{}

/// A text is read as pages exactly if it spells them, and refused with a fault exactly if it has this fault.
pub fn texts_are_read_as_they_spell()
    ensures pages { (text : List ℕ) (pages : List Page) → (pages_in text ≡ Ok pages) ↔ SpellsPages text pages }
    ensures fault { (text : List ℕ) (fault : ListFault) → (pages_in text ≡ Err fault) ↔ IsListFault text fault }
{}

/// Each text either spells one list of pages or has one fault.
pub fn a_text_spells_pages_or_has_a_fault()
    ensures either { (text : List ℕ) → Spelled SpellsPages text ⊎ Spelled IsListFault text }
    ensures not_both { (text : List ℕ) (pages : List Page) (fault : ListFault) → SpellsPages text pages →
        IsListFault text fault → ⊥ }
    ensures one_list { (text : List ℕ) (one other : List Page) → SpellsPages text one → SpellsPages text other →
        one ≡ other }
    ensures one_fault { (text : List ℕ) (one other : ListFault) → IsListFault text one → IsListFault text other →
        one ≡ other }
{}

/// The lines that `print_page` writes, one after the other, spell their pages: up to 10,000 pages of a dialect, with
/// comments of units of 16 bits.
pub fn printed_lines_spell_their_pages()
    ensures { (dialect : Dialect) (pages : List Page) → length pages ≤ most_pages → All (IsSound dialect) pages →
        All (λ page. HasUnits page.comment) pages → SpellsPages (flat_map page_form pages) pages }
{}

/// Each page that a text spells has 240 cells, each with a colour, and the units of its comment have 16 bits.
#[tactic(auto, using(crate::proofs::SpelledCells::cells_of_pages, crate::proofs::SpelledCells::units_of_pages))]
pub fn spelled_pages_have_cells()
    ensures cells { (text : List ℕ) (pages : List Page) → SpellsPages text pages →
        All (λ page. AreCells V115 page.cells) pages }
    ensures units { (text : List ℕ) (pages : List Page) → SpellsPages text pages →
        All (λ page. HasUnits page.comment) pages }
{}
