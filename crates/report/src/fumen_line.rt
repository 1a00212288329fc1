// A sequence as a fumen text, with one page for each placement.
ghost use Rattle.std.specs.Prelude.{◌≡◌, ◌≤◌, [], ◌∷◌, ◌++◌, Err, None, IfOk, OnOk, IsTrue, length, option_map};
ghost use Rattle.srs.specs.Cells.{is_inside_of};
ghost use Rattle.srs.specs.Rules.{table_of};
ghost use Rattle.well.specs.Well.{filled};
ghost use Rattle.pc_outside.specs.Writes.{WritesAll};
ghost use Rattle.problem.specs.Solution.{PlaysIn};
ghost use Rattle.moves.specs.Keys.{word_letters};
ghost use Rattle.report.specs.Forms.{key_part};
ghost use Rattle.fumen_digits.specs.declared.dialect.Dialect.TheVariants.{V115};
ghost use Rattle.fumen_pages.specs.Cells.{AreCells};
ghost use Rattle.fumen_pages.specs.Next.{next};
ghost use Rattle.fumen_text.specs.Written.{list_encode_fault, written};
ghost use Rattle.report.specs.FumenLine.{fumen_form, placing_page, sequence_pages};
ghost use Rattle.report.specs.Keys.{has_keys};
ghost use Rattle.line_writing.specs.WriteCause.{HasWriteCause};
ghost use Rattle.report.specs.Writer.{pages_of_line, room_for_pages};

use crate::grey::grey_cells;
use crate::keys::WrittenKeys;
use fumen_comment::Comment;
use fumen_digits::Dialect;
use fumen_pages::{Page, next_cells};
use fumen_text::encode;
use key_path::KeyWord;
use line_writing::WriteFault;
use pc_outside::{NoMemory, Refused, Sink};
use problem::{Problem, Sequence};
use srs::Placement;
use std::alloc::Global;

/// A writer of sequences as fumen texts. It allocates the memory for a line's pages once and reuses it for the next
/// line.
#[derive(Drop)]
pub struct FumenWriter {
    pages: Vec<Page>,
}

impl FumenWriter {
    /// Makes a writer that has written nothing yet, with room for the pages of a line. `NoMemory` if there is not enough
    /// memory for them.
    pub fn new(alloc: Global) -> Result<FumenWriter, NoMemory>
        ensures empty { IfOk result (λ writer. pages_of_line writer ≡ []) }
        ensures room { IfOk result (λ writer. room_for_pages writer ≡ 22) }
    {
        let pages = Vec::with_capacity(alloc, 22)?;
        Ok(FumenWriter { pages })
    }

    /// Writes a sequence as `write_fumen_line` does.
    pub fn write_line<O: Sink>(
        &mut self,
        alloc: Global,
        out: &mut O,
        problem: &Problem,
        sequence: &Sequence,
        keys: &mut WrittenKeys,
    ) -> Result<(), WriteFault>
        requires { PlaysIn problem.now sequence.now.items }
        ensures written { WritesAll (O.written out.old) (O.written out.new) result
            (fumen_form (key_part (has_keys keys.old) (table_of problem.now.rules) problem.now.drop_mode)
            (filled problem.now.well) sequence.now.items) }
        ensures untouched { result ≡ Err WriteFault.NoMemory → out.new ≡ out.old }
        ensures cause { HasWriteCause O.counts_failures_alone (O.faults out.old) (O.faults out.new) result }
        ensures keys { has_keys keys.new ≡ has_keys keys.old }
    {
        let text = self.text(alloc, problem, sequence.as_slice(), keys)?;
        out.write(text.as_slice())?;
        Ok(())
    }

    /// The text of a line, and a newline.
    #[tactic(auto, unfolding(crate::specs::FumenLine::fumen_form))]
    fn text(
        &mut self,
        alloc: Global,
        problem: &Problem,
        placements: &[Placement],
        keys: &mut WrittenKeys,
    ) -> Result<Vec<u8>, NoMemory>
        requires plays { PlaysIn problem.now placements.now }
        requires few { length placements.now ≤ 22 }
        ensures text { IfOk result (λ text. text.items
            ≡ fumen_form (key_part (has_keys keys.old) (table_of problem.now.rules) problem.now.drop_mode)
            (filled problem.now.well) placements.now) }
        ensures keys { has_keys keys.new ≡ has_keys keys.old }
    {
        self.set_pages(alloc, problem, placements, keys)?;
        text_of(alloc, &self.pages)
    }

    /// Sets the pages to those of some placements.
    fn set_pages(
        &mut self,
        alloc: Global,
        problem: &Problem,
        placements: &[Placement],
        keys: &mut WrittenKeys,
    ) -> Result<(), NoMemory>
        requires plays { PlaysIn problem.now placements.now }
        requires few { length placements.now ≤ 22 }
        ensures pages { OnOk result (self.new.pages.items
            ≡ sequence_pages (key_part (has_keys keys.old) (table_of problem.now.rules) problem.now.drop_mode)
            (filled problem.now.well) placements.now) }
        ensures fit { OnOk result (list_encode_fault V115 self.new.pages.items ≡ None) }
        ensures keys { has_keys keys.new ≡ has_keys keys.old }
    {
        self.pages.clear();
        let mut well = problem.well;
        let mut cells = grey_cells(&well);
        let mut colour = true;
        let is_srs = keys.are_srs(&problem.rules);
        for placement in placements {
            let word = keys.word_of(&well, &problem.rules, is_srs, placement, problem.drop_mode);
            cells = self.push_page(alloc, &cells, colour, placement, &word)?;
            well = well.lock(placement).0;
            colour = false;
        }
        Ok(())
    }

    /// Appends the page of a placement. Returns the cells that the page leaves.
    fn push_page(
        &mut self,
        alloc: Global,
        cells: &[u8; 240],
        colour: bool,
        placement: &Placement,
        word: &Option<KeyWord>,
    ) -> Result<[u8; 240], NoMemory>
        requires cells { AreCells V115 cells.now }
        requires inside { IsTrue (is_inside_of placement.now) }
        ensures pushed { OnOk result (self.new.pages.items ≡ self.old.pages.items
            ++ placing_page cells.now colour placement.now (option_map (λ word. word.items) word.now) ∷ []) }
        ensures left { IfOk result (λ left. left ≡ next V115
            (placing_page cells.now colour placement.now (option_map (λ word. word.items) word.now))) }
        ensures sound { IfOk result (λ left. AreCells V115 left) }
    {
        let page = placing_page(alloc, *cells, colour, placement, word)?;
        let left = next_cells(Dialect::V115, &page);
        self.pages.push(page)?;
        Ok(left)
    }
}

/// A page on which a placement locks. If there are keys, they are its comment.
fn placing_page(
    alloc: Global,
    cells: [u8; 240],
    colour: bool,
    placement: &Placement,
    word: &Option<KeyWord>,
) -> Result<Page, NoMemory>
    ensures { IfOk result (λ page. page ≡ placing_page cells colour placement.now
        (option_map (λ word. word.items) word.now)) }
{
    let comment = match word {
        Some(word) => Some(keys_comment(alloc, word)?),
        None => None,
    };
    Ok(Page {
        cells,
        operation: Some(*placement),
        rise: false,
        mirror: false,
        colour,
        lock: true,
        comment,
    })
}

/// The letters of the keys, and `H` for the hard drop at the end.
fn keys_comment(alloc: Global, word: &KeyWord) -> Result<Comment, NoMemory>
    ensures { IfOk result (λ comment. comment ≡ word_letters word.now.items) }
{
    let mut units = Vec::with_capacity(alloc, word.len() + 1)?;
    for key in word.as_slice() {
        units.push(u16::from(key.letter()))?;
    }
    units.push(u16::from(b'H'))?;
    Ok(Comment::from_units(units))
}

/// The text of pages without a fault, and a newline.
fn text_of(alloc: Global, pages: &[Page]) -> Result<Vec<u8>, NoMemory>
    requires { list_encode_fault V115 pages.now ≡ None }
    ensures { IfOk result (λ text. text.items ≡ written V115 pages.now ++ 10 ∷ []) }
{
    let mut text = match encode(alloc, Dialect::V115, pages) {
        Ok(text) => text,
        Err(Refused::NoMemory) => return Err(NoMemory),
        Err(Refused::Fault(_)) => unreachable!(),
    };
    text.push(b'\n')?;
    Ok(text)
}

/// Writes a sequence that solves the problem as a fumen text with one page for each placement, and a newline. The first
/// page has the well's cells in grey and the colour flag. Each later page has the cells that the page before it leaves.
/// Each page has its placement as the operation, and locks. If keys are written, its comment is the key word of the
/// placement in the field before it, and `H`. If memory runs out, nothing was written.
pub fn write_fumen_line<O: Sink>(
    alloc: Global,
    out: &mut O,
    problem: &Problem,
    sequence: &Sequence,
    keys: &mut WrittenKeys,
) -> Result<(), WriteFault>
    requires { PlaysIn problem.now sequence.now.items }
    ensures written { WritesAll (O.written out.old) (O.written out.new) result
        (fumen_form (key_part (has_keys keys.old) (table_of problem.now.rules) problem.now.drop_mode)
        (filled problem.now.well) sequence.now.items) }
    ensures untouched { result ≡ Err WriteFault.NoMemory → out.new ≡ out.old }
    ensures cause { HasWriteCause O.counts_failures_alone (O.faults out.old) (O.faults out.new) result }
    ensures keys { has_keys keys.new ≡ has_keys keys.old }
{
    let mut writer = FumenWriter::new(alloc)?;
    writer.write_line(alloc, out, problem, sequence, keys)
}
