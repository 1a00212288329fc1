// A page as `show` writes it.
ghost use Rattle.std.specs.Prelude.{◌≡◌, ◌*◌, ◌<◌, take, drop, All, IsTrue};
ghost use Rattle.std.specs.List.{flat_map};
ghost use Rattle.std.specs.Option.{ForSome};
ghost use Rattle.pc_outside.specs.Counts.{HasCause};
ghost use Rattle.pc_outside.specs.Writes.{WritesAll};
ghost use Rattle.srs.specs.Cells.{is_inside_of};
ghost use Rattle.fumen_pages.specs.Cells.{IsColour};
ghost use Rattle.fumen_pages.specs.Letters.{letters_of, shown_rows};
ghost use Rattle.page_show.specs.Page.{row_line, rows_lines, shown_page, with_operation};

use fumen_pages::{Page, first_shown, letters_of, mark, row};
use line_writing::write_count;
use pc_outside::{Failed, Sink, write_pieces};

/// Writes a page: a line `page 1` with its number, then its rows from the highest one with a coloured cell or a cell of
/// the operation down to row 0, then the garbage row, each with a newline. A cell of the operation is the piece's small
/// letter. Any other cell is the letter of its colour.
#[tactic(auto, unfolding(crate::specs::Page::shown_page))]
pub fn show_page<O: Sink>(out: &mut O, number: u32, page: &Page) -> Result<(), Failed>
    requires colours { All IsColour page.now.cells }
    requires inside { ForSome page.now.operation (λ placement. IsTrue (is_inside_of placement)) }
    ensures written { WritesAll (O.written out.old) (O.written out.new) result (shown_page number page.now) }
    ensures cause { HasCause O.counts_failures_alone (O.faults out.old) (O.faults out.new) result }
{
    write_count(out, b"page ", u64::from(number))?;
    write_rows(out, &shown_letters(page))
}

/// The letters of a page's cells, and of its operation's cells.
fn shown_letters(page: &Page) -> [u8; 240]
    requires colours { All IsColour page.now.cells }
    requires inside { ForSome page.now.operation (λ placement. IsTrue (is_inside_of placement)) }
    ensures { result ≡ with_operation page.now.operation (letters_of page.now.cells) }
{
    let mut letters = letters_of(&page.cells);
    if let Some(placement) = &page.operation {
        mark(&mut letters, placement, placement.piece.letter() + 32);
    }
    letters
}

/// Writes the rows from the highest one that isn't blank down to row 0, and the garbage row.
fn write_rows<O: Sink>(out: &mut O, letters: &[u8; 240]) -> Result<(), Failed>
    ensures written { WritesAll (O.written out.old) (O.written out.new) result (rows_lines letters.now) }
    ensures cause { HasCause O.counts_failures_alone (O.faults out.old) (O.faults out.new) result }
{
    write_shown(out, letters)?;
    write_row(out, letters, 23)
}

/// Writes the rows from the highest one that isn't blank down to row 0.
fn write_shown<O: Sink>(out: &mut O, letters: &[u8; 240]) -> Result<(), Failed>
    ensures written { WritesAll (O.written out.old) (O.written out.new) result
        (flat_map row_line (shown_rows letters.now)) }
    ensures cause { HasCause O.counts_failures_alone (O.faults out.old) (O.faults out.new) result }
{
    for index in first_shown(letters)..23 {
        write_row(out, letters, index)?;
    }
    Ok(())
}

fn write_row<O: Sink>(out: &mut O, letters: &[u8; 240], index: usize) -> Result<(), Failed>
    requires { index < 24 }
    ensures written { WritesAll (O.written out.old) (O.written out.new) result
        (row_line (take 10 (drop (10 * index) letters.now))) }
    ensures cause { HasCause O.counts_failures_alone (O.faults out.old) (O.faults out.new) result }
{
    write_pieces(out, &[row(letters, index), b"\n"])
}
