// Pages one after the other, while digits are left or pages are promised.
ghost use Rattle.std.specs.Prelude.{◌≡◌, ◌+◌, ◌≤◌, length, IfOk};
ghost use Rattle.fumen_digits.specs.ReadResults.{Gives};
ghost use Rattle.fumen_pages.specs.Cells.{AreCells};
ghost use Rattle.fumen_text.specs.Reading.{is_due, pages_of_digits, next_page_at};

use crate::cells::cells_at;
use crate::page_reader::PageReader;
use fumen_digits::{Dialect, FumenFault};
use fumen_pages::{MOST_PAGES, Page, next_cells, read_page};
use pc_outside::Refused;
use std::alloc::Global;

/// All pages of some digits.
pub(crate) fn read_pages(
    alloc: Global,
    dialect: Dialect,
    digits: &[u8],
) -> Result<Vec<Page>, Refused<FumenFault>>
    ensures { Gives (λ pages. pages.items) (λ f. f) result (pages_of_digits dialect digits.now) }
{
    let mut pages = Vec::new(alloc);
    let mut at = PageReader {
        place: 0,
        cells: [0; 240],
        promised: 0,
    };
    while is_due(digits, &at) {
        let count = pages.len();
        if count == MOST_PAGES {
            return Err(Refused::Fault(FumenFault::TooManyPages));
        }
        let (page, behind) = step_at(alloc, digits, dialect, &at, count as u32 + 1)?;
        pages.push(page)?;
        at = behind;
    }
    Ok(pages)
}

/// Whether another page is due: digits are left, or a page is promised.
fn is_due(digits: &[u8], at: &PageReader) -> bool
    ensures { result ≡ is_due digits.now at.now.place at.now.promised }
{
    at.place < digits.len() || at.promised > 0
}

/// The next page, counted from 1, and where the reader stands behind it.
#[tactic(auto, unfolding(crate::specs::Reading::next_page_at))]
fn step_at(
    alloc: Global,
    digits: &[u8],
    dialect: Dialect,
    at: &PageReader,
    number: u32,
) -> Result<(Page, PageReader), Refused<FumenFault>>
    requires place { at.now.place ≤ length digits.now }
    requires cells { AreCells dialect at.now.cells }
    ensures exact { Gives (λ x. x) (λ f. f) result
        (next_page_at dialect digits.now number at.now.place at.now.cells at.now.promised) }
    ensures within { IfOk result (λ x. x.1.place ≤ length digits.now) }
    ensures sound { IfOk result (λ x. AreCells dialect x.1.cells) }
{
    let tail = cells_at(digits, dialect, at)?;
    let (page, place) = read_page(alloc, digits, tail.place, dialect, &tail.cells, number)?;
    let cells = next_cells(dialect, &page);
    let promised = tail.promised;
    Ok((
        page,
        PageReader {
            place,
            cells,
            promised,
        },
    ))
}
