// The cells of a page: the promised ones or those of a record, and the digit behind the unchanged run.
ghost use Rattle.std.specs.Prelude.{◌≡◌, ◌+◌, ◌≤◌, length, IfOk};
ghost use Rattle.fumen_digits.specs.ReadResults.{Gives};
ghost use Rattle.fumen_pages.specs.Cells.{AreCells};
ghost use Rattle.fumen_pages.specs.Reading.{record_at};
ghost use Rattle.fumen_text.specs.Reading.{page_cells_at, promise_at};

use crate::page_reader::PageReader;
use fumen_digits::{Dialect, FumenFault, number_at};
use fumen_pages::{CellsRead, read_cells};
use pc_outside::Refused;

/// Goes behind what spells the cells of the next page. If that page is promised to be unchanged, they are the cells
/// before it; otherwise they are those of its record.
#[tactic(auto, using(crate::proofs::ReadLoop::cells_promised, std::proofs::lemmas::Result::err_from_is_err_and, crate::proofs::ReadLoop::cells_refused, fumen_digits::proofs::CallerLemmas::gives_same, crate::proofs::ReadLoop::cells_recorded))]
pub(crate) fn cells_at(
    digits: &[u8],
    dialect: Dialect,
    at: &PageReader,
) -> Result<PageReader, Refused<FumenFault>>
    requires place { at.now.place ≤ length digits.now }
    requires cells { AreCells dialect at.now.cells }
    ensures exact { Gives (λ x. x) (λ f. f) result
        (page_cells_at dialect digits.now at.now.place at.now.cells at.now.promised) }
    ensures within { IfOk result (λ x. x.place ≤ length digits.now) }
    ensures sound { IfOk result (λ x. AreCells dialect x.cells) }
{
    if at.promised > 0 {
        return Ok(PageReader {
            place: at.place,
            cells: at.cells,
            promised: at.promised - 1,
        });
    }
    let read = record_at(digits, at.place, dialect, &at.cells)?;
    promise_at(digits, &read)
}

/// Goes behind a record. The digit after the unchanged run says how many pages are promised to be unchanged.
fn promise_at(digits: &[u8], read: &CellsRead) -> Result<PageReader, Refused<FumenFault>>
    requires { read.now.place ≤ length digits.now }
    ensures exact { Gives (λ x. x) (λ f. f) result (promise_at digits.now read.now) }
    ensures within { IfOk result (λ x. x.place ≤ length digits.now) }
    ensures cells { IfOk result (λ x. x.cells ≡ read.now.cells) }
{
    if !read.unchanged {
        return Ok(PageReader {
            place: read.place,
            cells: read.cells,
            promised: 0,
        });
    }
    let promised = number_at(digits, read.place, 1)?;
    Ok(PageReader {
        place: read.place + 1,
        cells: read.cells,
        promised,
    })
}

/// The record at a place.
fn record_at(
    digits: &[u8],
    place: usize,
    dialect: Dialect,
    old: &[u8; 240],
) -> Result<CellsRead, Refused<FumenFault>>
    requires place { place ≤ length digits.now }
    requires old { AreCells dialect old.now }
    ensures exact { Gives (λ read. read) (λ f. f) result (record_at dialect digits.now place old.now) }
    ensures within { IfOk result (λ read. read.place ≤ length digits.now) }
    ensures sound { IfOk result (λ read. AreCells dialect read.cells) }
{
    match read_cells(digits, place, dialect, old) {
        Ok(read) => Ok(read),
        Err(fault) => Err(Refused::Fault(FumenFault::from(fault))),
    }
}
