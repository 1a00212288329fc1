// One page of a list of pages, and its field.
ghost use Rattle.std.specs.Prelude.{◌≡◌, ◌-◌, ◌≤◌, length, slice_get, Some, None, IfOk, IfErr, OnOk};
ghost use Rattle.fumen_pages.specs.Lists.{most_pages};
ghost use Rattle.well.specs.Well.{filled};
ghost use Rattle.pc_source.specs.Faults.{page_fault};
ghost use Rattle.pc_source.specs.FieldText.{page_cells};

use fumen_pages::Page;
use pc_faults::Fault;
use well::Well;

/// The page with this number, counted from 1. The list has at most 10,000 pages. A refusal says that there is no such
/// page.
pub fn page_at(pages: &[Page], asked: u32) -> Result<&Page, Fault>
    requires few { length pages.now ≤ most_pages }
    requires asked { 1 ≤ asked }
    ensures page { IfOk result (λ page. slice_get pages.entry.now (asked - 1) ≡ Some page.now) }
    ensures none { OnOk result (page_fault (Some asked) pages.entry.now ≡ None) }
    ensures fault { IfErr result (λ fault. page_fault (Some asked) pages.entry.now ≡ Some fault) }
{
    let there = pages.len() as u32;
    if there < asked {
        return Err(Fault::NoPage { asked, there });
    }
    Ok(&pages[asked as usize - 1])
}

/// The field of a page: the cells of rows 0 to 22 that are not empty, whatever their colour. The garbage row is not
/// part of it.
pub fn field_of(page: &Page) -> Well
    ensures { filled result ≡ page_cells page.now }
{
    let mut well = Well::empty();
    for index in 0..230 {
        let cell = page.cells[index];
        if cell != 0 {
            well = well.with((index % 10) as u8, (22 - index / 10) as u8);
        }
    }
    well
}
