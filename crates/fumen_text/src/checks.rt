// The first fault of pages that are to be written.
ghost use Rattle.std.specs.Prelude.{◌≡◌, ◌+◌, ◌^◌, ◌<◌, ◌≤◌, length, nat_le, All, OnOk, IsOk, IfOk, ◌==◌, true, Err, Some};
ghost use Rattle.std.specs.List.{list_all};
ghost use Rattle.std.specs.Option.{ForSome, option_map_or};
ghost use Rattle.fumen_comment.specs.Escape.{escaped, HasUnits};
ghost use Rattle.fumen_pages.specs.Action.{is_inside_in};
ghost use Rattle.fumen_pages.specs.declared.encode_fault.EncodeFault.{EncodeFault};
ghost use Rattle.pc_outside.specs.declared.answers.Refused.{Refused};
ghost use Rattle.fumen_text.specs.Checking.{IsMeasured};
ghost use Rattle.fumen_text.specs.Written.{IsFoundFirst, IsRefusedBy, HasTypes, IsWritable, is_short, list_encode_fault, page_encode_fault};

use fumen_comment::{Comment, escape};
use fumen_digits::Dialect;
use fumen_pages::{EncodeFault, MOST_PAGES, Page, is_inside};
use pc_outside::{NoMemory, Refused};
use srs::Placement;
use std::alloc::Global;

/// Checks whether the pages can be written. The fault is the first one.
pub(crate) fn check_pages(
    alloc: Global,
    dialect: Dialect,
    pages: &[Page],
) -> Result<(), Refused<EncodeFault>>
    ensures fault { IsRefusedBy result (list_encode_fault dialect pages.now) }
    ensures fit { OnOk result (All (IsWritable dialect) pages.now) }
    ensures memory { result ≡ Err Refused.NoMemory → (f : EncodeFault) →
        list_encode_fault dialect pages.now ≡ Some f → IsFoundFirst pages.now f → ⊥ }
{
    if pages.len() > MOST_PAGES {
        return Err(Refused::Fault(EncodeFault::TooManyPages));
    }
    for i in 0..pages.len() {
        check_page(alloc, dialect, i as u32 + 1, &pages[i])?;
    }
    Ok(())
}

/// Checks whether a page, counted from 1, can be written. The fault is its first one.
fn check_page(
    alloc: Global,
    dialect: Dialect,
    number: u32,
    page: &Page,
) -> Result<(), Refused<EncodeFault>>
    ensures fault { IsRefusedBy result (page_encode_fault dialect number page.now) }
    ensures fit { OnOk result (IsWritable dialect page.now) }
    ensures memory { result ≡ Err Refused.NoMemory → IsMeasured dialect number page.now }
{
    check_parts(alloc, dialect, number, page)
}

#[tactic(auto, unfolding(crate::specs::Written::page_encode_fault))]
fn check_parts(
    alloc: Global,
    dialect: Dialect,
    number: u32,
    page: &Page,
) -> Result<(), Refused<EncodeFault>>
    ensures fault { IsRefusedBy result (page_encode_fault dialect number page.now) }
    ensures types { OnOk result (HasTypes page.now) }
    ensures memory { result ≡ Err Refused.NoMemory → IsMeasured dialect number page.now }
{
    if !are_colours(&page.cells) {
        return Err(Refused::Fault(EncodeFault::BadCell { page: number }));
    }
    let missing = 240 - dialect.cells() as usize;
    if !are_empty(&page.cells[..missing]) {
        return Err(Refused::Fault(EncodeFault::RowTooHigh { page: number }));
    }
    if !is_placed(dialect, &page.operation) {
        return Err(Refused::Fault(EncodeFault::PieceOutside { page: number }));
    }
    if !is_short(alloc, &page.comment)? {
        return Err(Refused::Fault(EncodeFault::CommentTooLong { page: number }));
    }
    Ok(())
}

fn are_colours(cells: &[u8]) -> bool
    ensures { result ≡ list_all (λ cell. nat_le cell 8) cells.now }
{
    cells.iter().all(|cell| *cell <= 8)
}

fn are_empty(cells: &[u8]) -> bool
    ensures { result ≡ list_all (λ cell. cell == 0) cells.now }
{
    cells.iter().all(|cell| *cell == 0)
}

/// Whether the operation, if there is one, lies in the dialect's rows.
fn is_placed(dialect: Dialect, operation: &Option<Placement>) -> bool
    ensures { result ≡ option_map_or (is_inside_in dialect) operation.now true }
{
    match operation {
        Some(placement) => is_inside(dialect, placement),
        None => true,
    }
}

/// Whether the escaped comment, if there is one, has at most 4,095 characters.
fn is_short(alloc: Global, comment: &Option<Comment>) -> Result<bool, NoMemory>
    ensures short { IfOk result (λ short. short ≡ is_short comment.now) }
    ensures units { OnOk result (HasUnits comment.now) }
    ensures few { ForSome comment.now (λ units. length units ≤ 682) → IsOk result }
{
    match comment {
        Some(comment) => has_short_text(alloc, comment.units()),
        None => Ok(true),
    }
}

/// Whether the escaped text of these units has at most 4,095 characters.
#[tactic(auto, using(crate::proofs::WrittenIsRead::short_escaped))]
fn has_short_text(alloc: Global, units: &[u16]) -> Result<bool, NoMemory>
    ensures short { IfOk result (λ short. short ≡ nat_le (length (escaped units.now)) 4095) }
    ensures units { All (λ unit. unit < 2 ^ 16) units.now }
    ensures few { length units.now ≤ 682 → IsOk result }
{
    // Escaping makes at most six characters of a unit.
    if units.len() <= 4095 / 6 {
        return Ok(true);
    }
    let text = escape(alloc, units)?;
    Ok(text.len() <= 4095)
}
