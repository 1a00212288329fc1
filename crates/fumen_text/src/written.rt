// Pages as a fumen text.
ghost use Rattle.std.specs.Prelude.{◌≡◌, ◌<◌, ◌++◌, min, All, IfOk, OnOk, Err, Some};
ghost use Rattle.fumen_digits.specs.declared.dialect.Dialect.{Dialect};
ghost use Rattle.fumen_pages.specs.declared.page.Page.{Page};
ghost use Rattle.fumen_pages.specs.Cells.{AreCells};
ghost use Rattle.fumen_pages.specs.Next.{next};
ghost use Rattle.fumen_pages.specs.declared.encode_fault.EncodeFault.{EncodeFault};
ghost use Rattle.pc_outside.specs.declared.answers.Refused.{Refused};
ghost use Rattle.fumen_text.specs.Texts.{ReadsAs, empty_page};
ghost use Rattle.fumen_text.specs.Written.{IsFoundFirst, IsRefusedBy, IsWritable, cells_digits, keeps, list_encode_fault, pages_digits, promised_behind, tail_digits, unchanged_pages, written};

use crate::checks::check_pages;
use fumen_comment::{escape, write_comment};
use fumen_digits::{Dialect, break_lines, push_number};
use fumen_pages::{EncodeFault, Page, action_number, next_cells, write_cells};
use pc_outside::{NoMemory, Refused};
use std::alloc::Global;

/// The fumen text of some pages, in a dialect.
///
/// A page that keeps the cells left before it is written as the run `vh` or `7e` and a digit that promises up to 63
/// unchanged pages behind it. Promised pages have no record. The record of any other page has the longest runs. Without
/// an operation, rotation and place are written as 0. A comment is escaped and filled up with 0.
///
/// More than 10,000 pages are refused first. Then, page by page, these are refused: a cell above 8, a cell in a row
/// that the dialect doesn't have, an operation with a cell outside, and an escaped comment of more than 4,095
/// characters.
#[tactic(auto, using(crate::proofs::WrittenIsRead::text_reads))]
pub fn encode(
    alloc: Global,
    dialect: Dialect,
    pages: &[Page],
) -> Result<Vec<u8>, Refused<EncodeFault>>
    // A refusal is the first fault, and pages with a fault are refused, unless memory runs out.
    ensures fault { IsRefusedBy result (list_encode_fault dialect pages.now) }

    // It is the text that is written for these pages, and it reads as them.
    ensures text { IfOk result (λ text. text.items ≡ written dialect pages.now) }
    ensures reads { IfOk result (λ text. ReadsAs text.items dialect pages.now) }

    // Memory cannot run out before a fault that is found without escaping a comment.
    ensures memory { result ≡ Err Refused.NoMemory → (f : EncodeFault) →
        list_encode_fault dialect pages.now ≡ Some f → IsFoundFirst pages.now f → ⊥ }
{
    check_pages(alloc, dialect, pages)?;
    let digits = write_pages(alloc, dialect, pages)?;
    let text = break_lines(alloc, dialect, &digits)?;
    Ok(text)
}

/// The digits of all pages.
#[tactic(auto, using(crate::proofs::WriteLoop::write_ends))]
fn write_pages(alloc: Global, dialect: Dialect, pages: &[Page]) -> Result<Vec<u8>, NoMemory>
    requires { All (IsWritable dialect) pages.now }
    ensures { IfOk result (λ digits. digits.items ≡ pages_digits dialect empty_page 0 pages.now) }
{
    let mut digits = Vec::new(alloc);
    let mut before = [0; 240];
    let mut promised = 0;
    for i in 0..pages.len() {
        let page = &pages[i];
        promised = push_cells(
            &mut digits,
            dialect,
            &before,
            promised,
            page,
            &pages[i + 1..],
        )?;
        push_tail(alloc, &mut digits, dialect, page)?;
        before = next_cells(dialect, page);
    }
    Ok(digits)
}

/// Appends what comes before the tail of a page. Returns how many pages are promised behind it.
#[tactic(auto, using(crate::proofs::WriteLoop::pushed_unchanged), unfolding(crate::specs::Written::promised_behind, crate::specs::Written::cells_digits))]
fn push_cells(
    digits: &mut Vec<u8>,
    dialect: Dialect,
    before: &[u8; 240],
    promised: u32,
    page: &Page,
    rest: &[Page],
) -> Result<u32, NoMemory>
    requires before { AreCells dialect before.now }
    requires page { IsWritable dialect page.now }
    requires rest { All (IsWritable dialect) rest.now }
    ensures after { IfOk result (λ after. after ≡ promised_behind dialect before.now promised page.now rest.now) }
    ensures digits { IfOk result (λ after. digits.new.items
        ≡ digits.old.items ++ cells_digits dialect before.now promised page.now after) }
{
    if promised > 0 {
        return Ok(promised - 1);
    }
    write_cells(digits, dialect, before, &page.cells)?;
    if !keeps(before, page) {
        return Ok(0);
    }
    let after = unchanged_pages(dialect, page, rest);
    push_number(digits, after, 1)?;
    Ok(after)
}

/// Whether a page has the cells that are left before it.
fn keeps(before: &[u8; 240], page: &Page) -> bool
    ensures { result ≡ keeps before.now page.now }
{
    page.cells == *before
}

/// How many pages directly behind a page are unchanged, at most 63.
#[tactic(auto, using(crate::proofs::WriteLoop::unchanged_stops, crate::proofs::WriteLoop::unchanged_more, crate::proofs::WriteLoop::unchanged_ends))]
fn unchanged_pages(dialect: Dialect, page: &Page, rest: &[Page]) -> u32
    requires page { IsWritable dialect page.now }
    requires rest { All (IsWritable dialect) rest.now }
    ensures value { result ≡ min 63 (unchanged_pages dialect (next dialect page.now) rest.now) }
    ensures small { result < 64 }
{
    let mut count = 0;
    let mut before = next_cells(dialect, page);
    for page in rest {
        if count == 63 {
            return count;
        }
        if !keeps(&before, page) {
            return count;
        }
        count += 1;
        before = next_cells(dialect, page);
    }
    count
}

/// Appends the action and the comment of a page.
fn push_tail(
    alloc: Global,
    digits: &mut Vec<u8>,
    dialect: Dialect,
    page: &Page,
) -> Result<(), NoMemory>
    requires { IsWritable dialect page.now }
    ensures { OnOk result (digits.new.items ≡ digits.old.items ++ tail_digits dialect page.now) }
{
    push_number(digits, action_number(dialect, page), 3)?;
    if let Some(comment) = &page.comment {
        let text = escape(alloc, comment.units())?;
        write_comment(digits, &text)?;
    }
    Ok(())
}
