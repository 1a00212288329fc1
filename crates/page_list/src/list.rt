// Lists of pages, one line for each page.
ghost use Rattle.std.specs.Prelude.{◌≡◌, ◌≢◌, ◌<◌, ◌≤◌, [], IsOk, IfOk, List, Ok, Err};
ghost use Rattle.fumen_pages.specs.declared.page.Page.{Page};
ghost use Rattle.fumen_pages.specs.declared.list_fault.ListFault.{ListFault};
ghost use Rattle.fumen_pages.specs.Lists.{most_pages};
ghost use Rattle.page_list.specs.LineSpelling.{IsListFault, SpellsPages};
ghost use Rattle.page_list.specs.ListReading.{HasFirstPage, first_line, numbered_page, pages_in, without_return};
ghost use Rattle.fumen_digits.specs.ReadResults.{Gives};
ghost use Rattle.pc_outside.specs.declared.answers.Refused.{Refused};

use crate::cells::cut_at;
use crate::reading::read_line;
use fumen_pages::{ListFault, ListKind, MOST_PAGES, Page};
use pc_outside::Refused;
use std::alloc::Global;

/// A line without a `\r` at its end.
#[tactic(auto, unfolding(crate::specs::ListReading::without_return))]
fn without_return(line: &[u8]) -> &[u8]
    ensures { result.now ≡ without_return line.now }
{
    if !line.is_empty() && line[line.len() - 1] == b'\r' {
        &line[..line.len() - 1]
    } else {
        line
    }
}

/// The first line without its end, and the text behind it. A line ends with a newline, with `\r` and a newline, or at
/// the end of the text.
#[tactic(auto, unfolding(crate::specs::ListReading::first_line))]
pub fn first_line(text: &[u8]) -> (&[u8], &[u8])
    ensures { first_line text.now ≡ (result.0.now, result.1.now) }
{
    match cut_at(b'\n', text) {
        Some((line, behind)) => (without_return(line), behind),
        None => (text, &[]),
    }
}

/// The page that the line with this number spells. Lines are counted from 1.
#[tactic(auto, unfolding(crate::specs::ListReading::numbered_page))]
fn page_at(alloc: Global, number: u32, line: &[u8]) -> Result<Page, Refused<ListFault>>
    ensures exact { Gives (λ page. page) (λ fault. fault) result (numbered_page number line.now) }
    ensures few { IfOk result (λ _. number ≤ most_pages) }
    ensures memory { result ≡ Err Refused.NoMemory → IsOk (numbered_page number line.now) }
{
    if number as usize > MOST_PAGES {
        return Err(Refused::Fault(ListFault {
            line: number,
            kind: ListKind::TooManyPages,
        }));
    }
    match read_line(alloc, line) {
        Ok(page) => Ok(page),
        Err(Refused::Fault(kind)) => Err(Refused::Fault(ListFault { line: number, kind })),
        Err(Refused::NoMemory) => Err(Refused::NoMemory),
    }
}

/// The pages of a text with one line for each, as `print_page` writes them, or the fault of the first line that has
/// one.
///
/// A newline ends each line; the last one needs none. One `\r` directly before a newline is dropped. Empty rows at the
/// top, up to 23 rows in all, and an empty garbage row may be written out.
pub fn parse(alloc: Global, text: &[u8]) -> Result<Vec<Page>, Refused<ListFault>>
    // The result of reading line by line.
    ensures exact { Gives (λ pages. pages.items) (λ fault. fault) result (pages_in text.now) }

    // The text spells the returned pages, and the pages that it spells are returned, unless memory runs out.
    ensures found { IfOk result (λ pages. SpellsPages text.now pages.items) }
    ensures only { (pages : List Page) → SpellsPages text.now pages →
        Gives (λ pages. pages.items) (λ fault. fault) result (Ok pages) }

    // The same for the fault.
    ensures fault { (f : ListFault) → result ≡ Err (Refused.Fault f) → IsListFault text.now f }
    ensures fault_only { (f : ListFault) → IsListFault text.now f →
        Gives (λ pages. pages.items) (λ fault. fault) result (Err f) }

    // Memory cannot run out for an empty text, nor before a fault of the first line is found.
    ensures memory { result ≡ Err Refused.NoMemory →
        (text.now ≢ []) × ((f : ListFault) → IsListFault text.now f → 1 < f.line) }
{
    read_pages(alloc, text)
}

/// The pages of the lines, one after the other.
fn read_pages(alloc: Global, text: &[u8]) -> Result<Vec<Page>, Refused<ListFault>>
    ensures exact { Gives (λ pages. pages.items) (λ fault. fault) result (pages_in text.now) }
    ensures memory { result ≡ Err Refused.NoMemory → HasFirstPage text.now }
{
    let mut pages = Vec::new(alloc);
    let mut rest = text;
    while !rest.is_empty() {
        let (line, behind) = first_line(rest);
        let page = page_at(alloc, pages.len() as u32 + 1, line)?;
        pages.push(page)?;
        rest = behind;
    }
    Ok(pages)
}
