// The line of a page.
ghost use Rattle.std.specs.Prelude.{◌≡◌, ◌++◌, ◌<◌, All, IfOk, OnOk};
ghost use Rattle.std.specs.List.{join_with_byte};
ghost use Rattle.fumen_pages.specs.Cells.{IsColour};
ghost use Rattle.fumen_pages.specs.Letters.{shown_rows};
ghost use Rattle.page_list.specs.PrintedLine.{comment_form, divided_row, flag_form, flags_form, operation_form, page_form, rows_form};

use fumen_comment::escape;
use fumen_pages::{Page, first_shown, is_blank, letters_of, row};
use pc_outside::NoMemory;
use placement_form::placement_text;
use srs::Placement;
use std::alloc::Global;

/// The line of a page, with its newline: cells, operation, flags and comment, separated by blanks, as in
/// `____T_____/___TTT____| T0:4,0 --cl #hello`.
///
/// The cells are the rows from the highest one with a coloured cell down to row 0, separated by `/`, then a bar, then
/// the garbage row if it isn't empty. The operation and the comment are `-` if there is none. The flags are `r` for
/// rise, `m` for mirror, `c` for colour and `l` for lock. The comment is escaped as ECMAScript's `escape` does.
#[tactic(auto, unfolding(crate::specs::PrintedLine::page_form))]
pub fn print_page(alloc: Global, page: &Page) -> Result<Vec<u8>, NoMemory>
    requires { All IsColour page.now.cells }
    ensures { IfOk result (λ line. line.items ≡ page_form page.now) }
{
    let mut line = Vec::new(alloc);
    push_rows(&mut line, &letters_of(&page.cells))?;
    line.push(b' ')?;
    push_operation(&mut line, page.operation)?;
    line.push(b' ')?;
    line.extend_from_slice(&flags(page))?;
    line.push(b' ')?;
    push_comment(alloc, &mut line, page)?;
    line.push(b'\n')?;
    Ok(line)
}

/// Appends the rows, the bar, and the garbage row.
#[tactic(auto, unfolding(crate::specs::PrintedLine::rows_form))]
fn push_rows(line: &mut Vec<u8>, letters: &[u8; 240]) -> Result<(), NoMemory>
    ensures { OnOk result (line.new.items ≡ line.old.items ++ rows_form letters.now) }
{
    push_shown(line, letters)?;
    line.push(b'|')?;
    let garbage = row(letters, 23);
    if !is_blank(garbage) {
        line.extend_from_slice(garbage)?;
    }
    Ok(())
}

/// Appends the rows from the highest one that isn't blank down, separated by `/`.
#[tactic(auto, unfolding(fumen_pages::specs::Letters::shown_rows))]
fn push_shown(line: &mut Vec<u8>, letters: &[u8; 240]) -> Result<(), NoMemory>
    ensures { OnOk result (line.new.items ≡ line.old.items ++ join_with_byte 47 (shown_rows letters.now)) }
{
    for index in first_shown(letters)..23 {
        push_row(line, letters, index)?;
    }
    Ok(())
}

/// Appends a row, and a `/` if another row follows.
fn push_row(line: &mut Vec<u8>, letters: &[u8; 240], index: usize) -> Result<(), NoMemory>
    requires { index < 23 }
    ensures { OnOk result (line.new.items ≡ line.old.items ++ divided_row letters.now index) }
{
    line.extend_from_slice(row(letters, index))?;
    if index < 22 {
        line.push(b'/')?;
    }
    Ok(())
}

fn push_operation(line: &mut Vec<u8>, operation: Option<Placement>) -> Result<(), NoMemory>
    ensures { OnOk result (line.new.items ≡ line.old.items ++ operation_form operation) }
{
    match operation {
        Some(placement) => line.extend_from_slice(placement_text(&placement).as_slice())?,
        None => line.push(b'-')?,
    }
    Ok(())
}

/// The letter of a flag, or `-`.
fn flag(letter: u8, is_set: bool) -> u8
    ensures { result ≡ flag_form letter is_set }
{
    if is_set { letter } else { b'-' }
}

fn flags(page: &Page) -> [u8; 4]
    ensures { result ≡ flags_form page.now }
{
    [
        flag(b'r', page.rise),
        flag(b'm', page.mirror),
        flag(b'c', page.colour),
        flag(b'l', page.lock),
    ]
}

fn push_comment(alloc: Global, line: &mut Vec<u8>, page: &Page) -> Result<(), NoMemory>
    ensures { OnOk result (line.new.items ≡ line.old.items ++ comment_form page.now.comment) }
{
    match &page.comment {
        Some(comment) => {
            line.push(b'#')?;
            line.extend_from_slice(&escape(alloc, comment.units())?)?;
        }
        None => line.push(b'-')?,
    }
    Ok(())
}
