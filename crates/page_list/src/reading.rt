// Reading a line.
ghost use Rattle.std.specs.Prelude.{◌≡◌, ◌==◌, not, None, Some, MatchOption, Err, IsOk};
ghost use Rattle.std.specs.List.{list_all};
ghost use Rattle.page_list.specs.LineReading.{divided, four_in, is_field, line_in};
ghost use Rattle.fumen_digits.specs.ReadResults.{Gives};
ghost use Rattle.pc_outside.specs.declared.answers.Refused.{Refused};

use crate::cells::{cells_in, cut_at};
use crate::fields::{comment_in, flags_in, operation_in};
use fumen_pages::{ListKind, Page};
use pc_outside::Refused;
use std::alloc::Global;

/// The four fields of a line.
#[derive(Clone, Copy)]
struct Four<'a> {
    cells: &'a [u8],
    operation: &'a [u8],
    flags: &'a [u8],
    comment: &'a [u8],
}

fn is_blank_free(text: &[u8]) -> bool
    ensures { result ≡ list_all (λ byte. not (byte == 32)) text.now }
{
    text.iter().all(|byte| *byte != b' ')
}

fn is_field(text: &[u8]) -> bool
    ensures { result ≡ is_field text.now }
{
    !text.is_empty() && is_blank_free(text)
}

/// The fields that the first three blanks separate.
fn divided(line: &[u8]) -> Option<Four<'_>>
    ensures { MatchOption result (divided line.now ≡ None)
        (λ four. divided line.now ≡ Some (record {
          cells = four.cells.now;
          operation = four.operation.now;
          flags = four.flags.now;
          comment = four.comment.now;
        })) }
{
    let (cells, behind) = cut_at(b' ', line)?;
    let (operation, behind) = cut_at(b' ', behind)?;
    let (flags, comment) = cut_at(b' ', behind)?;
    Some(Four {
        cells,
        operation,
        flags,
        comment,
    })
}

/// Exactly four fields, separated by single blanks.
#[tactic(auto, unfolding(crate::specs::LineReading::four_in))]
fn four_in(line: &[u8]) -> Option<Four<'_>>
    ensures { MatchOption result (four_in line.now ≡ None)
        (λ four. four_in line.now ≡ Some (record {
          cells = four.cells.now;
          operation = four.operation.now;
          flags = four.flags.now;
          comment = four.comment.now;
        })) }
{
    let four = divided(line)?;
    if is_field(four.cells)
        && is_field(four.operation)
        && is_field(four.flags)
        && is_field(four.comment)
    {
        Some(four)
    } else {
        None
    }
}

/// The page that a line without its newline spells, or the line's first fault.
#[tactic(auto, unfolding(crate::specs::LineReading::line_in))]
pub(crate) fn read_line(alloc: Global, line: &[u8]) -> Result<Page, Refused<ListKind>>
    ensures exact { Gives (λ page. page) (λ fault. fault) result (line_in line.now) }
    ensures memory { result ≡ Err Refused.NoMemory → IsOk (line_in line.now) }
{
    let Some(four) = four_in(line) else {
        return Err(Refused::Fault(ListKind::BadLine));
    };
    let Some(cells) = cells_in(four.cells) else {
        return Err(Refused::Fault(ListKind::BadCells));
    };
    let Some(operation) = operation_in(four.operation) else {
        return Err(Refused::Fault(ListKind::BadOperation));
    };
    let Some(flags) = flags_in(four.flags) else {
        return Err(Refused::Fault(ListKind::BadFlags));
    };
    let comment = comment_in(alloc, four.comment)?;
    Ok(Page {
        cells,
        operation,
        rise: flags.rise,
        mirror: flags.mirror,
        colour: flags.colour,
        lock: flags.lock,
        comment,
    })
}
