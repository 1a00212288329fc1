// What follows the cells of a page: its action and its comment.
ghost use Rattle.std.specs.Prelude.{◌≡◌, ◌≢◌, ℕ, ◌+◌, ◌≤◌, length, IfOk, Ok, Err, IsTrue};
ghost use Rattle.std.specs.Option.{ForSome};
ghost use Rattle.fumen_digits.specs.ReadResults.{Gives};
ghost use Rattle.fumen_comment.specs.Faults.{HasGroup};
ghost use Rattle.pc_outside.specs.declared.answers.Refused.{Refused};
ghost use Rattle.fumen_pages.specs.declared.page.Page.{Page};
ghost use Rattle.fumen_digits.specs.declared.fault.FumenFault.{FumenFault};
ghost use Rattle.fumen_pages.specs.Action.{is_inside_in};
ghost use Rattle.fumen_pages.specs.Reading.{action_at, page_at, part_at};
ghost use Rattle.fumen_pages.specs.Faults.{IsCommentDue, IsTailFault, TailStands};

use crate::action::{Action, ActionFault, read_action};
use crate::page::Page;
use fumen_comment::{Comment, read_comment};
use fumen_digits::{Dialect, FumenFault, number_at};
use pc_outside::Refused;
use std::alloc::Global;

/// Reads a page from its action on, given its cells and its number, counted from 1. Returns the page and the place
/// behind it.
///
/// A refusal is the first fault from the left.
pub fn read_page(
    alloc: Global,
    digits: &[u8],
    place: usize,
    dialect: Dialect,
    cells: &[u8; 240],
    number: u32,
) -> Result<(Page, usize), Refused<FumenFault>>
    requires { place ≤ length digits.now }

    // The result of reading from the left.
    ensures exact { Gives (λ x. x) (λ f. f) result (page_at dialect cells.now number digits.now place) }

    // The place behind it is among the digits, or at their end, and its operation lies inside.
    ensures within { IfOk result (λ x. x.1 ≤ length digits.now) }
    ensures inside { IfOk result (λ x. ForSome x.0.operation (λ placement. IsTrue (is_inside_in dialect placement))) }

    // The page has these cells and stands there, and a page that stands there is read, unless memory runs out.
    ensures cells { IfOk result (λ x. x.0.cells ≡ cells.now) }
    ensures found { IfOk result (λ x. TailStands dialect digits.now place x.0 x.1) }
    ensures only { (read : Page) (end : ℕ) → read.cells ≡ cells.now → TailStands dialect digits.now place read end →
        Gives (λ x. x) (λ f. f) result (Ok (read, end)) }

    // A fault is the first one there, and the first one there is returned, unless memory runs out.
    ensures fault { (f : FumenFault) → result ≡ Err (Refused.Fault f) →
        IsTailFault dialect number digits.now place f }
    ensures fault_only { (f : FumenFault) → IsTailFault dialect number digits.now place f →
        Gives (λ x. x) (λ f. f) result (Err f) }

    // Memory cannot run out for a page without a comment, nor before a fault up to the comment's first group is found.
    ensures memory { result ≡ Err Refused.NoMemory →
        IsCommentDue dialect digits.now place × HasGroup digits.now (place + 3) }
{
    read_tail(alloc, digits, place, dialect, cells, number)
}

#[tactic(auto, using(std::proofs::lemmas::Result::err_from_is_err_and, fumen_digits::proofs::CallerLemmas::err_passed, crate::proofs::PageReadAsSpelled::comment_due), unfolding(crate::specs::Reading::page_at))]
fn read_tail(
    alloc: Global,
    digits: &[u8],
    place: usize,
    dialect: Dialect,
    cells: &[u8; 240],
    number: u32,
) -> Result<(Page, usize), Refused<FumenFault>>
    requires { place ≤ length digits.now }
    ensures exact { Gives (λ x. x) (λ f. f) result (page_at dialect cells.now number digits.now place) }
    ensures memory { result ≡ Err Refused.NoMemory →
        IsCommentDue dialect digits.now place × HasGroup digits.now (place + 3) }
{
    let action = action_at(digits, place, dialect, number)?;
    let (comment, end) = part_at(alloc, digits, place + 3, action.comment)?;
    let page = Page {
        cells: *cells,
        operation: action.operation,
        rise: action.rise,
        mirror: action.mirror,
        colour: action.colour,
        lock: action.lock,
        comment,
    };
    Ok((page, end))
}

/// The action at a place, in a page counted from 1.
#[tactic(auto, unfolding(crate::specs::Reading::action_at))]
fn action_at(
    digits: &[u8],
    place: usize,
    dialect: Dialect,
    number: u32,
) -> Result<Action, Refused<FumenFault>>
    requires { place ≤ length digits.now }
    ensures exact { Gives (λ action. action) (λ f. f) result (action_at dialect number digits.now place) }
    ensures within { IfOk result (λ _. place + 3 ≤ length digits.now) }
    ensures memory { result ≢ Err Refused.NoMemory }
{
    let action_number = number_at(digits, place, 3)?;
    match read_action(dialect, action_number) {
        Ok(action) => Ok(action),
        Err(ActionFault::TooLarge) => Err(Refused::Fault(FumenFault::BadAction { place })),
        Err(ActionFault::Outside) => Err(Refused::Fault(FumenFault::PieceOutside { page: number })),
    }
}

/// The comment at a place, if there is one, and the place behind it.
#[tactic(auto, unfolding(crate::specs::Reading::part_at))]
fn part_at(
    alloc: Global,
    digits: &[u8],
    place: usize,
    has_comment: bool,
) -> Result<(Option<Comment>, usize), Refused<FumenFault>>
    requires { place ≤ length digits.now }
    ensures exact { Gives (λ x. x) (λ f. f) result (part_at has_comment digits.now place) }
    ensures memory { result ≡ Err Refused.NoMemory → IsTrue has_comment × HasGroup digits.now place }
{
    if !has_comment {
        return Ok((None, place));
    }
    match read_comment(alloc, digits, place) {
        Ok((comment, end)) => Ok((Some(comment), end)),
        Err(Refused::Fault(fault)) => Err(Refused::Fault(FumenFault::from(fault))),
        Err(Refused::NoMemory) => Err(Refused::NoMemory),
    }
}
