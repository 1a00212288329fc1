// The action of a page: its operation and its flags, as one number.
ghost use Rattle.std.specs.Prelude.{◌≡◌, ◌*◌, ◌^◌, ◌≤◌, ◌<◌, ◌↔◌, ◌≤ℤ◌, pos, IsTrue, Ok, Err};
ghost use Rattle.std.specs.Option.{ForSome};
ghost use Rattle.fumen_digits.specs.declared.dialect.Dialect.{Dialect};
ghost use Rattle.fumen_digits.specs.Dialect.{page_cell_count};
ghost use Rattle.srs.specs.Cells.{is_near, minus, moved, pivot_of};
ghost use Rattle.fumen_pages.specs.declared.action.Action.{Action};
ghost use Rattle.fumen_pages.specs.declared.page.Page.{Page};
ghost use Rattle.fumen_pages.specs.Action.{SaysAction, SaysOutside, action_end, bit, flags_of, in_rows, is_inside_in, numbered_cell, rotation_code, written_by};
ghost use Rattle.fumen_pages.specs.Sound.{IsSound, action_of};
ghost use Rattle.fumen_pages.specs.Written.{action_number_of, operation_number};
ghost use Rattle.fumen_pages.specs.Cells.{place_of};
ghost use Rattle.fumen_pages.specs.Reading.{action_in, operation_of, placed, rotation_with_code};

use crate::inside::is_inside;
use crate::page::Page;
use fumen_digits::Dialect;
use srs::{Piece, Placement, Rotation};

/// What a page does, and whether a comment follows.
#[derive(Clone, Copy, Debug, PartialEq, Eq)]
pub struct Action {
    /// The piece that is placed, if any. All its cells lie in columns 0 to 9 and the dialect's rows.
    pub operation: Option<Placement>,
    /// Whether the garbage row comes in from below when the page locks.
    pub rise: bool,
    /// Whether the rows are mirrored when the page locks.
    pub mirror: bool,
    /// Whether the colours are those of the guideline.
    pub colour: bool,
    /// Whether the page locks.
    pub lock: bool,
    /// Whether a comment follows.
    pub comment: bool,
}

/// Why a number stands for no action.
#[derive(Clone, Copy, Debug, PartialEq, Eq)]
pub enum ActionFault {
    /// The number is at least 1,024 times the number of cells of a page: 225,280 or 245,760.
    TooLarge,
    /// The named piece has a cell outside columns 0 to 9 or the dialect's rows.
    Outside,
}

/// What a number stands for: the operation and the flags of a page, and whether a comment follows.
pub fn read_action(dialect: Dialect, number: u32) -> Result<Action, ActionFault>
    // The result from the number's parts.
    ensures exact { result ≡ action_in dialect number }

    // It is the action that the number stands for, or why it stands for none.
    ensures found { (action : Action) → (result ≡ Ok action) ↔ SaysAction dialect number action }
    ensures too_large { (result ≡ Err ActionFault.TooLarge) ↔ (action_end dialect ≤ number) }
    ensures outside { (result ≡ Err ActionFault.Outside) ↔ SaysOutside dialect number }
{
    read_parts(dialect, number)
}

#[tactic(auto, unfolding(crate::specs::Reading::action_in))]
fn read_parts(dialect: Dialect, number: u32) -> Result<Action, ActionFault>
    ensures { result ≡ action_in dialect number }
{
    let cells = u32::from(dialect.cells());
    if number >= 1024 * cells {
        return Err(ActionFault::TooLarge);
    }
    let piece = Piece::from_code((number % 8) as u8);
    let rotation = rotation_with_code((number / 8 % 4) as u8);
    let operation = operation_of(dialect, piece, rotation, (number / 32 % cells) as u8)?;
    let flags = number / (32 * cells);
    Ok(Action {
        operation,
        rise: flags % 2 == 1,
        mirror: flags / 2 % 2 == 1,
        colour: flags / 4 % 2 == 1,
        comment: flags / 8 % 2 == 1,
        lock: flags / 16 % 2 == 0,
    })
}

/// The rotation with this number in fumen, 0 to 3.
fn rotation_with_code(code: u8) -> Rotation
    ensures { result ≡ rotation_with_code code }
{
    match code {
        0 => Rotation::Reverse,
        1 => Rotation::Right,
        2 => Rotation::Spawn,
        _ => Rotation::Left,
    }
}

/// The placement of a piece, if there is one, whose pivot is written at this place.
fn operation_of(
    dialect: Dialect,
    piece: Option<Piece>,
    rotation: Rotation,
    place: u8,
) -> Result<Option<Placement>, ActionFault>
    requires { place < page_cell_count dialect }
    ensures { result ≡ operation_of dialect piece rotation place }
{
    let Some(piece) = piece else {
        return Ok(None);
    };
    let written = numbered_cell(dialect, place);
    let (columns, rows) = written_by(piece, rotation);
    let pivot = moved(written, (-columns, -rows));
    placed(dialect, piece, rotation, pivot)
}

/// The cell with this number, as column and row.
fn numbered_cell(dialect: Dialect, place: u8) -> (i8, i8)
    requires { place < page_cell_count dialect }
    ensures cell { result ≡ numbered_cell dialect place }
    ensures right { result.0 ≤ℤ pos 31 }
    ensures left { minus 31 ≤ℤ result.0 }
    ensures high { result.1 ≤ℤ pos 31 }
    ensures low { minus 31 ≤ℤ result.1 }
{
    let top = dialect.rows() as i8 - 1;
    ((place % 10) as i8, top - (place / 10) as i8)
}

/// How far from the pivot fumen writes it, in columns and rows.
fn written_by(piece: Piece, rotation: Rotation) -> (i8, i8)
    ensures pair { result ≡ written_by piece rotation }
    ensures near { IsTrue (is_near result) }
{
    match (piece, rotation) {
        (Piece::O, Rotation::Left) => (-1, 1),
        (Piece::O | Piece::I, Rotation::Reverse) | (Piece::Z, Rotation::Left) => (-1, 0),
        (Piece::O | Piece::S | Piece::Z, Rotation::Spawn) | (Piece::I, Rotation::Left) => (0, 1),
        (Piece::S, Rotation::Right) => (1, 0),
        _ => (0, 0),
    }
}

/// The placement with its pivot at this cell, if all its cells lie in the dialect's rows.
fn placed(
    dialect: Dialect,
    piece: Piece,
    rotation: Rotation,
    pivot: (i8, i8),
) -> Result<Option<Placement>, ActionFault>
    ensures { result ≡ placed dialect piece rotation pivot }
{
    let (x, y) = pivot;
    if x < 0 || y < 0 {
        return Err(ActionFault::Outside);
    }
    let placement = Placement {
        piece,
        rotation,
        x: x as u8,
        y: y as u8,
    };
    if !is_inside(dialect, &placement) {
        return Err(ActionFault::Outside);
    }
    Ok(Some(placement))
}

/// The number of a page's action. Without an operation, rotation and place are 0.
#[tactic(auto, unfolding(crate::specs::Written::action_number_of))]
pub fn action_number(dialect: Dialect, page: &Page) -> u32
    requires { IsSound dialect page.now }
    ensures exact { result ≡ action_number_of dialect page.now }
    ensures below { result < 64 ^ 3 }
{
    let cells = u32::from(dialect.cells());
    operation_number(dialect, &page.operation) + 32 * cells * flags_number(page)
}

/// The part of a number that stands for an operation.
fn operation_number(dialect: Dialect, operation: &Option<Placement>) -> u32
    requires { ForSome operation.now (λ placement. IsTrue (is_inside_in dialect placement)) }
    ensures exact { result ≡ operation_number dialect operation.now }
    ensures below { result < 32 * page_cell_count dialect }
{
    let Some(placement) = operation else {
        return 0;
    };
    let piece = u32::from(placement.piece.code());
    let rotation = u32::from(rotation_code(placement.rotation));
    piece + 8 * rotation + 32 * u32::from(written_place(dialect, placement))
}

/// The number of a rotation in fumen.
fn rotation_code(rotation: Rotation) -> u8
    ensures code { result ≡ rotation_code rotation }
    ensures below { result < 4 }
{
    match rotation {
        Rotation::Spawn => 2,
        Rotation::Right => 1,
        Rotation::Reverse => 0,
        Rotation::Left => 3,
    }
}

/// The number of the cell where the pivot is written.
fn written_place(dialect: Dialect, placement: &Placement) -> u8
    requires { IsTrue (is_inside_in dialect placement.now) }
    ensures exact { result ≡ place_of dialect (moved (pivot_of placement.now)
        (written_by placement.now.piece placement.now.rotation)) }
    ensures below { result < page_cell_count dialect }
{
    let pivot = (placement.x as i8, placement.y as i8);
    let written = moved(pivot, written_by(placement.piece, placement.rotation));
    place_of(dialect, written)
}

/// A cell moved by a number of columns and rows.
#[tactic(auto, using(srs::proofs::CallerLemmas::near_within, crate::proofs::ActionReadAsSpelled::forth_in_byte), unfolding(srs::specs::Cells::moved))]
fn moved(cell: (i8, i8), by: (i8, i8)) -> (i8, i8)
    requires right { cell.0 ≤ℤ pos 31 }
    requires left { minus 31 ≤ℤ cell.0 }
    requires high { cell.1 ≤ℤ pos 31 }
    requires low { minus 31 ≤ℤ cell.1 }
    requires near { IsTrue (is_near by) }
    ensures { result ≡ moved cell by }
{
    (cell.0 + by.0, cell.1 + by.1)
}

/// The number of a cell of the dialect's rows.
fn place_of(dialect: Dialect, cell: (i8, i8)) -> u8
    requires { IsTrue (in_rows dialect cell) }
    ensures exact { result ≡ place_of dialect cell }
    ensures below { result < page_cell_count dialect }
{
    let (x, y) = cell;
    (dialect.rows() - 1 - y as u8) * 10 + x as u8
}

/// The flags of a page as one number.
fn flags_number(page: &Page) -> u32
    ensures exact { result ≡ flags_of (action_of page.now) }
    ensures below { result < 32 }
{
    bit(page.rise)
        + 2 * bit(page.mirror)
        + 4 * bit(page.colour)
        + 8 * bit(page.comment.is_some())
        + 16 * bit(!page.lock)
}

fn bit(flag: bool) -> u32
    ensures { result ≡ bit flag }
{
    if flag { 1 } else { 0 }
}
