// The pages of a number.
ghost use Rattle.std.specs.Prelude.{◌≡◌, ◌<◌, ◌≤◌, IsTrue, IfOk, All};
ghost use Rattle.fumen_digits.specs.declared.dialect.Dialect.TheVariants.{V115};
ghost use Rattle.fumen_pages.specs.Action.{is_inside_in};
ghost use Rattle.fumen_pages.specs.Cells.{AreCells};
ghost use Rattle.fumen_pages.specs.Sound.{IsSound};
ghost use Rattle.fumen_pages.specs.Lists.{most_pages};
ghost use Rattle.sample_pages.specs.Pages.{cells_drawn, column_drawn, comment_drawn, has_comment, operation_drawn, page_drawn, sample_pages, state_behind};

use crate::draws::{draw, state_after_draws};
use fumen_comment::Comment;
use fumen_digits::Dialect;
use fumen_pages::{Page, next_cells};
use pc_outside::NoMemory;
use srs::{Piece, Placement, Rotation};
use std::alloc::Global;

/// Pages that were made from a number, and the column that is drawn after them.
#[derive(Debug, Drop)]
pub struct Sample {
    pub pages: Vec<Page>,
    /// The first of four neighbouring columns, 0 to 6.
    pub column: u8,
}

#[tactic(auto, unfolding(crate::specs::Pages::operation_drawn))]
fn operation_drawn(state: u64) -> Placement
    ensures operation { result ≡ operation_drawn state }
    ensures inside { IsTrue (is_inside_in V115 result) }
{
    Placement {
        piece: Piece::ALL[draw(state, 1, 7) as usize],
        rotation: Rotation::ALL[draw(state, 2, 4) as usize],
        x: draw(state, 3, 4) as u8 + 3,
        y: draw(state, 4, 10) as u8 + 2,
    }
}

/// The same cells, one of which gets a colour.
#[tactic(auto, unfolding(crate::specs::Pages::cells_drawn))]
fn cells_drawn(state: u64, cells: &[u8; 240]) -> [u8; 240]
    requires { AreCells V115 cells.now }
    ensures cells { result ≡ cells_drawn state cells.now }
    ensures sound { AreCells V115 result }
{
    let mut drawn = *cells;
    drawn[draw(state, 8, 240) as usize] = draw(state, 9, 9) as u8;
    drawn
}

#[tactic(auto, unfolding(crate::specs::Pages::has_comment))]
fn has_comment(state: u64) -> bool
    ensures { result ≡ has_comment state }
{
    draw(state, 10, 4) == 0
}

#[tactic(auto, unfolding(crate::specs::Pages::comment_drawn))]
fn comment_drawn(alloc: Global, state: u64) -> Result<Option<Comment>, NoMemory>
    ensures { IfOk result (λ comment. comment ≡ comment_drawn state) }
{
    if !has_comment(state) {
        return Ok(None);
    }
    let units = Vec::from_slice(
        alloc,
        &[
            draw(state, 11, 65_536) as u16,
            draw(state, 12, 65_536) as u16,
            draw(state, 13, 65_536) as u16,
        ],
    )?;
    Ok(Some(Comment::from_units(units)))
}

/// The page that is drawn from a state, over the cells that the page before it leaves.
#[tactic(auto, unfolding(crate::specs::Pages::page_drawn))]
fn page_drawn(alloc: Global, state: u64, colour: bool, cells: &[u8; 240]) -> Result<Page, NoMemory>
    requires { AreCells V115 cells.now }
    ensures page { IfOk result (λ page. page ≡ page_drawn state colour cells.now) }
    ensures sound { IfOk result (λ page. IsSound V115 page) }
{
    Ok(Page {
        cells: cells_drawn(state, cells),
        operation: Some(operation_drawn(state)),
        rise: draw(state, 5, 8) == 0,
        mirror: draw(state, 6, 8) == 0,
        colour,
        lock: draw(state, 7, 4) != 0,
        comment: comment_drawn(alloc, state)?,
    })
}

/// The state after a page.
#[tactic(auto, unfolding(crate::specs::Pages::state_behind))]
fn state_behind(state: u64) -> u64
    ensures { result ≡ state_behind state }
{
    if has_comment(state) {
        state_after_draws(13, state)
    } else {
        state_after_draws(10, state)
    }
}

/// This many pages from a number, each sound in the dialect of 23 rows, and the column that is drawn after them. The
/// only refusal is that memory runs out.
pub fn sample_of(alloc: Global, number: u32, pages: u32) -> Result<Sample, NoMemory>
    requires least { 1 ≤ pages }
    requires most { pages ≤ most_pages }
    ensures pages { IfOk result (λ sample. sample.pages.items ≡ sample_pages number pages) }
    ensures sound { IfOk result (λ sample. All (IsSound V115) sample.pages.items) }
    ensures column { IfOk result (λ sample. sample.column ≡ column_drawn number pages) }
    ensures within { IfOk result (λ sample. sample.column < 7) }
{
    let mut state = u64::from(number);
    let mut made = Vec::new(alloc);
    let mut cells = [0; 240];
    for index in 0..pages {
        let page = page_drawn(alloc, state, index == 0, &cells)?;
        cells = next_cells(Dialect::V115, &page);
        state = state_behind(state);
        made.push(page)?;
    }
    Ok(Sample {
        pages: made,
        column: draw(state, 1, 7) as u8,
    })
}

/// This many pages from a number, each sound in the dialect of 23 rows. The only refusal is that memory runs out.
pub fn sample_pages(alloc: Global, number: u32, pages: u32) -> Result<Vec<Page>, NoMemory>
    requires least { 1 ≤ pages }
    requires most { pages ≤ most_pages }
    ensures pages { IfOk result (λ made. made.items ≡ sample_pages number pages) }
    ensures sound { IfOk result (λ made. All (IsSound V115) made.items) }
{
    let sample = sample_of(alloc, number, pages)?;
    Ok(sample.pages)
}
