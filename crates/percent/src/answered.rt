// The tails that are good at a position, from kept answers or by searching every position that a piece leads to.
ghost use Rattle.std.specs.Prelude.{◌≡◌, ℕ, ◌≤◌, ◌&&◌, ◌==◌, not, IfOk};
ghost use Rattle.tails.specs.TailSets.{has};
ghost use Rattle.tails.specs.Tails.{AreTails};
ghost use Rattle.well.specs.Well.{filled};
ghost use Rattle.percent.specs.Children.{IsChild};
ghost use Rattle.percent.specs.GoodTails.{is_good_tail, is_good_tail_after};
ghost use Rattle.percent.specs.Kept.{AreAnswered};
ghost use Rattle.percent.specs.ListedHands.{AreMarksOfTails, AreRestsOfTails, HasHands, HasIndexes, IsAbout};

use crate::kept::Kept;
use crate::listed::{marks_of, most_counts};
use crate::marks::{Asked, Marks};
use crate::position::{Child, Position};
use pc_outside::NoMemory;
use reach::Steps;
use srs::Piece;
use std::alloc::Global;
use std::sync::ledger::Ledger;
use tails::{TailSet, TailTree};

/// The tails that are good if no placement is to come: all if no row is left, otherwise none.
fn answered_at_end(alloc: Global, position: &Position, tails: &TailSet) -> Result<TailSet, NoMemory>
    ensures { IfOk result (λ good. (tail : ℕ) →
        has good tail ≡ (has tails.now tail && position.now.rows == 0)) }
{
    if position.rows == 0 {
        return tails.copied(alloc);
    }
    Ok(TailSet::none(alloc))
}

/// The rests asked about that were not found, at the position of the marks.
fn less(
    alloc: Global,
    tree: &TailTree,
    marks: &Marks,
    asked: Asked,
    found: &TailSet,
) -> Result<Asked, NoMemory>
    requires indexes { HasIndexes marks.now asked }
    requires hands { HasHands tree.now asked }
    requires tails { AreTails tree.now (has asked.rests) }
    ensures about { IfOk result (IsAbout asked.piece asked.left) }
    ensures indexes { IfOk result (HasIndexes marks.now) }
    ensures hands { IfOk result (HasHands tree.now) }
    ensures members { IfOk result (λ less. (rest : ℕ) →
        has less.rests rest ≡ (has asked.rests rest && not (has found.now rest))) }
{
    if found.is_empty() {
        return Ok(asked);
    }
    let rests = asked.rests.without(alloc, found)?;
    marks.asked_of(alloc, tree, &asked, rests)
}

/// The ordered tilings at a position by the pieces of some tails. The hands of the tails are listed only if tilings are.
fn marks_at(
    alloc: Global,
    kept: &mut Kept,
    position: &Position,
    left: u8,
    tails: &TailSet,
) -> Result<Marks, NoMemory>
    requires few { left ≤ 20 }
    requires tails { AreTails kept.old.tree (has tails.now) }
    ensures game { IfOk result (λ marks. marks.game ≡ kept.old.game) }
    ensures position { IfOk result (λ marks. marks.position ≡ position.now) }
    ensures lists { IfOk result (λ marks. AreMarksOfTails kept.old.tree marks left (has tails.now)) }
    ensures same_game { kept.new.game ≡ kept.old.game }
    ensures tree { kept.new.tree ≡ kept.old.tree }
{
    let game = kept.game;
    if most_counts(game.hold, position.rows, left) == 0 {
        return Ok(Marks::new(alloc, &game, position));
    }
    let hands = kept.hands_of(alloc, tails)?;
    Ok(marks_of(
        alloc,
        &mut kept.lister,
        &game,
        position,
        left,
        hands.as_slice(),
    ))
}

/// What is known of the tilings at the position after a placement, by the pieces of some tails. If nothing is known
/// before it, they are listed.
fn marks_below(
    alloc: Global,
    kept: &mut Kept,
    marks: &Marks,
    child: &Child,
    left: u8,
    tails: &TailSet,
) -> Result<Marks, NoMemory>
    requires few { left ≤ 20 }
    requires game { kept.old.game ≡ marks.now.game }
    requires child { IsChild marks.now.game marks.now.position child.now.placement.piece child.now }
    requires rests { AreRestsOfTails kept.old.tree marks.now child.now.placement.piece left (has tails.now) }
    ensures game { IfOk result (λ below. below.game ≡ kept.old.game) }
    ensures position { IfOk result (λ below. below.position ≡ child.now.position) }
    ensures lists { IfOk result (λ below. AreMarksOfTails kept.old.tree below left (has tails.now)) }
    ensures same_game { kept.new.game ≡ kept.old.game }
    ensures tree { kept.new.tree ≡ kept.old.tree }
{
    if marks.is_empty() {
        return marks_at(alloc, kept, &child.position, left, tails);
    }
    let hands = kept.hands_of(alloc, tails)?;
    Ok(marks.after(alloc, child, left, hands.as_slice()))
}

/// The tails that are good at the position after a placement, with `left` placements to come.
#[cycle(search)]
fn answered<L: Ledger>(
    alloc: Global,
    kept: &mut Kept,
    marks: &Marks,
    child: &Child,
    left: u8,
    tails: &TailSet,
    steps: &mut Steps<L>,
) -> Result<TailSet, NoMemory>
    requires few { left ≤ 20 }
    requires game { kept.old.game ≡ marks.now.game }
    requires child { IsChild marks.now.game marks.now.position child.now.placement.piece child.now }
    requires rests { AreRestsOfTails kept.old.tree marks.now child.now.placement.piece left (has tails.now) }
    ensures members { IfOk result (λ good. (tail : ℕ) → has good tail ≡ (has tails.now tail
        && is_good_tail kept.old.tree kept.old.game (filled child.now.position.well)
        child.now.position.rows left tail)) }
    ensures game { kept.new.game ≡ kept.old.game }
    ensures tree { kept.new.tree ≡ kept.old.tree }
    ensures counted { steps.old ≤ steps.new }
{
    if left == 0 {
        return answered_at_end(alloc, &child.position, tails);
    }
    if tails.is_empty() {
        return Ok(TailSet::none(alloc));
    }
    let Some((known, unknown)) = kept.recalled(alloc, &child.position, left, tails)? else {
        return searched(alloc, kept, marks, child, left, tails, steps);
    };
    if unknown.is_empty() {
        return Ok(known);
    }
    let found = searched(alloc, kept, marks, child, left, &unknown, steps)?;
    if known.is_empty() {
        return Ok(found);
    }
    known.merged(alloc, &found)
}

/// The same for tails about which nothing is known there. The answers are kept if there is room for them.
#[cycle(search)]
fn searched<L: Ledger>(
    alloc: Global,
    kept: &mut Kept,
    marks: &Marks,
    child: &Child,
    left: u8,
    tails: &TailSet,
    steps: &mut Steps<L>,
) -> Result<TailSet, NoMemory>
    requires some { 1 ≤ left }
    requires few { left ≤ 20 }
    requires game { kept.old.game ≡ marks.now.game }
    requires child { IsChild marks.now.game marks.now.position child.now.placement.piece child.now }
    requires rests { AreRestsOfTails kept.old.tree marks.now child.now.placement.piece left (has tails.now) }
    ensures members { IfOk result (λ good. (tail : ℕ) → has good tail ≡ (has tails.now tail
        && is_good_tail kept.old.tree kept.old.game (filled child.now.position.well)
        child.now.position.rows left tail)) }
    ensures game { kept.new.game ≡ kept.old.game }
    ensures tree { kept.new.tree ≡ kept.old.tree }
    ensures counted { steps.old ≤ steps.new }
{
    let below = marks_below(alloc, kept, marks, child, left, tails)?;
    let (good, bad) = explored(alloc, kept, below, left, tails, steps)?;
    kept.keep(alloc, &child.position, left, &good, &bad);
    Ok(good)
}

/// Those of the tails that are not good at the position of the marks with `left` placements to come, piece by piece.
#[cycle(search)]
fn missed<L: Ledger>(
    alloc: Global,
    kept: &mut Kept,
    marks: &Marks,
    left: u8,
    tails: TailSet,
    steps: &mut Steps<L>,
) -> Result<TailSet, NoMemory>
    requires some { 1 ≤ left }
    requires few { left ≤ 20 }
    requires game { kept.old.game ≡ marks.now.game }
    requires lists { AreMarksOfTails kept.old.tree marks.now left (has tails) }
    ensures members { IfOk result (λ bad. (tail : ℕ) → has bad tail ≡ (has tails tail && not (
        is_good_tail kept.old.tree kept.old.game (filled marks.now.position.well) marks.now.position.rows left tail))) }
    ensures game { kept.new.game ≡ kept.old.game }
    ensures tree { kept.new.tree ≡ kept.old.tree }
    ensures counted { steps.old ≤ steps.new }
{
    let order = tails.wanted_first(&kept.tree);
    let mut open = tails;
    for piece in order {
        let rests = open.rests_of(alloc, &kept.tree, piece)?;
        let good = tried(alloc, kept, marks, left - 1, piece, &rests, steps)?;
        open = open.not_leading_to(alloc, &kept.tree, piece, &good)?;
    }
    Ok(open)
}

/// The tails that are good at the position of the marks with `left` placements to come, and those that are not. Those
/// that no listed tiling serves are not tried, where it pays to ask.
#[cycle(search)]
fn explored<L: Ledger>(
    alloc: Global,
    kept: &mut Kept,
    mut marks: Marks,
    left: u8,
    tails: &TailSet,
    steps: &mut Steps<L>,
) -> Result<(TailSet, TailSet), NoMemory>
    requires some { 1 ≤ left }
    requires few { left ≤ 20 }
    requires game { kept.old.game ≡ marks.game }
    requires lists { AreMarksOfTails kept.old.tree marks left (has tails.now) }
    ensures answers { IfOk result (λ answers. AreAnswered kept.old.tree kept.old.game (filled marks.position.well)
        marks.position.rows left tails.now answers.0 answers.1) }
    ensures game { kept.new.game ≡ kept.old.game }
    ensures tree { kept.new.tree ≡ kept.old.tree }
    ensures counted { steps.old ≤ steps.new }
{
    if !marks.asks_orders(left) {
        let all = tails.copied(alloc)?;
        let bad = missed(alloc, kept, &marks, left, all, steps)?;
        let good = tails.without(alloc, &bad)?;
        return Ok((good, bad));
    }
    let likely = marks.buildable(alloc, &kept.tree, left, tails)?;
    let all = likely.copied(alloc)?;
    let open = missed(alloc, kept, &marks, left, all, steps)?;
    let good = likely.without(alloc, &open)?;
    let bad = tails.without(alloc, &good)?;
    Ok((good, bad))
}

/// The rests that are good after one of the places of a piece, at the position of the marks. Once all are, no further
/// place is tried.
#[cycle(search)]
fn tried<L: Ledger>(
    alloc: Global,
    kept: &mut Kept,
    marks: &Marks,
    left: u8,
    piece: Piece,
    rests: &TailSet,
    steps: &mut Steps<L>,
) -> Result<TailSet, NoMemory>
    requires few { left ≤ 19 }
    requires game { kept.old.game ≡ marks.now.game }
    requires rests { AreRestsOfTails kept.old.tree marks.now piece left (has rests.now) }
    ensures members { IfOk result (λ good. (rest : ℕ) → has good rest
        ≡ (has rests.now rest && is_good_tail_after kept.old.tree kept.old.game (filled marks.now.position.well)
        marks.now.position.rows piece left rest)) }
    ensures game { kept.new.game ≡ kept.old.game }
    ensures tree { kept.new.tree ≡ kept.old.tree }
    ensures counted { steps.old ≤ steps.new }
{
    if rests.is_empty() {
        return Ok(TailSet::none(alloc));
    }
    let all = rests.copied(alloc)?;
    let mut asked = marks.asked(alloc, &kept.tree, piece, left, all)?;
    let children = marks.children(alloc, kept, &asked, steps)?;
    for child in &children {
        if asked.rests.is_empty() {
            return rests.copied(alloc);
        }
        let fit = marks.fitting_after(alloc, &mut kept.fits, child, &asked)?;
        let good = answered(alloc, kept, marks, child, left, &fit, steps)?;
        asked = less(alloc, &kept.tree, marks, asked, &good)?;
    }
    rests.without(alloc, &asked.rests)
}

/// The tails that are good at a first position with `left` placements to come. These answers are not kept, since no
/// later question is about that position.
pub fn answered_first<L: Ledger>(
    alloc: Global,
    kept: &mut Kept,
    position: &Position,
    left: u8,
    tails: &TailSet,
    steps: &mut Steps<L>,
) -> Result<TailSet, NoMemory>
    requires few { left ≤ 20 }
    requires tails { AreTails kept.old.tree (has tails.now) }
    ensures members { IfOk result (λ good. (tail : ℕ) → has good tail
        ≡ (has tails.now tail && is_good_tail kept.old.tree kept.old.game (filled position.now.well)
        position.now.rows left tail)) }
    ensures tree { kept.new.tree ≡ kept.old.tree }
    ensures counted { steps.old ≤ steps.new }
{
    if left == 0 {
        return answered_at_end(alloc, position, tails);
    }
    let marks = marks_at(alloc, kept, position, left, tails)?;
    let (good, _) = explored(alloc, kept, marks, left, tails, steps)?;
    Ok(good)
}
