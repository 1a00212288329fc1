// Where the search for good tails begins.
ghost use Rattle.std.specs.Prelude.{◌≡◌, ℕ, ◌≤◌, ◌^◌, ◌&&◌, ◌↔◌, IsTrue, IfOk};
ghost use Rattle.well.specs.Well.{filled};
ghost use Rattle.queue_pattern.specs.Pattern.{elements_of};
ghost use Rattle.tails.specs.TailSets.{has};
ghost use Rattle.tails.specs.Tails.{AreTails};
ghost use Rattle.problem.specs.Problem.{IsFit, needed_of};
ghost use Rattle.percent.specs.Good.{Good};
ghost use Rattle.percent.specs.GoodHands.{game_of};
ghost use Rattle.percent.specs.GoodTails.{is_good_tail};
ghost use Rattle.percent.specs.QueueAnswers.{IsTreeOf, pieces_drawn};

use crate::answered::answered_first;
use crate::fitting::fitting_in_parts;
use crate::game::Game;
use crate::kept::Kept;
use crate::position::Position;
use hold_queue::Hold;
use pc_outside::NoMemory;
use problem::{Problem, needed};
use queue_pattern::{Pattern, Queue};
use reach::Steps;
use std::alloc::Global;
use std::sync::ledger::Ledger;
use tails::{TailSet, TailTree};

/// The position at which the search begins.
fn first_position(problem: &Problem) -> Position
    requires { IsFit problem.now }
    ensures well { result.well ≡ problem.now.well }
    ensures rows { result.rows ≡ problem.now.height }
{
    Position {
        well: problem.well,
        rows: problem.height,
        roughness: 0,
        near: 0,
    }
}

/// For how many positions answers are kept, given how many tails the queues have and how many placements are to come: a
/// power of two.
fn room_for(tails: u32, left: u8) -> usize
    ensures { (exponent : ℕ) × (result ≡ 2 ^ exponent) }
{
    let wanted = if left > 10 {
        tails.saturating_mul(64)
    } else {
        tails / 8
    };
    match wanted {
        0..=8192 => 8192,
        8193..=65_536 => 65_536,
        _ => 262_144,
    }
}

/// How many pieces of a problem's queues matter, beside the piece that is held at first.
fn pieces_that_matter(problem: &Problem) -> u8
    requires { IsFit problem.now }
    ensures { result ≡ pieces_drawn problem.now }
{
    let placements = needed(problem);
    match (problem.hold, problem.held) {
        (Hold::Allowed, None) => placements + 1,
        _ => placements,
    }
}

/// The tree of a pattern, cut to the pieces that matter in a problem.
pub fn tree_of(alloc: Global, problem: &Problem, pattern: &Pattern) -> Result<TailTree, NoMemory>
    requires { IsFit problem.now }
    ensures { IfOk result (IsTreeOf problem.now (elements_of pattern.now)) }
{
    let cut = pattern.cut(pieces_that_matter(problem));
    TailTree::new(alloc, &cut, problem.hold)
}

/// Those of the tails that are good at a first position with `left` placements to come.
fn good_among<L: Ledger>(
    alloc: Global,
    kept: &mut Kept,
    position: &Position,
    left: u8,
    tails: &TailSet,
    steps: &mut Steps<L>,
) -> Result<TailSet, NoMemory>
    requires few { left ≤ 20 }
    requires tails { AreTails kept.old.tree (has tails.now) }
    ensures members { IfOk result (λ good. (tail : ℕ) → has good tail ≡ (has tails.now tail
        && is_good_tail kept.old.tree kept.old.game (filled position.now.well) position.now.rows left tail)) }
    ensures tree { kept.new.tree ≡ kept.old.tree }
    ensures counted { steps.old ≤ steps.new }
{
    let fit = fitting_in_parts(alloc, &mut kept.fits, &kept.tree, position, left, tails)?;
    answered_first(alloc, kept, position, left, &fit, steps)
}

/// Those of the tails of a tree that are good, and the tree. If the number of empty cells below the height is not a
/// multiple of four, there are none.
pub fn good_tails<L: Ledger>(
    alloc: Global,
    problem: &Problem,
    tree: TailTree,
    tails: &TailSet,
    steps: &mut Steps<L>,
) -> Result<(TailTree, TailSet), NoMemory>
    requires fit { IsFit problem.now }
    requires hold { tree.hold ≡ problem.now.hold }
    requires tails { AreTails tree (has tails.now) }
    ensures tree { IfOk result (λ v. v.0 ≡ tree) }
    ensures members { IfOk result (λ v. (tail : ℕ) → has v.1 tail ≡ (has tails.now tail
        && is_good_tail tree (game_of problem.now) (filled problem.now.well) problem.now.height
        (needed_of problem.now) tail)) }
    ensures counted { steps.old ≤ steps.new }
{
    if problem.well.empties_below(problem.height) % 4 != 0 {
        return Ok((tree, TailSet::none(alloc)));
    }
    let left = needed(problem);
    let game = Game {
        rules: problem.rules,
        drop_mode: problem.drop_mode,
        hold: problem.hold,
    };
    let room = room_for(tree.pattern.count(), left);
    let mut kept = Kept::new(alloc, game, tree, room);
    let position = first_position(problem);
    let good = good_among(alloc, &mut kept, &position, left, tails, steps)?;
    Ok((kept.tree, good))
}

/// Whether a queue is good: whether it permits the pieces of some sequence that plays in the problem. Counts each
/// flood. The only refusal is that memory runs out.
pub fn solvable<L: Ledger>(
    alloc: Global,
    problem: &Problem,
    queue: &Queue,
    steps: &mut Steps<L>,
) -> Result<bool, NoMemory>
    requires { IsFit problem.now }
    ensures good { IfOk result (λ good. IsTrue good ↔ Good problem.now queue.now.items) }
    ensures counted { steps.old ≤ steps.new }
{
    let tree = tree_of(alloc, problem, &Pattern::from_queue(queue))?;
    let tails = tree.all(alloc, problem.held)?;
    let (tree, good) = good_tails(alloc, problem, tree, &tails, steps)?;
    Ok(good.has(tree.start(problem.held, 0)))
}
