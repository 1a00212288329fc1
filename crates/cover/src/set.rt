// The kinds of known sequences, and the queues that permit them.
ghost use Rattle.std.specs.Prelude.{◌≡◌, List, OnErr, OnOk, map};
ghost use Rattle.srs.specs.declared.piece.Piece.{Piece};
ghost use Rattle.srs.specs.Rules.{table_of};
ghost use Rattle.problem.specs.Problem.{IsFit};
ghost use Rattle.reach.specs.FloodRules.{flood_table};
ghost use Rattle.cover.specs.Covered.{Keeps};
ghost use Rattle.cover.specs.Lists.{has_kinds, listed_kinds};
ghost use Rattle.cover.specs.Nodes.{spells};
ghost use Rattle.cover.specs.Tree.{nodes_of};

use crate::front::end_of_front;
use crate::kinds::{Kinds, kinds_of};
use crate::look::{Look, look_at};
use crate::play::plays_by;
use crate::tree::Tree;
use hold_queue::Hand;
use indexmap::IndexSet;
use pc_outside::NoMemory;
use problem::{Problem, Sequence};
use reach::{FloodRules, Steps};
use std::alloc::Global;
use std::sync::ledger::Ledger;

/// A problem, and the different lists of kinds of those sequences that clear its field, in the order in which they
/// came.
#[derive(Drop)]
pub struct CoverSet {
    problem: Problem,
    flood: FloodRules,
    lists: IndexSet<Kinds>,
    tree: Tree,
    ghost fit: { IsFit problem },
    ghost floods: { flood_table flood ≡ table_of problem.rules },
    ghost listed: { (kinds : List Piece) →
        spells (nodes_of tree) 0 kinds ≡ has_kinds (map listed_kinds lists.keys) kinds },
}

/// Keeps a list in a tree and in a set. The only refusal is that memory runs out.
fn keep(tree: &mut Tree, lists: &mut IndexSet<Kinds>, kinds: Kinds) -> Result<(), NoMemory>
    requires { (other : List Piece) →
        spells (nodes_of tree.old) 0 other ≡ has_kinds (map listed_kinds lists.old.keys) other }
    ensures listed { (other : List Piece) →
        spells (nodes_of tree.new) 0 other ≡ has_kinds (map listed_kinds lists.new.keys) other }
    ensures kept { OnOk result (Keeps (map listed_kinds lists.old.keys) (map listed_kinds lists.new.keys) kinds.items) }
    ensures err { OnErr result (map listed_kinds lists.new.keys ≡ map listed_kinds lists.old.keys) }
{
    let node = tree.way(kinds.as_slice())?;
    lists.insert(kinds)?;
    tree.end_at(node);
    Ok(())
}

impl CoverSet {
    ghost use Rattle.std.specs.Prelude.{◌+◌, ◌≤◌, ◌↔◌, [], IfOk, IsOk, OnErr, IsTrue, length};
    ghost use Rattle.queue_pattern.specs.Pattern.{elements_of};
    ghost use Rattle.queue_pattern.specs.Queues.{queues};
    ghost use Rattle.problem.specs.Solution.{PlaysIn, pieces_of};
    ghost use Rattle.cover.specs.Covered.{Adds, IsNextFrom, IsPermitted};
    ghost use Rattle.cover.specs.Kept.{lists_of, kept_problem};

    /// A set for a fit problem that keeps nothing yet. The only refusal is that memory runs out.
    #[tactic(auto, using(std::proofs::Common::map), unfolding(crate::specs::Lists::has_kinds, crate::specs::Kept::kept_problem, crate::specs::Kept::lists_of))]
    pub fn start(alloc: Global, problem: Problem) -> Result<CoverSet, NoMemory>
        requires { IsFit problem }
        ensures problem { IfOk result (λ set. kept_problem set ≡ problem) }
        ensures none { IfOk result (λ set. lists_of set ≡ []) }
    {
        let tree = Tree::new(alloc)?;
        Ok(CoverSet {
            problem,
            flood: FloodRules::new(&problem.rules),
            lists: IndexSet::new(alloc),
            tree,
        })
    }

    /// Keeps the kinds of a sequence if it clears the field of the problem, and returns whether it does. Counts at most
    /// one flood for each placement. The only refusal is that memory runs out, and the set is then unchanged. A
    /// sequence that doesn't clear it is never refused.
    pub fn add<L: Ledger>(
        &mut self,
        sequence: &Sequence,
        steps: &mut Steps<L>,
    ) -> Result<bool, NoMemory>
        ensures problem { kept_problem self.new ≡ kept_problem self.old }
        ensures plays { IfOk result (λ plays. IsTrue plays ↔ PlaysIn (kept_problem self.old) sequence.now.items) }
        ensures kept { IfOk result (λ plays.
            Adds plays (lists_of self.old) (lists_of self.new) (pieces_of sequence.now.items)) }
        ensures err { OnErr result (lists_of self.new ≡ lists_of self.old) }
        ensures none { (PlaysIn (kept_problem self.old) sequence.now.items → ⊥) → IsOk result }
        ensures counted { steps.old ≤ steps.new }
        ensures few { steps.new ≤ steps.old + length sequence.now.items }
    {
        if !plays_by(&self.problem, &self.flood, sequence, steps) {
            return Ok(false);
        }
        keep(&mut self.tree, &mut self.lists, kinds_of(sequence))?;
        Ok(true)
    }

    /// The least number, at or above `from`, of a queue that permits a kept list of kinds. `None` exactly if there is
    /// none.
    pub fn next_covered(&self, from: u32) -> Option<u32>
        requires { from ≤ length (queues (elements_of (kept_problem self.now).pattern)) }
        ensures { IsNextFrom (IsPermitted (kept_problem self.now) (lists_of self.now)) from result }
    {
        let pattern = &self.problem.pattern;
        let hold = self.problem.hold;
        let hand = Hand::start(hold, self.problem.held);
        let mut number = from;
        while number < pattern.count() {
            let queue = pattern.queue(number);
            match look_at(&self.tree, hold, 0, &queue, hand) {
                Look::Found => return Some(number),
                Look::Missed(seen) => number = end_of_front(pattern, number, &queue, seen),
            }
        }
        None
    }
}
