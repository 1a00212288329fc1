// The answers for all queues of a pattern.
ghost use Rattle.std.specs.Prelude.{◌≡◌, ◌≤◌, ℕ, IfOk, count_by, length};
ghost use Rattle.queue_pattern.specs.Pattern.{elements_of};
ghost use Rattle.queue_pattern.specs.Queues.{queues};
ghost use Rattle.tails.specs.TailSets.{has};
ghost use Rattle.problem.specs.Problem.{IsFit};
ghost use Rattle.percent.specs.GoodHands.{is_good_queue};
ghost use Rattle.percent.specs.QueueAnswers.{AreAnswers, BeginAlike, HasEachTail, HasGoodTails, IsTreeOf};

use crate::start::{good_tails, tree_of};
use pc_outside::NoMemory;
use problem::Problem;
use reach::Steps;
use std::alloc::Global;
use std::sync::ledger::Ledger;
use tails::{TailSet, TailTree};

/// How many times as many queues there are as cut ones: each cut queue is the front of so many.
fn alike(problem: &Problem, tree: &TailTree) -> u32
    requires { IsTreeOf problem.now (elements_of problem.now.pattern) tree.now }
    ensures { BeginAlike problem.now tree.now result }
{
    problem.pattern.count() / tree.pattern.count()
}

/// An answer for each queue, that it is good, where the tail of each is among the good ones. The tree and the tails are
/// there for the contract alone.
fn all_good(
    alloc: Global,
    problem: &Problem,
    tree: &TailTree,
    alike: u32,
    tails: &TailSet,
) -> Result<Vec<bool>, NoMemory>
    requires each { HasEachTail problem.now tree.now alike (has tails.now) }
    requires exact { HasGoodTails problem.now tree.now alike tails.now }
    ensures { IfOk result (λ v. AreAnswers problem.now v.items (length (queues (elements_of problem.now.pattern)))) }
{
    let count = problem.pattern.count();
    let mut answers = Vec::with_capacity(alloc, count as usize)?;
    for number in 0..count {
        answers.push(true)?;
    }
    Ok(answers)
}

/// For each queue, by its number, whether it is good: whether its tail is among the good ones. If all tails are, each
/// is.
fn judged(
    alloc: Global,
    problem: &Problem,
    tree: &TailTree,
    all: &TailSet,
    good: &TailSet,
) -> Result<Vec<bool>, NoMemory>
    requires fit { IsFit problem.now }
    requires own { IsTreeOf problem.now (elements_of problem.now.pattern) tree.now }
    requires each { (alike : ℕ) → BeginAlike problem.now tree.now alike
        → HasEachTail problem.now tree.now alike (has all.now) }
    requires exact { (alike : ℕ) → BeginAlike problem.now tree.now alike
        → HasGoodTails problem.now tree.now alike good.now }
    ensures { IfOk result (λ v. AreAnswers problem.now v.items (length (queues (elements_of problem.now.pattern)))) }
{
    let alike = alike(problem, tree);
    if all.without(alloc, good)?.is_empty() {
        return all_good(alloc, problem, tree, alike, good);
    }
    let count = problem.pattern.count();
    let mut answers = Vec::with_capacity(alloc, count as usize)?;
    let mut next = 0;
    for number in 0..count {
        let tail = tree.start(problem.held, number / alike);
        answers.push(good.has_near(&mut next, tail))?;
    }
    Ok(answers)
}

/// How many queues are good.
fn count_good(problem: &Problem, answers: &[bool]) -> u32
    requires { AreAnswers problem.now answers.now (length (queues (elements_of problem.now.pattern))) }
    ensures { result ≡ count_by (is_good_queue problem.now) (queues (elements_of problem.now.pattern)) }
{
    let mut count = 0;
    for number in 0..problem.pattern.count() {
        if answers[number as usize] {
            count += 1;
        }
    }
    count
}

/// Which queues of a problem's pattern are good.
#[derive(Drop)]
pub struct Answers {
    problem: Problem,
    good: Vec<bool>,
    count: u32,
    ghost fit: { IsFit problem },
    ghost exact: { AreAnswers problem good.items (length (queues (elements_of problem.pattern))) },
    ghost counted: { count ≡ count_by (is_good_queue problem) (queues (elements_of problem.pattern)) },
}

impl Answers {
    ghost use Rattle.std.specs.Prelude.{◌<◌, ◌↔◌, IsTrue, List, Some, slice_get};
    ghost use Rattle.srs.specs.declared.piece.Piece.{Piece};
    ghost use Rattle.percent.specs.Answers.{problem_of};
    ghost use Rattle.percent.specs.Good.{Good};

    /// The answers for a fit problem. Counts each flood. The only refusal is that memory runs out.
    pub fn new<L: Ledger>(
        alloc: Global,
        problem: &Problem,
        steps: &mut Steps<L>,
    ) -> Result<Answers, NoMemory>
        requires { IsFit problem.now }
        ensures problem { IfOk result (λ answers. problem_of answers ≡ problem.now) }
        ensures counted { steps.old ≤ steps.new }
    {
        let tree = tree_of(alloc, problem, &problem.pattern)?;
        let all = tree.all(alloc, problem.held)?;
        let (tree, good) = good_tails(alloc, problem, tree, &all, steps)?;
        let good = judged(alloc, problem, &tree, &all, &good)?;
        let count = count_good(problem, good.as_slice());
        Ok(Answers {
            problem: *problem,
            good,
            count,
        })
    }

    /// Whether the queue with this number, counted from 0, is good.
    pub fn is_good(&self, number: u32) -> bool
        requires { number < length (queues (elements_of (problem_of self.now).pattern)) }
        ensures { (queue : List Piece) →
            slice_get (queues (elements_of (problem_of self.now).pattern)) number ≡ Some queue →
            IsTrue result ↔ Good (problem_of self.now) queue }
    {
        self.good[number as usize]
    }

    /// How many queues of the pattern are good: at most 10,000,000.
    pub fn count_good(&self) -> u32
        ensures { result ≡ count_by (is_good_queue (problem_of self.now))
            (queues (elements_of (problem_of self.now).pattern)) }
    {
        self.count
    }
}
