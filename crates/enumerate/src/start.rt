// Starting a search, and going from solution to solution.
ghost use Rattle.std.specs.Prelude.{◌≡◌, ◌+◌, ◌-◌, ◌≤◌, ◌&&◌, nat_lt, length, IfOk, IsTrue, All, MatchOption, Some, None, [], ◌∷◌, Contains, take, ⊤};
ghost use Rattle.std.specs.Option.{ForSome};
ghost use Rattle.srs.specs.declared.piece.Piece.{Piece};
ghost use Rattle.srs.specs.Rules.{table_of};
ghost use Rattle.srs.specs.Order.{sequence_cmp};
ghost use Rattle.srs.specs.Rising.{IsNextAbove};
ghost use Rattle.problem.specs.Solution.{IsSolution};
ghost use Rattle.srs.specs.Kick.{Table};
ghost use Rattle.moves.specs.declared.key.DropMode.{DropMode};
ghost use Rattle.empty_cells.specs.SupplyWords.{supply_of};
ghost use Rattle.queue_pattern.specs.Queues.{queues};
ghost use Rattle.queue_pattern.specs.Pattern.{elements_of};
ghost use Rattle.reach.specs.FloodRules.{flood_table};
ghost use Rattle.problem.specs.Problem.{IsFit, needed_of};
ghost use Rattle.enumerate.specs.SearchState.{is_live, root_of};
ghost use Rattle.enumerate.specs.Counted.{as_count, CountsUp};
ghost use Rattle.enumerate.specs.Events.{found, floods};
ghost use Rattle.enumerate.specs.Frames.{has_room, path_of, stacked};
ghost use Rattle.enumerate.specs.Items.{items_of};
ghost use Rattle.enumerate.specs.Setups.{state_of};
ghost use Rattle.enumerate.specs.Rest.{events_from, whole_from};
ghost use Rattle.enumerate.specs.Walks.{Finds};
ghost use Rattle.enumerate.specs.Seeks.{SkipsTo};
ghost use Rattle.problem.specs.SolutionList.{IsList};
ghost use Rattle.dead_memo.specs.Memo.{kept};
ghost use Rattle.dead_memo.specs.Question.{HasNoTiling};
ghost use Rattle.enumerate.specs.Work.{pairs};
ghost use Rattle.enumerate.specs.ViewOf.{view_of, solutions, work, after_given, dead_questions};

use crate::advance::{advance, path};
use crate::frame::Frame;
use crate::line::Line;
use crate::notes::Notes;
use crate::search::Search;
use crate::seek::seek;
use crate::setup::{NextSupply, Setup};
use crate::tilings::Tilings;
use empty_cells::{Empties, SupplyWord};
use hold_queue::QueueSet;
use pc_outside::NoMemory;
use problem::{Problem, Sequence, needed};
use queue_pattern::Queue;
use reach::{FloodRules, Steps};
use std::alloc::Global;
use std::sync::ledger::Ledger;

/// A sequence with the same placements.
fn copied(sequence: &Sequence) -> Sequence
    ensures { result.items ≡ sequence.now.items }
{
    match Sequence::try_from(sequence.as_slice()) {
        Ok(copy) => copy,
        Err(_) => unreachable!(),
    }
}

/// A copy of the sequence, if there is one.
fn copied_if_any(sequence: &Option<Sequence>) -> Option<Sequence>
    ensures { items_of result ≡ items_of sequence.now }
{
    match sequence {
        None => None,
        Some(sequence) => Some(copied(sequence)),
    }
}

/// The most pieces that a supply has of one kind.
fn most_of(supply: SupplyWord) -> u8
    ensures { (piece : Piece) → supply_of supply piece ≤ result }
{
    let [i, l, o, z, t, j, s] = supply.entries();
    i.max(l).max(o).max(z).max(t).max(j).max(s)
}

/// The frame of the state at which a search begins.
fn first_frame(problem: &Problem, queue: &Option<Queue>) -> Frame
    requires { IsFit problem.now }
    ensures state { state_of (table_of problem.now.rules) problem.now.drop_mode result.setup
        ≡ root_of problem.now (items_of queue.now) }
    ensures left { result.setup.left ≡ needed_of problem.now - 1 }
    ensures tried { result.tried ≡ 0 }
    ensures places { result.places ≡ None }
{
    let queues = match queue {
        None => QueueSet::start(&problem.pattern, problem.hold, problem.held),
        Some(queue) => QueueSet::start_one(queue, problem.hold, problem.held),
    };
    let left = needed(problem).saturating_sub(1);
    let line = Line::of(queues);
    let supply = SupplyWord::new(&queues.supply(left + 1));
    let limited = supply.at_most(left);
    let setup = Setup {
        well: problem.well,
        rows: problem.height,
        empties: Empties::below(&problem.well, problem.height),
        line,
        supply,
        left,
        limited,
        most: most_of(supply),
    };
    Frame {
        setup,
        tried: 0,
        places: None,
        next_supply: NextSupply { supply, limited },
        are_live: false,
        entered: None,
    }
}

/// Whether a search has a first frame: where some placement is needed, and the state is worth a look.
fn has_frame(problem: &Problem, first: &Frame, tilings: &mut Tilings) -> bool
    requires { IsFit problem.now }
    ensures { (table : Table) (mode : DropMode) → result ≡ (nat_lt 0 (needed_of problem.now)
        && is_live first.now.setup.left (state_of table mode first.now.setup)) }
{
    needed(problem) > 0 && first.setup.is_live(tilings)
}

/// Goes from where a search stands to its next solution. Returns how many frames are in use then, which is 0 if no
/// solution is left.
fn go_on<L: Ledger>(
    problem: &Problem,
    rules: &FloodRules,
    queue: &Option<Queue>,
    after: &Option<Sequence>,
    pending: bool,
    frames: &mut [Frame; 20],
    depth: usize,
    notes: &mut Notes,
    steps: &mut Steps<L>,
) -> usize
    requires fit { IsFit problem.now }
    requires rules { flood_table rules.now ≡ table_of problem.now.rules }
    requires within { depth ≤ 20 }
    requires room { IsTrue (has_room 0 (take depth frames.old)) }
    ensures within { result ≤ 20 }
    ensures room { IsTrue (has_room 0 (take result frames.new)) }
    ensures found { Finds
        (found (events_from problem.now (items_of queue.now) (items_of after.now) pending (take depth frames.old)))
        (found (stacked (table_of problem.now.rules) problem.now.drop_mode [] (take result frames.new)))
        (path_of (take result frames.new)) (nat_lt 0 result) }
    ensures counted { floods (events_from problem.now (items_of queue.now) (items_of after.now) pending
        (take depth frames.old)) + steps.old
        ≡ floods (stacked (table_of problem.now.rules) problem.now.drop_mode [] (take result frames.new)) + steps.new }
    ensures fewer { floods (stacked (table_of problem.now.rules) problem.now.drop_mode [] (take result frames.new))
        ≤ floods (events_from problem.now (items_of queue.now) (items_of after.now) pending (take depth frames.old)) }
    ensures noted { CountsUp notes.old.floods notes.new.floods steps.old steps.new }
{
    let mut depth = depth;
    if pending {
        depth = begin(problem, rules, queue, after, frames, notes, steps);
    }
    advance(frames, depth, rules, problem.drop_mode, notes, steps)
}

/// Makes the first frame if there is one, and moves to the given sequence. Returns how many frames are in use then.
fn begin<L: Ledger>(
    problem: &Problem,
    rules: &FloodRules,
    queue: &Option<Queue>,
    after: &Option<Sequence>,
    frames: &mut [Frame; 20],
    notes: &mut Notes,
    steps: &mut Steps<L>,
) -> usize
    requires fit { IsFit problem.now }
    requires rules { flood_table rules.now ≡ table_of problem.now.rules }
    ensures within { result ≤ 20 }
    ensures room { IsTrue (has_room 0 (take result frames.new)) }
    ensures skips { SkipsTo
        (whole_from problem.now (items_of queue.now) (items_of after.now))
        (stacked (table_of problem.now.rules) problem.now.drop_mode [] (take result frames.new)) steps.old steps.new }
    ensures noted { CountsUp notes.old.floods notes.new.floods steps.old steps.new }
{
    let first = first_frame(problem, queue);
    if !has_frame(problem, &first, &mut notes.tilings) {
        return 0;
    }
    frames[0] = first;
    match after {
        None => 1,
        Some(given) => seek(
            frames,
            given.as_slice(),
            rules,
            problem.drop_mode,
            notes,
            steps,
        ),
    }
}

impl Search {
    /// A search that still has to go to its start.
    fn new(notes: Notes, problem: Problem, queue: Option<Queue>, after: Option<Sequence>) -> Search
        requires fit { IsFit problem }
        requires none { notes.floods ≡ 0 }
        requires alive { kept notes.tilings.dead ≡ [] }
        ensures view { view_of result ≡ record { problem = problem; queue = items_of queue; bound = items_of after } }
        ensures after { after_given result ≡ items_of after }
        ensures work { work result ≡ 0 }
        ensures dead { dead_questions result ≡ [] }
    {
        let first = first_frame(&problem, &queue);
        let bound = copied_if_any(&after);
        let rules = FloodRules::new(&problem.rules);
        Search {
            problem,
            rules,
            queue,
            after,
            bound,
            pending: true,
            frames: [first; 20],
            depth: 0,
            notes,
        }
    }

    /// Starts a search of all queues, for the solutions after the given sequence if there is one. `NoMemory` if there
    /// is not enough memory.
    pub fn start(
        alloc: Global,
        problem: Problem,
        after: Option<Sequence>,
    ) -> Result<Search, NoMemory>
        requires fit { IsFit problem }
        requires after { ForSome after (λ s. length s.items ≡ needed_of problem) }
        ensures view { IfOk result (λ search. view_of search
            ≡ record { problem = problem; queue = None; bound = items_of after }) }
        ensures list { IfOk result (λ search. IsList (view_of search) (solutions search)) }
        ensures after { IfOk result (λ search. after_given search ≡ items_of after) }
        ensures work { IfOk result (λ search. work search ≡ 0) }
        ensures dead { IfOk result (λ search. dead_questions search ≡ []) }
    {
        let notes = Notes::new(alloc)?;
        Ok(Search::new(notes, problem, None, after))
    }

    /// Starts a search of only this queue of the pattern. `NoMemory` if there is not enough memory.
    pub fn start_one(alloc: Global, problem: Problem, queue: &Queue) -> Result<Search, NoMemory>
        requires fit { IsFit problem }
        requires listed { Contains (queues (elements_of problem.pattern)) queue.now.items }
        ensures view { IfOk result (λ search. view_of search
            ≡ record { problem = problem; queue = Some queue.now.items; bound = None }) }
        ensures list { IfOk result (λ search. IsList (view_of search) (solutions search)) }
        ensures after { IfOk result (λ search. after_given search ≡ None) }
        ensures work { IfOk result (λ search. work search ≡ 0) }
        ensures dead { IfOk result (λ search. dead_questions search ≡ []) }
    {
        let notes = Notes::new(alloc)?;
        match Queue::try_from(queue.as_slice()) {
            Ok(copy) => Ok(Search::new(notes, problem, Some(copy), None)),
            Err(_) => unreachable!(),
        }
    }

    /// How many floods this search has made, at most the greatest value of a u64.
    pub fn floods(&self) -> u64
        ensures { result ≡ as_count (work self.now) }
    {
        self.notes.floods
    }

    /// How many boards without a tiling this search keeps.
    #[tactic(auto, unfolding(crate::specs::ViewOf::dead_questions))]
    pub fn dead_boards(&self) -> usize
        ensures { result ≡ length (dead_questions self.now) }
    {
        self.notes.tilings.dead.len()
    }

    /// The least solution after the bound; it becomes the bound. `None` if there is none; the bound stays. A call is
    /// never refused for want of memory.
    pub fn next<L: Ledger>(&mut self, steps: &mut Steps<L>) -> Option<Sequence>
        ensures list { IsList (view_of self.old) (solutions self.old) }
        ensures found { MatchOption result
            ((solutions self.old ≡ []) × (solutions self.new ≡ []) × (view_of self.new ≡ view_of self.old))
            (λ s. (solutions self.old ≡ s.items ∷ solutions self.new)
            × (view_of self.new ≡ record (view_of self.old) { bound = Some s.items })) }
        ensures next { IsNextAbove sequence_cmp (IsSolution (view_of self.old).problem (view_of self.old).queue)
            (view_of self.old).bound (items_of result) }
        ensures after { after_given self.new ≡ after_given self.old }
        ensures counted { work self.new + steps.old ≡ work self.old + steps.new }
        ensures rose { steps.old ≤ steps.new }
        ensures bounded { work self.new ≤ pairs (view_of self.old).problem (view_of self.old).queue }
        ensures whole { after_given self.old ≡ None →
            MatchOption result (work self.new ≡ pairs (view_of self.old).problem (view_of self.old).queue) (λ _. ⊤) }
        ensures dead { All HasNoTiling (dead_questions self.new) }
    {
        self.depth = go_on(
            &self.problem,
            &self.rules,
            &self.queue,
            &self.after,
            self.pending,
            &mut self.frames,
            self.depth,
            &mut self.notes,
            steps,
        );
        self.pending = false;
        if self.depth == 0 {
            return None;
        }
        let sequence = path(&self.frames[..self.depth]);
        self.bound = Some(copied(&sequence));
        Some(sequence)
    }
}
