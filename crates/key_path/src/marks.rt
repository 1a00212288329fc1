// How each state of a piece was first reached.
ghost use Rattle.std.specs.Prelude.{◌≡◌, reverse, replicate};
ghost use Rattle.srs.specs.Cells.{HasPivotInWell};
ghost use Rattle.moves.specs.States.{state_code};
ghost use Rattle.key_path.specs.Marks.{mark_at, with_mark, is_unseen, Traced};

use crate::finder::KeyWord;
use moves::Key;
use srs::Placement;

/// The most free states that a piece has: 4 rotations, 23 rows and 10 columns.
pub(crate) const STATES: usize = 920;

/// How a state was first reached.
#[derive(Clone, Copy)]
pub(crate) enum Mark {
    /// It has not been reached.
    Unseen,
    /// The piece spawns in it.
    Start,
    /// It was reached from this state, by this key.
    From(Placement, Key),
}

/// The marks of all states of a piece.
#[derive(Drop)]
pub(crate) struct Marks {
    marks: [Mark; 920],
}

impl Marks {
    /// Marks by which no state has been reached.
    pub(crate) fn new() -> Marks
        ensures { result.marks ≡ replicate 920 Mark.Unseen }
    {
        Marks {
            marks: [Mark::Unseen; STATES],
        }
    }

    /// Whether a state has not been reached yet.
    pub(crate) fn is_unseen(&self, state: &Placement) -> bool
        requires { HasPivotInWell state.now }
        ensures { result ≡ is_unseen (mark_at self.now.marks state.now) }
    {
        matches!(self.at(state), Mark::Unseen)
    }

    /// The mark of a state.
    #[tactic(auto, using(moves::proofs::CallerLemmas::code_below), unfolding(crate::specs::Marks::mark_at))]
    fn at(&self, state: &Placement) -> Mark
        requires { HasPivotInWell state.now }
        ensures { result ≡ mark_at self.now.marks state.now }
    {
        self.marks[code(state)]
    }

    /// Marks a state.
    #[tactic(auto, using(moves::proofs::CallerLemmas::code_below), unfolding(crate::specs::Marks::with_mark))]
    pub(crate) fn set(&mut self, state: &Placement, mark: Mark)
        requires { HasPivotInWell state.now }
        ensures { self.new.marks ≡ with_mark self.old.marks state.now mark }
    {
        self.marks[code(state)] = mark;
    }

    /// The keys that lead to a state.
    pub(crate) fn word_to(&self, state: &Placement) -> KeyWord
        requires pivot { HasPivotInWell state.now }
        requires traced { Traced self.now.marks state.now }
        ensures { (traced : Traced self.now.marks state.now) → result.items ≡ reverse traced.keys }
    {
        let mut word = KeyWord::new();
        let mut reached = *state;
        while let Mark::From(from, key) = self.at(&reached) {
            word.push(key);
            reached = from;
        }
        word.as_mut_slice().reverse();
        word
    }
}

/// The index of a state among all states with their pivot in the well.
#[tactic(auto, unfolding(moves::specs::States::state_code))]
fn code(state: &Placement) -> usize
    requires { HasPivotInWell state.now }
    ensures { result ≡ state_code state.now }
{
    usize::from(state.rotation.index()) * 230 + (usize::from(state.y) * 10 + usize::from(state.x))
}
