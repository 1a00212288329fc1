// What comes after states, remembered: a search that plays many lists of pieces meets equal states again and again.
ghost use Rattle.std.specs.Prelude.{◌≡◌, IfSome, IsTrue, map, Option, [], ◌∷◌};
ghost use Rattle.srs.specs.declared.piece.Piece.{Piece};
ghost use Rattle.srs.specs.Piece.{all_pieces};
ghost use Rattle.hold_queue.specs.States.{LeadsTo, WhereverTheyStand, states_permit};

use crate::family::Draw;
use crate::states::{Draws, States, hash_of};
use fact_table::FactTable;
use srs::Piece;
use std::alloc::Global;

/// How many steps are remembered.
const REMEMBERED: usize = 1024;

/// The states after one more piece, and which pieces may come then.
#[derive(Clone, Copy)]
pub struct Following {
    pub before: States,
    pub piece: Piece,
    pub after: States,
    /// Whether each kind may come next, in the order of codes.
    pub may_come: [bool; 7],
    ghost same_hold: { after.hold ≡ before.hold },
    ghost drawn: { after.due.empty_handed ≡ before.due.holding },
    ghost leads: { WhereverTheyStand before (λ elements start played.
        LeadsTo elements before.hold start before.words played piece after.words) },
    ghost coming: { WhereverTheyStand after (λ elements start played. may_come
        ≡ map (λ next. states_permit elements after.hold start after.words played (next ∷ [])) all_pieces) },
}

impl Following {
    /// The step by one more piece, after which the next one is drawn from `due` if a piece is held.
    pub fn new(before: &States, piece: Piece, due: Option<Draw>) -> Following
        ensures before { result.before ≡ before.now }
        ensures piece { result.piece ≡ piece }
        ensures due { result.after.due.holding ≡ due }
    {
        let words = before.next(piece);
        let after = States {
            hold: before.hold,
            due: Draws {
                empty_handed: before.due.holding,
                holding: due,
            },
            words,
            hash: hash_of(&words),
        };
        Following {
            before: *before,
            piece,
            after,
            may_come: after.permitted(),
        }
    }

    /// Whether this is the step from these states by this piece, and that `due` comes then.
    #[inline(always)]
    fn is_about(&self, before: &States, piece: Piece, due: Option<Draw>) -> bool
        ensures { IsTrue result → (self.now.before ≡ before.now) × (self.now.piece ≡ piece)
            × (self.now.after.due.holding ≡ due) }
    {
        self.piece == piece && self.after.due.holding == due && self.before == *before
    }
}

/// Remembers what comes after states. Later steps evict earlier ones.
#[derive(Drop)]
pub struct QueueMemory {
    remembered: FactTable<Option<Following>>,
}

impl QueueMemory {
    /// An empty memory. It keeps nothing if there is not enough memory.
    pub fn within_memory(alloc: Global) -> QueueMemory {
        QueueMemory {
            remembered: FactTable::within_memory(alloc, REMEMBERED),
        }
    }

    /// The step from these states by this piece after which `due` comes, if it is remembered.
    #[inline(always)]
    pub fn known(&self, before: &States, piece: Piece, due: Option<Draw>) -> Option<&Following>
        ensures before { IfSome result (λ step. step.now.before ≡ before.now) }
        ensures piece { IfSome result (λ step. step.now.piece ≡ piece) }
        ensures due { IfSome result (λ step. step.now.after.due.holding ≡ due) }
    {
        let step = self.remembered.entry(step_hash(before, piece))?.as_ref()?;
        if step.is_about(before, piece, due) {
            return Some(step);
        }
        None
    }

    /// Remembers a step.
    pub fn keep(&mut self, step: &Following) {
        self.remembered
            .put(step_hash(&step.before, step.piece), Some(*step));
    }
}

/// The hash of a question. From the same states the seven kinds have different slots: the first seven multiples of 146
/// differ, and each is less than 1,024.
#[inline(always)]
fn step_hash(before: &States, piece: Piece) -> u64 {
    before.hash ^ 146 * u64::from(piece.code())
}
