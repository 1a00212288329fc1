// The queues of a pattern after some played pieces.
ghost use Rattle.std.specs.Prelude.{◌≡◌, ◌+◌, ◌≤◌, ◌↔◌, IsTrue, length, map, take, Some};
ghost use Rattle.srs.specs.declared.piece.Piece.{Piece};
ghost use Rattle.srs.specs.Piece.{all_pieces};
ghost use Rattle.queue_pattern.specs.Pattern.{elements_of};
ghost use Rattle.hold_queue.specs.States.{AreDue, AreStatesAfter, drawn_by, in_progress};

use crate::family::{Draw, in_progress};
use crate::hold::Hold;
use crate::memory::{Following, QueueMemory};
use crate::states::{Draws, States, hash_of, index_of};
use crate::supply::{count_played, elements_with, from_hold};
use queue_pattern::{Pattern, Queue};
use srs::Piece;

/// The queues of a pattern, the hold rule, the piece held at the start (or none), and the pieces played since.
#[derive(Clone, Copy)]
pub struct QueueSet {
    pattern: Pattern,
    held: Option<Piece>,
    played: [Piece; 23],
    number: u8,
    states: States,
    ghost room: { length played ≡ 23 },
    ghost within: { number ≤ 23 },
    ghost follows: { AreStatesAfter (elements_of pattern) states.hold held states.words (take number played) },
    ghost due: { AreDue (elements_of pattern) held number states.due },
}

/// What the next piece is drawn from if a piece is held, after `number` played pieces.
fn drawn_holding(pattern: &Pattern, held: Option<Piece>, number: u8) -> Option<Draw>
    requires { number ≤ 23 }
    ensures { (piece : Piece) →
        result ≡ in_progress (elements_of pattern.now) (drawn_by held number (Some piece)) }
{
    in_progress(pattern, number + 1 - u8::from(held.is_some()))
}

impl QueueSet {
    ghost use Rattle.std.specs.Prelude.{[], ◌∷◌, ◌++◌};
    ghost use Rattle.queue_pattern.specs.Grammar.{singles};
    ghost use Rattle.hold_queue.specs.QueueSet.{queues_in_play, QueuesPermit, queues_permit};
    ghost use Rattle.hold_queue.specs.Supply.{supplies, supply_in_play};

    /// The queues of a pattern, with nothing played.
    pub fn start(pattern: &Pattern, hold: Hold, held: Option<Piece>) -> QueueSet
        ensures { queues_in_play result
            ≡ record { elements = elements_of pattern.now; hold = hold; held = held; played = [] } }
    {
        let mut words = [0; 16];
        words[index_of(held)] = 1;
        let due = Draws {
            empty_handed: in_progress(pattern, 0),
            holding: drawn_holding(pattern, held, 0),
        };
        let set = QueueSet {
            pattern: *pattern,
            held,
            played: [Piece::I; 23],
            number: 0,
            states: States {
                hold,
                due,
                words,
                hash: hash_of(&words),
            },
        };
        set.with_first_held()
    }

    /// The same queues. Where hold is allowed and a piece can be drawn, the first piece is held if nothing is held: it
    /// is as good in hand as at the front of the queue, and no family without a held piece is left to be followed.
    fn with_first_held(self) -> QueueSet
        ensures { queues_in_play result ≡ queues_in_play self }
    {
        if let Hold::Avoided = self.states.hold {
            return self;
        }
        let Some(_) = self.states.due.empty_handed else {
            return self;
        };
        let mut set = self;
        set.states.words = self.states.first_held();
        set.states.hash = hash_of(&set.states.words);
        set
    }

    /// One queue, with nothing played.
    pub fn start_one(queue: &Queue, hold: Hold, held: Option<Piece>) -> QueueSet
        ensures { queues_in_play result
            ≡ record { elements = singles queue.now.items; hold = hold; held = held; played = [] } }
    {
        QueueSet::start(&Pattern::from_queue(queue), hold, held)
    }

    /// Whether some queue permits the pieces played so far followed by this one.
    pub fn may_play(&self, piece: Piece) -> bool
        ensures permitted { IsTrue result ↔ QueuesPermit (queues_in_play self.now)
            ((queues_in_play self.now).played ++ piece ∷ []) }
        ensures value { result ≡ queues_permit (queues_in_play self.now)
            ((queues_in_play self.now).played ++ piece ∷ []) }
    {
        self.states.permits(self.states.holding(), piece)
    }

    /// For each kind, in the order of codes, whether some queue permits the pieces played so far followed by that kind.
    pub fn permitted(&self) -> [bool; 7]
        ensures { result ≡ map (λ piece. queues_permit (queues_in_play self.now)
            ((queues_in_play self.now).played ++ piece ∷ [])) all_pieces }
    {
        self.states.permitted()
    }

    /// What the next piece is drawn from if a piece is held, after one more piece.
    fn drawn_next(&self) -> Option<Draw>
        requires { self.now.number ≤ 22 }
        ensures { (piece : Piece) → result
            ≡ in_progress (elements_of self.now.pattern) (drawn_by self.now.held (self.now.number + 1) (Some piece)) }
    {
        drawn_holding(&self.pattern, self.held, self.number + 1)
    }

    /// Makes these the queues after the piece of a step from the states of others.
    fn step(&mut self, before: &QueueSet, step: &Following)
        requires before { step.now.before ≡ before.now.states }
        requires due { (piece : Piece) → step.now.after.due.holding
            ≡ in_progress (elements_of before.now.pattern) (drawn_by before.now.held (before.now.number + 1) (Some piece)) }
        requires permitted { QueuesPermit (queues_in_play before.now)
            ((queues_in_play before.now).played ++ step.now.piece ∷ []) }
        ensures set { queues_in_play self.new ≡ record (queues_in_play before.now)
            { played = (queues_in_play before.now).played ++ step.now.piece ∷ [] } }
        ensures coming { step.now.may_come ≡ map (λ piece. queues_permit (queues_in_play self.new)
            ((queues_in_play self.new).played ++ piece ∷ [])) all_pieces }
    {
        self.pattern = before.pattern;
        self.held = before.held;
        self.played = before.played;
        self.played[before.number as usize] = step.piece;
        self.number = before.number + 1;
        self.states = step.after;
    }

    /// The queues after one more piece.
    pub fn after(&self, piece: Piece) -> QueueSet
        requires { QueuesPermit (queues_in_play self.now) ((queues_in_play self.now).played ++ piece ∷ []) }
        ensures { queues_in_play result
            ≡ record (queues_in_play self.now) { played = (queues_in_play self.now).played ++ piece ∷ [] } }
    {
        let mut set = *self;
        set.step(
            self,
            &Following::new(&self.states, piece, self.drawn_next()),
        );
        set
    }

    /// Makes these the queues after one more piece than others, and returns for each kind, in the order of codes,
    /// whether some queue permits the pieces played so far followed by that kind. What comes after equal states is
    /// remembered.
    pub fn follow(&mut self, before: &QueueSet, piece: Piece, memory: &mut QueueMemory) -> [bool; 7]
        requires { QueuesPermit (queues_in_play before.now) ((queues_in_play before.now).played ++ piece ∷ []) }
        ensures set { queues_in_play self.new
            ≡ record (queues_in_play before.now) { played = (queues_in_play before.now).played ++ piece ∷ [] } }
        ensures coming { result ≡ map (λ piece. queues_permit (queues_in_play self.new)
            ((queues_in_play self.new).played ++ piece ∷ [])) all_pieces }
    {
        let due = before.drawn_next();
        let Some(step) = memory.known(&before.states, piece, due) else {
            let step = Following::new(&before.states, piece, due);
            memory.keep(&step);
            self.step(before, &step);
            return step.may_come;
        };
        self.step(before, step);
        step.may_come
    }

    /// For each kind, in the order of codes, a number that no permitted list of `left` further pieces exceeds: the
    /// smaller of `left` and the number of elements that have the kind, plus one if it is held at the start, minus the
    /// pieces of this kind played so far.
    pub fn supply(&self, left: u8) -> [u8; 7]
        ensures { result ≡ supplies (queues_in_play self.now) left }
    {
        [
            self.supply_in_play(Piece::I, left),
            self.supply_in_play(Piece::L, left),
            self.supply_in_play(Piece::O, left),
            self.supply_in_play(Piece::Z, left),
            self.supply_in_play(Piece::T, left),
            self.supply_in_play(Piece::J, left),
            self.supply_in_play(Piece::S, left),
        ]
    }

    /// The supply of one kind.
    #[tactic(auto, unfolding(crate::specs::QueueSet::queues_in_play))]
    fn supply_in_play(&self, piece: Piece, left: u8) -> u8
        ensures { result ≡ supply_in_play (queues_in_play self.now) left piece }
    {
        let at_hand = elements_with(&self.pattern, piece)
            + from_hold(self.states.hold, self.held, piece);
        let played = count_played(&self.played[..self.number as usize], piece);
        left.min(at_hand.saturating_sub(played))
    }
}
