// The tails of a pattern's queues, and the pieces at hand.
ghost use Rattle.std.specs.Prelude.{[], ◌≡◌, ◌+◌, ◌<◌, ◌≤◌, ℕ, IfOk, None, length, slice_index_or, true};
ghost use Rattle.queue_pattern.specs.Pattern.{elements_of};
ghost use Rattle.queue_pattern.specs.Queues.{queue_len, queues};
ghost use Rattle.hold_queue.specs.AtHand.{at_hand, count_held, playable};
ghost use Rattle.hold_queue.specs.declared.hold.Hold.TheVariants.{Allowed};
ghost use Rattle.hands.specs.Hands.{number_of};
ghost use Rattle.tails.specs.States.{state_at};
ghost use Rattle.tails.specs.TailSets.{has};
ghost use Rattle.tails.specs.Tails.{AreTails, IsTail, hand_at, start_tail};

use crate::numbers::{parts_of, tail_number};
use crate::states::State;
use crate::tail_set::TailSet;
use crate::tree::TailTree;
use hold_queue::Hold;
use pc_outside::NoMemory;
use queue_pattern::sets::{is_in, nth};
use srs::Piece;
use std::alloc::Global;

impl TailTree {
    /// The number of the pieces at hand: the held one, and those that a tail draws.
    #[inline(always)]
    pub fn hand(&self, tail: u64) -> u64
        requires { IsTail self.now tail }
        ensures { result ≡ hand_at self.now tail }
    {
        let (state, held, place) = parts_of(tail);
        let number = self.lists.number(self.states.as_slice(), state, place);
        if held == 0 {
            return number;
        }
        u64::from(held) + 8 * number
    }

    /// The tail of the queue with this number, counted from 0, behind a held piece. Where hold is allowed and none is
    /// held, the first piece of the queue is.
    #[inline(always)]
    pub fn start(&self, held: Option<Piece>, number: u32) -> u64
        requires within { number < length (queues (elements_of self.now.pattern)) }
        requires room { count_held (playable self.now.hold held) + queue_len (elements_of self.now.pattern) ≤ 21 }
        ensures value { result ≡ start_tail self.now held number }
        ensures tail { IsTail self.now result }
        ensures hand { hand_at self.now result ≡ number_of (at_hand self.now.hold held
            (slice_index_or (queues (elements_of self.now.pattern)) number [])) }
    {
        if let Some(piece) = self.hold.playable(held) {
            return tail_number(self.first, piece.code(), number);
        }
        let state = self.states[usize::from(self.first)];
        match self.hold {
            Hold::Allowed if state.draws > 0 => {
                let letter = nth(state.set, number / state.each);
                let next = state.next[usize::from(letter.code())];
                tail_number(next, letter.code(), number % state.each)
            }
            _ => tail_number(self.first, 0, number),
        }
    }

    /// The tails of all queues behind a held piece, and no others.
    pub fn all(&self, alloc: Global, held: Option<Piece>) -> Result<TailSet, NoMemory>
        requires room { count_held (playable self.now.hold held) + queue_len (elements_of self.now.pattern) ≤ 21 }
        ensures tails { IfOk result (λ all. AreTails self.now (has all)) }
        ensures all { IfOk result (λ all. (number : ℕ) → number < length (queues (elements_of self.now.pattern))
            → has all (start_tail self.now held number) ≡ true) }
        ensures only { IfOk result (λ all. (tail : ℕ) → has all tail ≡ true
            → (number : ℕ) × (number < length (queues (elements_of self.now.pattern)))
            × (tail ≡ start_tail self.now held number)) }
    {
        if let Some(piece) = self.hold.playable(held) {
            let first = tail_number(self.first, piece.code(), 0);
            return TailSet::run(alloc, first, self.pattern.count());
        }
        let state = self.states[usize::from(self.first)];
        match self.hold {
            Hold::Allowed if state.draws > 0 => self.all_behind_letters(alloc, state),
            _ => TailSet::run(alloc, tail_number(self.first, 0, 0), state.count),
        }
    }

    /// The tails of all queues, the first piece of which is held, and no others.
    fn all_behind_letters(&self, alloc: Global, state: State) -> Result<TailSet, NoMemory>
        requires hold { self.now.hold ≡ Allowed }
        requires state { state ≡ state_at self.now.states.items self.now.first }
        requires draws { 0 < state.draws }
        ensures tails { IfOk result (λ all. AreTails self.now (has all)) }
        ensures all { IfOk result (λ all. (number : ℕ) → number < length (queues (elements_of self.now.pattern))
            → has all (start_tail self.now None number) ≡ true) }
        ensures only { IfOk result (λ all. (tail : ℕ) → has all tail ≡ true
            → (number : ℕ) × (number < length (queues (elements_of self.now.pattern)))
            × (tail ≡ start_tail self.now None number)) }
    {
        let mut all = TailSet::none(alloc);
        for letter in Piece::ALL {
            if is_in(letter, state.set) {
                let next = state.next[usize::from(letter.code())];
                let run = TailSet::run(alloc, tail_number(next, letter.code(), 0), state.each)?;
                all = all.merged(alloc, &run)?;
            }
        }
        Ok(all)
    }
}
