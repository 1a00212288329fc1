// The placements that a flood found.
ghost use Rattle.std.specs.Prelude.{◌≡◌};

use crate::numbers::Numbers;
use crate::pivots::Pivots;
use crate::scan::{first_state, state_with};
use crate::tops::pivot_bounds;
use srs::{Piece, Placement};

/// The canonical placements of one piece that a flood found.
#[derive(Clone, Copy)]
pub struct Places {
    piece: Piece,
    numbers: Numbers,
}

impl Places {
    ghost use Rattle.std.specs.Prelude.{◌↔◌, ◌≢◌, ◌==◌, ◌&&◌, IsTrue, IfSome, Some, None};
    ghost use Rattle.std.specs.Option.{option_copied};
    ghost use Rattle.srs.specs.Order.{placement_cmp};
    ghost use Rattle.srs.specs.Piece.{piece_code};
    ghost use Rattle.srs.specs.Rising.{IsNextAbove};
    ghost use Rattle.well.specs.LockLaws.{is_below};
    ghost use Rattle.place_sets.specs.Places.{holds, piece_of};
    ghost use Rattle.place_sets.specs.States.{has_state, states_of};

    /// The placements of a piece with these pivots.
    #[tactic(auto, unfolding(crate::specs::Places::piece_of, crate::specs::Places::holds))]
    pub fn of_states(piece: Piece, states: &Pivots<24>) -> Places
        ensures piece { piece_of result ≡ piece }
        ensures held { (q : Placement) → holds result q
            ≡ (piece_code q.piece == piece_code piece && has_state (states_of states.now) q) }
    {
        Places {
            piece,
            numbers: Numbers::of_states(states),
        }
    }

    #[tactic(auto, unfolding(crate::specs::Places::holds))]
    /// Whether the placement is one of these.
    pub fn contains(&self, placement: &Placement) -> bool
        ensures { result ≡ holds self.now placement.now }
    {
        placement.piece.code() == self.piece.code() && self.numbers.has(placement)
    }

    /// The least of these placements above the bound, or the least of all if there is no bound. `None` exactly if there
    /// is none.
    pub fn next_after(&self, bound: Option<&Placement>) -> Option<Placement>
        requires { IfSome (option_copied bound) (λ q. q.piece ≡ piece_of self.now) }
        ensures { IsNextAbove placement_cmp (λ q. IsTrue (holds self.now q)) (option_copied bound.entry) result }
    {
        match bound {
            None => first_state(&self.numbers, self.piece, 0, 0, 0),
            Some(last) => first_state(
                &self.numbers,
                self.piece,
                last.rotation.index(),
                last.y,
                u16::from(last.x) + 1,
            ),
        }
    }

    /// Removes the least placement and returns it. `None` exactly if there is none.
    pub fn take_least(&mut self) -> Option<Placement>
        ensures piece { piece_of self.new ≡ piece_of self.old }
        ensures least { IsNextAbove placement_cmp (λ q. IsTrue (holds self.old q)) None result }
        ensures rest { (q : Placement) → IsTrue (holds self.new q) ↔ (IsTrue (holds self.old q) × (result ≢ Some q)) }
    {
        match self.numbers.take_first() {
            None => None,
            Some(number) => Some(state_with(self.piece, number)),
        }
    }

    /// The placements among these whose cells all lie below row `rows`.
    pub fn below(&self, rows: u8) -> Places
        ensures piece { piece_of result ≡ piece_of self.now }
        ensures held { (q : Placement) → IsTrue (holds result q)
            ↔ (IsTrue (holds self.now q) × IsTrue (is_below rows q)) }
    {
        Places {
            piece: self.piece,
            numbers: self.numbers.in_rows_below(pivot_bounds(self.piece, rows)),
        }
    }
}
