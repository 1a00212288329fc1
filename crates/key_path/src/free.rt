// The free states of a well, kept as boards, and keys that nothing hinders.
ghost use Rattle.std.specs.Prelude.{◌≡◌, ◌≤◌, ◌<◌, ◌⊎◌, IfSome, IsTrue, true, pos, List, ◌∷◌};
ghost use Rattle.srs.specs.Cells.{Cell, moved, pivot_of, HasPivotInWell};
ghost use Rattle.srs.specs.Kick.{pair_of};
ghost use Rattle.srs.specs.Rotation.{clockwise_of, anticlockwise_of};
ghost use Rattle.srs.specs.Rules.{table_of};
ghost use Rattle.well.specs.Free.{is_free, is_free_at};
ghost use Rattle.well.specs.Well.{filled};
ghost use Rattle.moves.specs.Step.{IsShort, first_free, step_of, turned};
ghost use Rattle.place_sets.specs.States.{states_of};
ghost use Rattle.whole_flood.specs.FreePivots.{IsFreeMap};

use moves::{Key, step};
use place_sets::Pivots;
use srs::{Offset, Piece, Placement, Rotation, Rules, kick};
use well::Well;
use whole_flood::free_states;

/// A well, and the states in which a piece is free in it.
#[derive(Drop)]
pub(crate) struct FreeStates {
    pub(crate) well: Well,
    pub(crate) piece: Piece,
    free: Pivots<24>,
    ghost exact: { IsFreeMap (filled well) piece (states_of free) },
}

impl FreeStates {
    /// The free states of a piece in a well.
    pub(crate) fn of(well: &Well, piece: Piece) -> FreeStates
        ensures well { result.well ≡ well.now }
        ensures kind { result.piece ≡ piece }
    {
        FreeStates {
            well: *well,
            piece,
            free: free_states(well.as_board(), piece),
        }
    }

    /// The state that a key leads to by these rules. `None` if the key makes no move.
    pub(crate) fn step(&self, rules: &Rules, state: &Placement, key: Key) -> Option<Placement>
        requires kind { state.now.piece ≡ self.now.piece }
        requires free { IsTrue (is_free (filled self.now.well) state.now) }
        ensures { result ≡ step_of (table_of rules.now) (filled self.now.well) state.now key }
    {
        if let Some(next) = self.unhindered(rules, state, key) {
            return Some(next);
        }
        step(&self.well, rules, state, key)
    }

    /// The state that a key leads to, if its first test already makes it free.
    fn unhindered(&self, rules: &Rules, state: &Placement, key: Key) -> Option<Placement>
        requires kind { state.now.piece ≡ self.now.piece }
        requires pivot { HasPivotInWell state.now }
        ensures { IfSome result (λ next.
            step_of (table_of rules.now) (filled self.now.well) state.now key ≡ Some next) }
    {
        match key {
            Key::Left => self.moved(state, state.rotation, Offset { dx: -1, dy: 0 }),
            Key::Right => self.moved(state, state.rotation, Offset { dx: 1, dy: 0 }),
            Key::Down => self.moved(state, state.rotation, Offset { dx: 0, dy: -1 }),
            Key::Clockwise => self.turned(rules, state, state.rotation.clockwise()),
            Key::Anti => self.turned(rules, state, state.rotation.anticlockwise()),
        }
    }

    /// The state in another rotation, if the first test makes it free.
    fn turned(&self, rules: &Rules, state: &Placement, to: Rotation) -> Option<Placement>
        requires kind { state.now.piece ≡ self.now.piece }
        requires pivot { HasPivotInWell state.now }
        requires neighbour { (to ≡ clockwise_of state.now.rotation) ⊎ (to ≡ anticlockwise_of state.now.rotation) }
        ensures { IfSome result (λ next.
            turned (table_of rules.now) (filled self.now.well) state.now to ≡ Some next) }
    {
        self.moved(state, to, kick(rules, state.piece, state.rotation, to, 1))
    }

    /// The state in this rotation with its pivot moved, if a board has it.
    fn moved(&self, state: &Placement, rotation: Rotation, change: Offset) -> Option<Placement>
        requires kind { state.now.piece ≡ self.now.piece }
        requires pivot { HasPivotInWell state.now }
        requires short { IsShort change }
        ensures { IfSome result (λ next. (pivots : List Cell) →
            first_free (filled self.now.well) state.now.piece rotation
            (moved (pivot_of state.now) (pair_of change) ∷ pivots) ≡ Some next) }
    {
        let x = state.x as i8 + change.dx;
        let y = state.y as i8 + change.dy;
        if x < 0 || 9 < x || y < 0 || 22 < y {
            return None;
        }
        let next = Placement {
            piece: state.piece,
            rotation,
            x: x as u8,
            y: y as u8,
        };
        if self.has(&next) {
            return Some(next);
        }
        None
    }

    /// Whether a board has the state.
    fn has(&self, state: &Placement) -> bool
        requires column { state.now.x ≤ 9 }
        requires row { state.now.y ≤ 22 }
        ensures { result ≡ true → is_free_at (filled self.now.well) self.now.piece state.now.rotation
            (pos state.now.x, pos state.now.y) ≡ true }
    {
        self.free.board(state.rotation).get(state.x, state.y)
    }
}
