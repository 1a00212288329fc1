// The spawn, and what one key does.
ghost use Rattle.std.specs.Prelude.{◌≡◌, ◌⊎◌, IsTrue, [], ◌∷◌};
ghost use Rattle.srs.specs.Cells.{moved, pivot_of};
ghost use Rattle.srs.specs.Kick.{pair_of};
ghost use Rattle.srs.specs.Rotation.{clockwise_of, anticlockwise_of};
ghost use Rattle.srs.specs.Rules.{table_of};
ghost use Rattle.well.specs.Free.{is_free};
ghost use Rattle.well.specs.Well.{filled};
ghost use Rattle.moves.specs.Leads.{spawn_of};
ghost use Rattle.moves.specs.Step.{first_free, IsShort, shifted, turned, step_of};

use crate::key::Key;
use srs::{Offset, Piece, Placement, Rotation, Rules, kick};
use well::Well;

/// The state in which a piece spawns: rotation 0, with its pivot in column 4 and row 20.
pub fn spawn(piece: Piece) -> Placement
    ensures { result ≡ spawn_of piece }
{
    Placement {
        piece,
        rotation: Rotation::Spawn,
        x: 4,
        y: 20,
    }
}

/// The state that a key leads to by these rules. `None` if the key makes no move.
pub fn step(well: &Well, rules: &Rules, state: &Placement, key: Key) -> Option<Placement>
    requires { IsTrue (is_free (filled well.now) state.now) }
    ensures { result ≡ step_of (table_of rules.now) (filled well.now) state.now key }
{
    match key {
        Key::Left => shifted(well, state, Offset { dx: -1, dy: 0 }),
        Key::Right => shifted(well, state, Offset { dx: 1, dy: 0 }),
        Key::Down => shifted(well, state, Offset { dx: 0, dy: -1 }),
        Key::Clockwise => turned(well, rules, state, state.rotation.clockwise()),
        Key::Anti => turned(well, rules, state, state.rotation.anticlockwise()),
    }
}

/// The state with its pivot moved, if that is free.
fn shifted(well: &Well, state: &Placement, change: Offset) -> Option<Placement>
    requires free { IsTrue (is_free (filled well.now) state.now) }
    requires short { IsShort change }
    ensures { result ≡ shifted (filled well.now) state.now (pair_of change) }
{
    free_at(well, state, state.rotation, change)
}

/// The state in another rotation, by the first of the five tests that leads to a free one.
fn turned(well: &Well, rules: &Rules, state: &Placement, to: Rotation) -> Option<Placement>
    requires free { IsTrue (is_free (filled well.now) state.now) }
    requires neighbour { (to ≡ clockwise_of state.now.rotation) ⊎ (to ≡ anticlockwise_of state.now.rotation) }
    ensures { result ≡ turned (table_of rules.now) (filled well.now) state.now to }
{
    for test in 1..6 {
        let change = kick(rules, state.piece, state.rotation, to, test);
        if let Some(next) = free_at(well, state, to, change) {
            return Some(next);
        }
    }
    None
}

/// The state in this rotation with its pivot moved, if that is free.
#[tactic(auto, using(well::proofs::CallerLemmas::free_pivot_inside, std::proofs::lemmas::Int::ints, crate::proofs::TurnLemmas::none_outside, crate::proofs::TurnLemmas::some_inside), unfolding(srs::specs::Cells::moved))]
fn free_at(well: &Well, state: &Placement, rotation: Rotation, change: Offset) -> Option<Placement>
    requires free { IsTrue (is_free (filled well.now) state.now) }
    requires short { IsShort change }
    ensures { result ≡ first_free (filled well.now) state.now.piece rotation
        (moved (pivot_of state.now) (pair_of change) ∷ []) }
{
    let x = state.x as i8 + change.dx;
    let y = state.y as i8 + change.dy;
    if x < 0 || y < 0 {
        return None;
    }
    let next = Placement {
        piece: state.piece,
        rotation,
        x: x as u8,
        y: y as u8,
    };
    well.is_free(&next).then_some(next)
}
