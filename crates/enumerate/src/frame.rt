// One level of the search: a state, and which of its next placements are still to be searched.
ghost use Rattle.std.specs.Prelude.{◌≡◌, IsTrue};
ghost use Rattle.std.specs.Option.{ForSome};
ghost use Rattle.srs.specs.declared.placement.Placement.{Placement};
ghost use Rattle.well.specs.Well.{filled};
ghost use Rattle.well.specs.LockLaws.{is_below};
ghost use Rattle.place_sets.specs.LowPlaces.{holds, piece_of};
ghost use Rattle.hold_queue.specs.QueueSet.{queues_in_play};
ghost use Rattle.enumerate.specs.SearchState.{may_play};
ghost use Rattle.enumerate.specs.Setups.{IsSupplyAfter, LeadsOn};
ghost use Rattle.enumerate.specs.Standing.{may_lock};

use crate::setup::{NextSupply, Setup};
use reach::LowPlaces;
use srs::Placement;

/// A state, how many kinds were tried there, and the places of the last of them with the one that was entered last.
#[derive(Clone, Copy)]
pub struct Frame {
    pub setup: Setup,
    /// How many kinds were tried.
    pub tried: u8,
    pub places: Option<LowPlaces>,
    /// What may still be played after one of the places.
    pub next_supply: NextSupply,
    /// Whether each of the places is known to leave a tiling.
    pub are_live: bool,
    pub entered: Option<Placement>,
    ghost lockable: { ForSome places (λ p. (q : Placement) → IsTrue (holds p q) →
        IsTrue (may_lock (filled setup.well) (piece_of p) q)) },
    ghost held_below: { ForSome places (λ p. (q : Placement) → IsTrue (holds p q) → IsTrue (is_below setup.rows q)) },
    ghost permitted: { ForSome places (λ p. IsTrue (may_play (queues_in_play setup.line.queues) (piece_of p))) },
    ghost supplied: { ForSome places (λ p. IsSupplyAfter setup (piece_of p) next_supply) },
    ghost live: { IsTrue are_live → ForSome places (λ p. (q : Placement) → IsTrue (holds p q) → LeadsOn setup q) },
    ghost same_piece: { ForSome places (λ p. ForSome entered (λ q. q.piece ≡ piece_of p)) },
}
