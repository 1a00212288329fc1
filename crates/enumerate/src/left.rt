// The placements of a flood that are still to be entered.
ghost use Rattle.std.specs.Prelude.{◌≡◌, IsTrue, MatchOption, Option, Some, None, Contains, [], ◌∷◌};
ghost use Rattle.srs.specs.declared.placement.Placement.{Placement};
ghost use Rattle.srs.specs.Order.{placement_cmp};
ghost use Rattle.srs.specs.Placements.{placements_of};
ghost use Rattle.srs.specs.Rising;
ghost use Rattle.place_sets.specs.LowPlaces.{holds, piece_of};
ghost use Rattle.enumerate.specs.Frames.{places_left};

use reach::LowPlaces;
use srs::{Placement, compare};
use std::cmp::Ordering;

/// Whether a placement comes after the bound. If there is no bound, every placement does.
fn is_above(bound: &Option<Placement>, placement: &Placement) -> bool
    ensures { result ≡ Rising.is_above placement_cmp bound.now placement.now }
{
    match bound {
        None => true,
        Some(bound) => matches!(compare(bound, placement), Ordering::Less),
    }
}

/// Removes the least placement above the bound, and all before it. Returns it; `None` exactly if none is above the
/// bound.
pub fn take_above(places: &mut LowPlaces, bound: &Option<Placement>) -> Option<Placement>
    requires { (q : Placement) → IsTrue (holds places.old q) → Contains (placements_of (piece_of places.old)) q }
    ensures piece { piece_of places.new ≡ piece_of places.old }
    ensures held { (q : Placement) → IsTrue (holds places.new q) → IsTrue (holds places.old q) }
    ensures next { MatchOption result
        ((places_left (Some places.old) bound.now ≡ []) × (places_left (Some places.new) bound.now ≡ []))
        (λ q. (places_left (Some places.old) bound.now ≡ q ∷ places_left (Some places.new) (Some q))
        × IsTrue (holds places.old q)) }
{
    while let Some(placement) = places.take_least() {
        if is_above(bound, &placement) {
            return Some(placement);
        }
    }
    None
}
