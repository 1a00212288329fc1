// Laws of the definitions: functions with an empty body whose contract is the law.
ghost use Rattle.std.specs.Prelude.{◌≡◌, ◌↔◌, IsTrue, true, Some, List};
ghost use Rattle.lane_board.specs.Field.{Field};
ghost use Rattle.srs.specs.declared.piece.Piece.{Piece};
ghost use Rattle.srs.specs.declared.placement.Placement.{Placement};
ghost use Rattle.srs.specs.Kick.{Table};
ghost use Rattle.well.specs.Free.{is_free};
ghost use Rattle.moves.specs.declared.key.DropMode.{DropMode};
ghost use Rattle.moves.specs.declared.key.Key.{Key};
ghost use Rattle.moves.specs.Keys.{all_keys};
ghost use Rattle.moves.specs.Leads.{state_after};
ghost use Rattle.moves.specs.Place.{IsPlace};
ghost use Rattle.moves.specs.PlaceTest.{is_place};
ghost use Rattle.moves.specs.Rest.{IsRest, rest_of};
ghost use Rattle.moves.specs.SkyLaws.{TurnsKeepTheHeight, SkyIsReached, PlacesAreRests, AllRestsArePlaces};
ghost use Rattle.moves.specs.SkyLaws.{HardPlacesLieUnderTheSky, WindowLosesNothing};
ghost use Rattle.moves.specs.Step.{step_of};

use crate::key::Key;

/// `Key::ALL` lists the keys in the order of their letters.
pub fn all_keys_are_listed()
    ensures { Key.ALL ≡ all_keys }
{}

/// From any state, a key leads only to free states of the same piece.
pub fn steps_stay_free()
    ensures free { (table : Table) (F : Field) (state : Placement) (key : Key) (next : Placement) →
        step_of table F state key ≡ Some next → IsTrue (is_free F next) }
    ensures piece { (table : Table) (F : Field) (state : Placement) (key : Key) (next : Placement) →
        step_of table F state key ≡ Some next → next.piece ≡ state.piece }
{}

/// From the spawn, keys lead only to free states of its piece.
pub fn keys_stay_free()
    ensures free { (table : Table) (F : Field) (piece : Piece) (keys : List Key) (state : Placement) →
        state_after table F piece keys ≡ Some state → IsTrue (is_free F state) }
    ensures piece { (table : Table) (F : Field) (piece : Piece) (keys : List Key) (state : Placement) →
        state_after table F piece keys ≡ Some state → state.piece ≡ piece }
{}

/// A free state has exactly one rest: the state that `rest_of` names.
pub fn free_states_have_one_rest()
    ensures one { (F : Field) (state : Placement) → IsTrue (is_free F state) → IsRest F state (rest_of F state) }
    ensures no_other { (F : Field) (state rest : Placement) → IsTrue (is_free F state) → IsRest F state rest →
        rest ≡ rest_of F state }
{}

/// `is_place` decides whether legal keys reach a placement.
pub fn places_are_decided()
    ensures { (table : Table) (F : Field) (mode : DropMode) (placement : Placement) →
        (is_place table F mode placement ≡ true) ↔ IsPlace table F mode placement }
{}

/// From two rows above the stack up to the height of the spawn, both turns succeed and keep the upright height.
pub fn turns_keep_the_height()
    ensures { TurnsKeepTheHeight }
{}

/// With soft drop, keys lead to every state under the sky that is no higher than the spawn.
#[tactic(auto, using(crate::proofs::SkyLemmas::sky_is_reached))]
pub fn sky_is_reached()
    ensures { SkyIsReached }
{}

/// With soft drop, the places are the resting states that keys lead to. If keys lead to every resting state, all of
/// them are places.
#[tactic(auto, using(crate::proofs::SoftPlaces::soft_places, crate::proofs::SoftPlaces::early_end))]
pub fn rests_are_places()
    ensures reached { PlacesAreRests }
    ensures all { AllRestsArePlaces }
{}

/// With hard drop, the places are the resting states under the sky.
pub fn hard_places_lie_under_the_sky()
    ensures { HardPlacesLieUnderTheSky }
{}

/// A window of sixteen rows, from just above a stack of up to eight rows, has the same places as the whole well.
pub fn window_loses_nothing()
    ensures { WindowLosesNothing }
{}
