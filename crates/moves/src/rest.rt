// The fall of a state to its rest.
ghost use Rattle.std.specs.Prelude.{IsTrue};
ghost use Rattle.well.specs.Free.{is_free};
ghost use Rattle.well.specs.Well.{filled};
ghost use Rattle.moves.specs.Rest.{IsRest};

use srs::Placement;
use well::Well;

/// The state moved down as long as it stays free.
#[tactic(auto, using(well::proofs::CallerLemmas::free_pivot_inside, crate::proofs::RestLemmas::rests_blocked, crate::proofs::RestLemmas::falls_further, crate::proofs::RestLemmas::rests_in_row_0))]
pub fn fall(well: &Well, state: &Placement) -> Placement
    requires { IsTrue (is_free (filled well.now) state.now) }
    ensures { IsRest (filled well.now) state.now result }
{
    let mut rest = *state;
    while rest.y > 0 {
        let lower = Placement {
            y: rest.y - 1,
            ..rest
        };
        if !well.is_free(&lower) {
            return rest;
        }
        rest = lower;
    }
    rest
}
