// Whether a state comes to rest on the target's cells.
ghost use Rattle.std.specs.Prelude.{◌≡◌, IsTrue};
ghost use Rattle.srs.specs.Canonical.{IsCanonical};
ghost use Rattle.well.specs.Free.{is_free};
ghost use Rattle.well.specs.Well.{filled};
ghost use Rattle.moves.specs.PlaceTest.{comes_to_rest};

use moves::fall;
use srs::{Placement, canonical};
use well::Well;

/// Whether the state comes to rest on the cells of the canonical placement.
pub(crate) fn rests_on(well: &Well, aim: &Placement, state: &Placement) -> bool
    requires canonical { IsCanonical aim.now }
    requires kind { state.now.piece ≡ aim.now.piece }
    requires free { IsTrue (is_free (filled well.now) state.now) }
    ensures { result ≡ comes_to_rest (filled well.now) aim.now state.now }
{
    // A fall changes only the row, so few states have to fall.
    let above = canonical(state);
    if above.rotation.index() != aim.rotation.index() || above.x != aim.x {
        return false;
    }
    canonical(&fall(well, state)).y == aim.y
}
