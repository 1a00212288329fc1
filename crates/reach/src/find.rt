// The placements that legal keys reach.
ghost use Rattle.std.specs.Prelude.{◌≡◌, ℕ, ◌+◌, ◌≤◌, ◌↔◌, IsTrue};
ghost use Rattle.srs.specs.declared.placement.Placement.{Placement};
ghost use Rattle.srs.specs.Kick.{srs_table};
ghost use Rattle.srs.specs.Rules.{table_of};
ghost use Rattle.well.specs.Well.{filled};
ghost use Rattle.well.specs.LockLaws.{LiesBelow};
ghost use Rattle.moves.specs.Place.{IsPlace};
ghost use Rattle.moves.specs.Window.{IsWindowPlace};
ghost use Rattle.place_sets.specs.States.{HasExactly, states_of};
ghost use Rattle.place_sets.specs.Places.{holds, piece_of};
ghost use Rattle.reach.specs.SameOffsets.{HaveSameOffsets};

use crate::same_offsets::has_srs_offsets;
use crate::steps::Steps;
use low_flood::{is_clear_from, low_places};
use moves::DropMode;
use place_sets::{Pivots, Places};
use srs::{Piece, Rules};
use std::sync::ledger::Ledger;
use well::Well;
use whole_flood::whole_places;

/// The places of a piece: its canonical placements with the cells in which some state comes to rest that allowed keys
/// lead to from the spawn. There are none if the spawn is not free. Counts one flood.
pub fn places<L: Ledger>(
    well: &Well,
    rules: &Rules,
    piece: Piece,
    drop_mode: DropMode,
    steps: &mut Steps<L>,
) -> Places
    ensures piece { piece_of result ≡ piece }
    ensures held { (q : Placement) → (IsTrue (holds result q))
        ↔ ((q.piece ≡ piece) × IsPlace (table_of rules.now) (filled well.now) drop_mode q) }
    ensures counted { steps.new ≡ steps.old + 1 }
{
    let srs = has_srs_offsets(rules, piece);
    places_where(well, rules, srs, piece, drop_mode, steps)
}

/// The same places. `srs` may be true only if all offsets of the piece are those of the Super Rotation System.
pub(crate) fn places_where<L: Ledger>(
    well: &Well,
    rules: &Rules,
    srs: bool,
    piece: Piece,
    drop_mode: DropMode,
    steps: &mut Steps<L>,
) -> Places
    requires { IsTrue srs → HaveSameOffsets (table_of rules.now) srs_table piece }
    ensures piece { piece_of result ≡ piece }
    ensures held { (q : Placement) → (IsTrue (holds result q))
        ↔ ((q.piece ≡ piece) × IsPlace (table_of rules.now) (filled well.now) drop_mode q) }
    ensures counted { steps.new ≡ steps.old + 1 }
{
    steps.tick();
    let held = pivots_where(well, rules, srs, piece, drop_mode);
    Places::of_states(piece, &held)
}

/// The pivots of these places.
fn pivots_where(
    well: &Well,
    rules: &Rules,
    srs: bool,
    piece: Piece,
    drop_mode: DropMode,
) -> Pivots<24>
    requires { IsTrue srs → HaveSameOffsets (table_of rules.now) srs_table piece }
    ensures { HasExactly (IsPlace (table_of rules.now) (filled well.now) drop_mode) piece (states_of result) }
{
    let filled = well.board();
    if srs && is_clear_from(&filled, 8) {
        return low_places::<24>(&filled, piece, drop_mode);
    }
    whole_places(&filled, rules, piece, drop_mode)
}

/// Whether all cells lie below row 8, as `window_places` requires.
pub fn is_low(well: &Well) -> bool
    ensures { IsTrue result ↔ LiesBelow (filled well.now) 8 }
{
    is_clear_from(&well.board(), 8)
}

/// The same places by the Super Rotation System, if all cells lie below row 8. Keys lead to them within rows 0 to 15,
/// from two to four rows above all cells. Counts one flood.
pub fn window_places<L: Ledger>(
    well: &Well,
    piece: Piece,
    drop_mode: DropMode,
    steps: &mut Steps<L>,
) -> Places
    requires { LiesBelow (filled well.now) 8 }
    ensures piece { piece_of result ≡ piece }
    ensures held { (q : Placement) → (IsTrue (holds result q))
        ↔ ((q.piece ≡ piece) × IsPlace srs_table (filled well.now) drop_mode q) }
    ensures window { (r : ℕ) (q : Placement) → LiesBelow (filled well.now) r → r ≤ 8 → (IsTrue (holds result q))
        ↔ ((q.piece ≡ piece) × IsWindowPlace (filled well.now) r drop_mode q) }
    ensures counted { steps.new ≡ steps.old + 1 }
{
    steps.tick();
    let held = low_places::<24>(&well.board(), piece, drop_mode);
    Places::of_states(piece, &held)
}
