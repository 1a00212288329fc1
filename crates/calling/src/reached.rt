// The places of a piece.
ghost use Rattle.std.specs.Prelude.{◌≡◌, ◌<◌, ◌↔◌, IsTrue};
ghost use Rattle.srs.specs.declared.placement.Placement.{Placement};
ghost use Rattle.srs.specs.Rules.{table_of};
ghost use Rattle.well.specs.Well.{filled};
ghost use Rattle.moves.specs.Place.{IsPlace};
ghost use Rattle.place_sets.specs.Places.{holds, piece_of};
ghost use Rattle.calling.specs.Counts.{IsPlaceCount};

use moves::DropMode;
use reach::{Places, Steps, places};
use srs::{Piece, Rules};
use std::marker::Brand;
use std::sync::ledger::{Blank, Ledger};
use well::Well;

/// The places, with a counter that is dropped.
fn places_by<L: Ledger>(
    blank: Blank,
    well: &Well,
    rules: &Rules,
    piece: Piece,
    drop_mode: DropMode,
) -> Places
    requires name { blank.name ≡ L.name }
    requires parts { blank.parts ≡ L.parts }
    requires some { 0 < blank.parts }
    ensures piece { piece_of result ≡ piece }
    ensures held { (q : Placement) → (IsTrue (holds result q))
        ↔ ((q.piece ≡ piece) × IsPlace (table_of rules.now) (filled well.now) drop_mode q) }
{
    let mut steps = Steps::<L>::new(blank);
    places(well, rules, piece, drop_mode, &mut steps)
}

/// The places that `reach::places` gives, for a caller that counts no floods.
pub fn places_uncounted(well: &Well, rules: &Rules, piece: Piece, drop_mode: DropMode) -> Places
    ensures piece { piece_of result ≡ piece }
    ensures held { (q : Placement) → (IsTrue (holds result q))
        ↔ ((q.piece ≡ piece) × IsPlace (table_of rules.now) (filled well.now) drop_mode q) }
{
    places_by::<Brand>(Blank::new(1), well, rules, piece, drop_mode)
}

/// How many placements of a piece legal keys lead to from the spawn. 0 if the spawn is not free.
pub fn count_places(well: &Well, rules: &Rules, piece: Piece, drop_mode: DropMode) -> u16
    ensures { IsPlaceCount (table_of rules.now) (filled well.now) drop_mode piece result }
{
    let mut held = places_uncounted(well, rules, piece, drop_mode);
    let mut count = 0;
    'places: while let Some(_) = held.take_least() {
        count += 1;
    }
    count
}
