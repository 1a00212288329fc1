// Kick rules, prepared for many floods.
ghost use Rattle.std.specs.Prelude.{◌≡◌, ◌-◌, ◌↔◌, IsTrue, false, length, slice_index_or};
ghost use Rattle.srs.specs.declared.piece.Piece.{Piece};
ghost use Rattle.srs.specs.Kick.{srs_table};
ghost use Rattle.srs.specs.Piece.{piece_code};
ghost use Rattle.srs.specs.Rules.{table_of};
ghost use Rattle.reach.specs.SameOffsets.{HaveSameOffsets};

use crate::find::places_where;
use crate::same_offsets::has_srs_offsets;
use crate::steps::Steps;
use lane_board::LaneBoard;
use low_flood::{is_clear_from, low_places};
use moves::DropMode;
use place_sets::{LowPlaces, Places};
use srs::{Piece, Rules};
use std::sync::ledger::Ledger;
use well::Well;
use whole_flood::whole_places;

/// Kick rules, and for which pieces they are those of the Super Rotation System. This is tested once for many floods.
#[derive(Clone, Copy)]
pub struct FloodRules {
    rules: Rules,
    /// For each piece, in the order of codes, whether all its offsets are those of the Super Rotation System.
    srs: [bool; 7],
    ghost seven: { length srs ≡ 7 },
    ghost known: { (piece : Piece) → IsTrue (slice_index_or srs (piece_code piece - 1) false)
        ↔ HaveSameOffsets (table_of rules) srs_table piece },
}

impl FloodRules {
    ghost use Rattle.std.specs.Prelude.{◌+◌};
    ghost use Rattle.srs.specs.declared.placement.Placement.{Placement};
    ghost use Rattle.well.specs.Well.{filled};
    ghost use Rattle.moves.specs.Place.{IsPlace};
    ghost use Rattle.place_sets.specs.Places.{holds, piece_of};
    ghost use Rattle.reach.specs.FloodRules.{flood_table};

    /// Prepares these rules.
    #[tactic(auto, unfolding(crate::specs::FloodRules::flood_table))]
    pub fn new(rules: &Rules) -> FloodRules
        ensures { flood_table result ≡ table_of rules.now }
    {
        FloodRules {
            rules: *rules,
            srs: [
                has_srs_offsets(rules, Piece::I),
                has_srs_offsets(rules, Piece::L),
                has_srs_offsets(rules, Piece::O),
                has_srs_offsets(rules, Piece::Z),
                has_srs_offsets(rules, Piece::T),
                has_srs_offsets(rules, Piece::J),
                has_srs_offsets(rules, Piece::S),
            ],
        }
    }

    /// Whether all offsets of the piece are those of the Super Rotation System.
    fn has_srs_offsets(&self, piece: Piece) -> bool
        ensures { IsTrue result ↔ HaveSameOffsets (flood_table self.now) srs_table piece }
    {
        self.srs[piece.code() as usize - 1]
    }

    #[tactic(auto, unfolding(crate::specs::FloodRules::flood_table))]
    /// The places that `places` gives by these rules. Counts one flood.
    pub fn places<L: Ledger>(
        &self,
        well: &Well,
        piece: Piece,
        drop_mode: DropMode,
        steps: &mut Steps<L>,
    ) -> Places
        ensures piece { piece_of result ≡ piece }
        ensures held { (q : Placement) → (IsTrue (holds result q))
            ↔ ((q.piece ≡ piece) × IsPlace (flood_table self.now) (filled well.now) drop_mode q) }
        ensures counted { steps.new ≡ steps.old + 1 }
    {
        let srs = self.has_srs_offsets(piece);
        places_where(well, &self.rules, srs, piece, drop_mode, steps)
    }
}

impl FloodRules {
    ghost use Rattle.std.specs.Prelude.{◌+◌, ◌≤◌};
    ghost use Rattle.srs.specs.declared.placement.Placement.{Placement};
    ghost use Rattle.lane_board.specs.Board.{field_of};
    ghost use Rattle.well.specs.LockLaws.{is_below};
    ghost use Rattle.well.specs.Well.{filled};
    ghost use Rattle.moves.specs.Place.{IsPlace};
    ghost use Rattle.place_sets.specs.LowPlaces.{holds, piece_of};
    ghost use Rattle.reach.specs.FloodRules.{flood_table};

    #[tactic(auto, unfolding(crate::specs::FloodRules::flood_table))]
    /// Those of the places that `places` gives whose cells all lie below row `rows`. Counts one flood.
    pub fn places_below<L: Ledger>(
        &self,
        well: &Well,
        piece: Piece,
        drop_mode: DropMode,
        rows: u8,
        steps: &mut Steps<L>,
    ) -> LowPlaces
        requires { rows ≤ 8 }
        ensures piece { piece_of result ≡ piece }
        ensures held { (q : Placement) → (IsTrue (holds result q)) ↔ ((q.piece ≡ piece)
            × IsPlace (flood_table self.now) (filled well.now) drop_mode q × IsTrue (is_below rows q)) }
        ensures counted { steps.new ≡ steps.old + 1 }
    {
        steps.tick();
        let filled = well.as_board();
        let srs = self.has_srs_offsets(piece);
        if srs && is_clear_from(filled, 8) {
            let states = low_places::<8>(filled, piece, drop_mode);
            return LowPlaces::of_states(piece, &states, rows);
        }
        self.whole_places_below(filled, piece, drop_mode, rows)
    }

    #[tactic(auto, unfolding(crate::specs::FloodRules::flood_table))]
    /// The same by a flood of all rows. It is not inlined, so that floods of few rows need not clear its memory.
    #[inline(never)]
    fn whole_places_below(
        &self,
        filled: &LaneBoard<24>,
        piece: Piece,
        drop_mode: DropMode,
        rows: u8,
    ) -> LowPlaces
        requires { rows ≤ 8 }
        ensures piece { piece_of result ≡ piece }
        ensures held { (q : Placement) → (IsTrue (holds result q)) ↔ ((q.piece ≡ piece)
            × IsPlace (flood_table self.now) (field_of filled.now) drop_mode q × IsTrue (is_below rows q)) }
    {
        let states = whole_places(filled, &self.rules, piece, drop_mode);
        LowPlaces::of_states(piece, &states, rows)
    }
}
