// States of the search, with what is known of them, and what may still be played after a piece.
ghost use Rattle.std.specs.Prelude.{◌≡◌, ◌+◌, ◌≤◌, min};
ghost use Rattle.lane_board.specs.Field.{difference, rows_below};
ghost use Rattle.srs.specs.declared.piece.Piece.{Piece};
ghost use Rattle.well.specs.Well.{filled};
ghost use Rattle.well.specs.LockLaws.{LiesBelow};
ghost use Rattle.hold_queue.specs.QueueSet.{queues_in_play};
ghost use Rattle.hold_queue.specs.Supply.{supply_in_play};
ghost use Rattle.empty_cells.specs.Empties.{empty_cells};
ghost use Rattle.empty_cells.specs.SupplyWords.{supply_of};

use crate::line::Line;
use empty_cells::{Empties, SupplyWord};
use well::Well;

/// How many pieces of each kind may still be played after a piece of some kind.
#[derive(Clone, Copy)]
pub struct NextSupply {
    pub supply: SupplyWord,
    /// The supply with at most as many pieces of each kind as placements come after the next one.
    pub limited: SupplyWord,
}

/// A state of the search: the well with the rows that are left, and what may still be played there.
#[derive(Clone, Copy)]
pub struct Setup {
    pub well: Well,
    /// How many rows are left.
    pub rows: u8,
    /// The empty cells of the rows that are left.
    pub empties: Empties,
    pub line: Line,
    /// How many pieces of each kind may still be played.
    pub supply: SupplyWord,
    /// How many placements come after the next one.
    pub left: u8,
    /// The supply with at most `left` pieces of each kind.
    pub limited: SupplyWord,
    /// At least as many as the supply has of any kind.
    pub most: u8,
    ghost low: { rows ≤ 8 },
    ghost few: { left ≤ 19 },
    ghost bounded: { LiesBelow (filled well) rows },
    ghost emptied: { empty_cells empties ≡ difference (rows_below rows) (filled well) },
    ghost supplied: { supply_of supply ≡ supply_in_play (queues_in_play line.queues) (left + 1) },
    ghost limits: { (piece : Piece) → supply_of limited piece ≡ min left (supply_of supply piece) },
    ghost few_of_each: { (piece : Piece) → supply_of supply piece ≤ most },
}
