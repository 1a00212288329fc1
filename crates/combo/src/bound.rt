// How long a run can be at most.
ghost use Rattle.std.specs.Prelude.{◌≡◌, ◌≤◌, ◌/◌, List, length, min};
ghost use Rattle.lane_board.specs.CellCount.{cell_count};
ghost use Rattle.srs.specs.declared.placement.Placement.{Placement};
ghost use Rattle.srs.specs.Kick.{Table};
ghost use Rattle.well.specs.Well.{filled};
ghost use Rattle.moves.specs.declared.key.DropMode.{DropMode};
ghost use Rattle.hold_queue.specs.declared.hold.Hold.{Hold};
ghost use Rattle.hold_queue.specs.Hand.{pieces_at};
ghost use Rattle.combo.specs.First.{IsTakenRun};

use crate::room::most_between_walls;
use hold_queue::Hand;
use queue_pattern::Queue;
use well::Well;

/// No run of the pieces at hand is longer than this. Between walls, the room there may allow fewer placements.
#[tactic(auto, using(crate::proofs::BoundLemmas::within_cells))]
pub fn most(queue: &Queue, well: &Well, hand: Hand) -> u8
    ensures each { (table : Table) (mode : DropMode) (hold : Hold) (run : List Placement)
        → IsTakenRun table mode (filled well.now) hold (pieces_at queue.now.items hand) run
        → length run ≤ result }
    ensures few { result ≤ 23 }
{
    let by_cells = most_by_cells(queue, well, hand);
    match most_between_walls(well) {
        None => by_cells,
        Some(by_room) => by_cells.min(by_room),
    }
}

/// The pieces at hand, and the cells of the field: each placement adds four cells and removes at least ten.
fn most_by_cells(queue: &Queue, well: &Well, hand: Hand) -> u8
    ensures value { result ≡ min (length (pieces_at queue.now.items hand)) (cell_count (filled well.now) 23 / 6) }
    ensures few { result ≤ 23 }
{
    let cells = 230 - well.empties_below(23);
    hand.count(queue).min(cells / 6)
}
