// Laws of the definitions: functions with an empty body whose contract is the law.
ghost use Rattle.std.specs.Prelude.{◌≡◌, ◌≤◌, ◌*◌, ◌+◌, ℕ, Bool, List, Option, length};
ghost use Rattle.lane_board.specs.Field.{Field};
ghost use Rattle.lane_board.specs.CellCount.{cell_count};
ghost use Rattle.srs.specs.declared.piece.Piece.{Piece};
ghost use Rattle.srs.specs.declared.placement.Placement.{Placement};
ghost use Rattle.srs.specs.Kick.{Table};
ghost use Rattle.moves.specs.declared.key.DropMode.{DropMode};
ghost use Rattle.hold_queue.specs.declared.hold.Hold.{Hold};
ghost use Rattle.problem.specs.Runs.{Runs};
ghost use Rattle.combo.specs.Longest.{IsLongest};
ghost use Rattle.combo.specs.Room.{HasWalls, open_gaps};
ghost use Rattle.well.specs.Counts.{empties_below};

/// A field, its rules and a queue have at most one longest run: ties go to the first in order.
#[tactic(auto, using(crate::proofs::LongestLemmas::one_longest))]
pub fn longest_runs_are_determined()
    ensures { (table : Table) (mode : DropMode) (F : Field) (hold : Hold) (queue : List Piece) (held : Option Piece)
        (one other : List Placement) → IsLongest table mode F hold queue held one
        → IsLongest table mode F hold queue held other → one ≡ other }
{}

/// A longest run exists.
pub fn longest_runs_exist()
    ensures { (table : Table) (mode : DropMode) (F : Field) (hold : Hold) (queue : List Piece) (held : Option Piece)
        → (run : List Placement) × IsLongest table mode F hold queue held run }
{}

/// Each placement of a run takes six cells of the field: it adds four, and a removed row has ten.
#[tactic(auto, using(problem::proofs::CallerLemmas::runs_take_cells))]
pub fn runs_take_six_cells_each()
    ensures { (table : Table) (mode : DropMode) (F : Field) (run : List Placement) → Runs table mode F run
        → 6 * length run ≤ cell_count F 23 }
{}

/// Between walls four cells for each placement of a run have room: the empty cells below the height of the walls, and
/// three more for each gap that is open at the height.
pub fn runs_have_room()
    ensures { (table : Table) (mode : DropMode) (F : Field) (is_gap : ℕ → Bool) (height left right : ℕ)
        (run : List Placement) → HasWalls F is_gap height left right → Runs table mode F run
        → 4 * length run ≤ empties_below F height + 3 * open_gaps F is_gap height }
{}
