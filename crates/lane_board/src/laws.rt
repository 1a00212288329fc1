// Laws of full rows and their removal. Each is the contract of a call that does nothing.
ghost use Rattle.lane_board.specs.RemovalLaws.{LowersEachCell, FullHasTen, TakesTenEach};

/// A row is full exactly if it has ten cells.
#[tactic(auto, using(crate::proofs::CellCounts::full_has_ten))]
pub fn full_row_has_ten_cells()
    ensures { FullHasTen }
{}

/// After full rows are removed, the cells of the other rows remain. Each moves down by the number of full rows below
/// it.
#[tactic(auto, using(crate::proofs::Removal::lowers_each_cell))]
pub fn removal_lowers_each_cell()
    ensures { LowersEachCell }
{}

/// Removal takes ten cells for each full row, and no other cell.
#[tactic(auto, using(crate::proofs::CellCounts::takes_ten_each))]
pub fn removal_takes_ten_cells_each()
    ensures { TakesTenEach }
{}
