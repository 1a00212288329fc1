// Laws of tilings: functions that do nothing and whose contract is the law.
ghost use Rattle.prune.specs.Laws.{OnePlacement, FullRowsMayStand, MorePieces, ClearedIsTiled, EvenColumns, NoPieceReachesOver, PartsAreEven};

/// If what a placement leaves has a tiling, the field before it has one with one more piece of that kind.
#[tactic(auto, using(crate::proofs::PlacedLemmas::one_placement))]
pub fn placement_is_one_part()
    ensures { OnePlacement }
{}

/// The empty cells that a placement leaves have a tiling before its full rows are removed exactly if they have one
/// after that.
#[tactic(auto, using(crate::proofs::PlacedLemmas::full_rows_may_stand))]
pub fn full_rows_may_stand()
    ensures { FullRowsMayStand }
{}

/// A tiling remains a tiling if the supply has more pieces.
#[tactic(auto, using(crate::proofs::PlacedLemmas::more_pieces))]
pub fn more_pieces_may_be_left()
    ensures { MorePieces }
{}

/// If a sequence of placements clears all rows, the empty cells before it have a tiling with its pieces.
#[tactic(auto, using(crate::proofs::PlacedLemmas::cleared_is_tiled))]
pub fn cleared_rows_are_tiled()
    ensures { ClearedIsTiled }
{}

/// If a tiling uses up a supply without a T, the number of empty cells in even columns is even exactly if the number of
/// L and J pieces together is even.
#[tactic(auto, using(crate::proofs::EvenColumns::even_columns))]
pub fn even_columns_count_l_and_j()
    ensures { EvenColumns }
{}

/// No piece of a tiling crosses a wall, so the number of empty cells between two walls is a multiple of four.
pub fn walls_divide_tilings()
    ensures pieces { NoPieceReachesOver }
    ensures parts { PartsAreEven }
{}
