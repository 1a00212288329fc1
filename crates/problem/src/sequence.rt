// Sequences of placements.
use arrayvec::ArrayVec;
use srs::Placement;

/// At most 22 placements, first placement first.
pub type Sequence = ArrayVec<Placement, 22>;
