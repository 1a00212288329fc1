// The flood of low fields on lanes, by the offsets of the Super Rotation System.
#![tactic(auto)]

mod hard;
mod lane_kicks;
mod lane_map;
mod lane_shapes;
mod lane_turn;
mod low;
mod soft;

pub use lane_kicks::srs_offset;
pub use low::{is_clear_from, low_places};
