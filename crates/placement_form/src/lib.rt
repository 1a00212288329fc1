// The text of a placement, written and read.
#![tactic(auto)]

pub mod laws;
mod reading;
mod writing;

pub use reading::{capital_piece, digit_in, read_placement, two_digit_row};
pub use writing::{PlacementText, placement_text};
