// Placements as numbers, written and read.
#![tactic(auto)]

pub mod laws;
mod reading;
mod writing;

pub use reading::sequence_in;
pub use writing::{numbers_of, write_sequence};
