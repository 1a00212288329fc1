// The text of a sequence of placements, with or without keys: reading and writing.
#![tactic(auto)]

pub mod laws;
mod reading;
mod sequence;
mod writing;

pub use sequence::sequence_in;
pub use writing::{SequenceText, placement_with_keys, push, sequence_text};
