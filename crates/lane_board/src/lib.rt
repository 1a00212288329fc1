// Boards of ten columns whose rows are bits, with the set operations that a flood needs.
#![tactic(auto)]

mod board;
mod eights;
pub mod laws;
pub mod words;

pub use board::LaneBoard;
