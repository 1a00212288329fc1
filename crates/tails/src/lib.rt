// Patterns as trees of states, and sets of the tails of their states: unions, differences, look-ups, what is left of
// tails when a piece is taken, which of them lead to such a rest, and which kinds they want.
#![tactic(auto)]

mod at_hand;
mod block;
pub mod laws;
mod lists;
mod numbers;
mod rests;
mod start;
mod states;
mod tail_set;
mod takings;
mod tree;
mod wanted;

pub use tail_set::TailSet;
pub use tree::TailTree;
