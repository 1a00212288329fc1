// Which queues of a pattern some known sequences cover.
#![tactic(auto)]

mod front;
mod kinds;
pub mod laws;
mod look;
mod node;
mod play;
mod set;
mod tree;

pub use play::plays;
pub use set::CoverSet;
