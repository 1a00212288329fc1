// Queues under hold: which pieces may be played next, for all queues of a pattern at once.
#![tactic(auto)]

mod family;
mod hand;
mod hold;
pub mod laws;
mod memory;
mod set;
mod states;
mod supply;

pub use hand::{Hand, Taken};
pub use hold::Hold;
pub use memory::QueueMemory;
pub use set::QueueSet;
