// Patterns of queues: their grammar, their elements, and the queues that they stand for, numbered.
#![tactic(auto)]

mod builder;
mod element;
mod fault;
pub mod laws;
mod pattern;
pub mod sets;
mod text;

pub use element::Element;
pub use fault::PatternFault;
pub use pattern::{Pattern, Queue};
