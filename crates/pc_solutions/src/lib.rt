// The solutions that `path` lists, as numbers.
#![tactic(auto)]

pub mod laws;
mod list;
mod solutions;

pub use list::Written;
pub use solutions::{Refusal, write_solutions};
