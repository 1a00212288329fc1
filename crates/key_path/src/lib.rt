// Least key words: the fewest keys that lead a piece to a placement, and the first such word in the key order.
#![tactic(auto)]

mod aim;
mod finder;
mod free;
mod known;
pub mod laws;
mod marks;

pub use finder::{Finder, KeyWord};
