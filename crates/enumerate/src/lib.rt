// The search: all solutions of a problem, one after the other in rising order.
#![tactic(auto)]

mod advance;
mod after;
mod frame;
pub mod laws;
mod left;
mod line;
mod notes;
mod search;
mod seek;
mod setup;
mod start;
mod tilings;
mod trying;

pub use problem::{Problem, Sequence, lies_below, needed};
pub use search::Search;
