// The command `path`: the solutions of a problem, each as a line, a fumen text or a grid.
#![tactic(auto)]

pub mod laws;
mod listing;
mod path;
mod writer;

pub use listing::{Listing, listing_of};
pub use path::run_path;
