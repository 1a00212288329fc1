// The command `cover`: which queues known sequences cover.
#![tactic(auto)]

mod command;
mod covering;
mod given;
pub mod laws;

pub use command::run_cover;
