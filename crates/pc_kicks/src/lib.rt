// The command `kicks`: a table of offsets, and the kicks that it gives.
#![tactic(auto)]

mod command;
mod lines;

pub use command::run_kicks;
