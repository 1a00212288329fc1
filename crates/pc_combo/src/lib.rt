// The command `combo`: the longest run of placements that each remove a row.
#![tactic(auto)]

mod command;
mod queue;

pub use command::run_combo;
