// The command `percent`: how many queues of a pattern have a perfect clear.
#![tactic(auto)]

mod command;
mod lines;

pub use command::run_percent;
