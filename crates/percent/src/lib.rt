// How many queues of a pattern have a perfect clear, found for all of them at once.
#![tactic(auto)]

mod answered;
mod answers;
mod building;
mod children;
mod fitting;
mod game;
mod kept;
pub mod laws;
mod listed;
mod marks;
mod narrowing;
mod order;
mod position;
mod spread;
mod start;

pub use answers::Answers;
// (known to callers by this name; its home is below)
pub use queue_lines::rate;
pub use start::solvable;
