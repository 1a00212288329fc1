// The command `selfrun`: pages that are made from a number, written, read back and compared, and the solutions of a
// problem that is drawn after them.
#![tactic(auto)]

mod column;
mod command;
mod count;
pub mod laws;
mod lines;
mod text;

pub use command::run_selfrun;
