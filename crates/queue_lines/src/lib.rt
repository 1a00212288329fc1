// Lines about queues: their letters, and how many there are.
#![tactic(auto)]

mod lines;

pub use lines::{letters, rate, write_numbers, write_queue};
