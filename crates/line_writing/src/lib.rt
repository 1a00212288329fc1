// Lines of an output: the line of a count, and why a line was not written.
#![tactic(auto)]

mod count;
mod write_fault;

pub use count::write_count;
pub use write_fault::WriteFault;
