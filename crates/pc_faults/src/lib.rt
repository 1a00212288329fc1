// The faults of the input, how a run ends, and the line by which a fault is reported.
#![tactic(auto)]

mod cover_fault;
mod fault;
mod fault_line;
mod status;
mod words_fault;

pub use cover_fault::{CoverFault, CoverKind};
pub use fault::Fault;
pub use fault_line::write_fault;
pub use status::Status;
pub use words_fault::{WordsFault, WordsKind};
