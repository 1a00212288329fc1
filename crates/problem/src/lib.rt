// A problem: a field to clear, the queues to clear it with, and the rules of play. What its solutions are.
#![tactic(auto)]

mod below;
mod count;
mod fault;
pub mod laws;
mod problem;
mod sequence;

pub use below::lies_below;
pub use count::needed;
pub use fault::ProblemFault;
pub use problem::{Problem, check_field};
pub use sequence::Sequence;
