// Which queues of a pattern have a perfect clear, as bits: the answers of `percent` without its text.
#![tactic(auto)]

mod answer;
mod bits;
mod call;

pub use answer::{NoBits, QueueCounts};
pub use bits::bytes_for;
pub use call::write_good_queues;
