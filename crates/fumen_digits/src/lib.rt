// Fumen texts as digits: the two dialects, the digits and their numbers, and the text around them.
#![tactic(auto)]

mod dialect;
mod digit;
mod fault;
mod framing;
pub mod laws;
mod number;

pub use dialect::Dialect;
pub use digit::{digit_of, digit_value};
pub use fault::FumenFault;
pub use framing::{break_lines, digits_of};
pub use number::{DigitFault, number_at, push_number, read_number};
