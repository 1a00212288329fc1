// Pieces at hand as numbers, and the sums of weights of those that can be taken one after the other.
#![tactic(auto)]

mod allowing;

pub use allowing::{Sums, sums_of, weights_of};
