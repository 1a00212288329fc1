// Sets of states and of placements, and how pivots spread within a rotation.
#![tactic(auto)]

mod held;
mod low_held;
mod numbers;
mod pivots;
mod scan;
mod spreading;
mod tops;
mod words;

pub use held::Places;
pub use low_held::LowPlaces;
pub use pivots::Pivots;
pub use spreading::{Shifts, spread};
