// Whether generalized pieces can fill the empty cells of the lowest rows. A generalized piece is a rotated piece whose
// rows may be pulled apart.
#![tactic(auto)]

mod decided;
mod forms;
pub mod laws;
mod memory;
mod search;
mod store;
mod wells;

pub use empty_cells::Empties;
pub use memory::{PlaceAnswers, PlaceMemory, place_hash};
pub use search::has_tiling;
pub use store::TilingStore;
pub use wells::tiles;
