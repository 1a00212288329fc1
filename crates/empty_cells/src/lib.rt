// Sets of empty cells, and how the rows of pieces take cells from them. What a search for tilings stands on.
#![tactic(auto)]

mod columns;
mod empties;
mod forms;
mod hash;
mod pivot_words;
mod placed;
mod rows;
mod sent;
mod shifted;
mod span;
mod supply;

pub use empties::Empties;
pub use hash::hash_of;
pub use pivot_words::PivotWords;
pub use rows::{allowed, has_row, lowest_row, rows_of, without_row};
pub use shifted::Shifted;
pub use span::Span;
pub use supply::SupplyWord;
