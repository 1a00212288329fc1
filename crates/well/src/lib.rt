// The well: a field of ten columns and 23 rows in which pieces are placed.
#![tactic(auto)]

mod bits;
pub mod laws;
mod reader;
mod rows;
mod well;

pub use bits::cells_below;
pub use rows::RowsFault;
pub use well::Well;
