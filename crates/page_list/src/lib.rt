// Lists of pages as text, one line for each page.
#![tactic(auto)]

mod cells;
mod fields;
pub mod laws;
mod line;
mod list;
mod reading;

pub use fumen_pages::{ListFault, ListKind, first_shown, letters_of, row};
pub use line::print_page;
pub use list::{first_line, parse};
