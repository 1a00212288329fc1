// Whole fumen texts: lists of pages, as their digits spell them.
#![tactic(auto)]

mod cells;
mod checks;
pub mod laws;
mod page_reader;
mod pages;
mod text;
mod written;

pub use fumen_digits::FumenFault;
pub use fumen_pages::EncodeFault;
pub use text::decode;
pub use written::encode;
