// What commands share: the source, the pages of a fumen text, the field, the problem that settings name for it, and
// what each status means.
#![tactic(auto)]

mod asked;
mod field_text;
pub mod laws;
mod page;
mod pages;
mod source;

pub use asked::{open_rows, pattern_of, problem_asked};
pub use field_text::{Dash, field, is_of_source};
pub use page::page_at;
pub use pages::text_pages;
pub use source::{MOST_BYTES, source_bytes};
