// The formats in which answers are written.
#![tactic(auto)]

mod fumen_line;
mod grey;
mod grid;
mod keys;
pub mod laws;
mod line;
mod run;
mod tail;

pub use fumen_line::{FumenWriter, write_fumen_line};
pub use grid::write_grid;
pub use keys::WrittenKeys;
pub use line::write_line;
// (known to callers by this name; its home is below)
pub use page_show::show_page;
pub use run::write_run;
pub use tail::{Tail, write_floods, write_tail};
