// Tables of remembered answers. Which answers are true is the matter of those who keep them.
#![tactic(auto)]

mod table;

pub use table::{Entry, FactTable};
