// A page of a fumen as rows of letters.
#![tactic(auto)]

mod page;

pub use page::show_page;
