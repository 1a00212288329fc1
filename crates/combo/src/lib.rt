// The longest run of placements that each remove a row.
#![tactic(auto)]

mod bound;
pub mod laws;
mod room;
mod run;
mod search;
mod searched;
mod store;

pub use room::most_between_walls;
pub use run::Run;
pub use search::longest;
