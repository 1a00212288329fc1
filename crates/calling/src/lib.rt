// First calls for your own crates: each answers one question, and none of them takes a counter of floods.
#![tactic(auto)]

mod bot;
mod failed;
mod fumen;
mod reached;
mod second;
mod solutions;

pub use bot::{KeyedPlacement, first_move, first_move_of};
pub use failed::first_failed;
pub use fumen::{RewriteFault, as_v115};
pub use reached::{count_places, places_uncounted};
pub use second::may_come_second;
pub use solutions::{count_solutions, least_solution};
