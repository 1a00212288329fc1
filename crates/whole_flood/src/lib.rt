// The flood of the whole well, for any field and any table of offsets.
#![tactic(auto)]

mod flood;
mod fold;
mod free;
mod rest;
mod turn;
mod whole;

pub use free::free_states;
pub use whole::whole_places;
