// Floods: the placements that legal keys lead to, and the counter of floods.
#![tactic(auto)]

mod find;
mod flood_rules;
mod same_offsets;
mod steps;

pub use find::{is_low, places, window_places};
pub use flood_rules::FloodRules;
pub use place_sets::{LowPlaces, Places};
pub use steps::Steps;
