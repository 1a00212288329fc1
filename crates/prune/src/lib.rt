// What can't be packed isn't searched: tilings of the empty cells that are left, and quick tests by counts and by
// walls.
#![tactic(auto)]

mod cheap;
pub mod laws;
mod walls;

pub use cheap::cheap_no;
pub use walls::has_uneven_part;
