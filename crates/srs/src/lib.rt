// Pieces of the Super Rotation System (SRS) in a well of ten columns and 23 rows: their cells, their kicks, canonical
// placements, and the order of placements. Definitions and lemmas alone are about lists of any things: members, lists
// that rise strictly, the least thing above a bound, and where a text leaves a form.
#![tactic(auto)]

mod kicks;
pub mod laws;
mod offset;
mod order;
mod piece;
mod placement;
mod rotation;
mod rules;
mod shapes;
mod symmetry;

pub use kicks::kick;
pub use offset::Offset;
pub use order::compare;
pub use piece::Piece;
pub use placement::Placement;
pub use rotation::Rotation;
pub use rules::Rules;
pub use shapes::{cells, is_inside, shape};
pub use symmetry::{canonical, canonical_change};
