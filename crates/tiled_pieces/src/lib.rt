// All tilings of a set of empty cells, listed by a walk over them; the tilings of a list that have a piece; and which
// hands some order of a tiling's pieces serves.
#![tactic(auto)]

mod cover;
mod dead;
mod hands;
mod laid;
mod left;
mod list;
mod listed;
mod lister;
mod listing;
mod path;
mod row_order;
mod standing;
mod walk;
mod words;

pub use hands::served_hands;
pub use list::TilingList;
pub use listed::{ListedTiling, MOST_PIECES};
pub use lister::Lister;
pub use standing::{StandingPiece, StandingPieces};
