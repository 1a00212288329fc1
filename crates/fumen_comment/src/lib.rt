// The comments of fumen pages: units of 16 bits, their escaped text, and the digits that spell it.
#![tactic(auto)]

mod comment;
mod escaping;
pub mod laws;
mod part;
mod unescaping;

pub use comment::Comment;
pub use escaping::escape;
pub use part::{CommentFault, read_comment, write_comment};
pub use unescaping::unescape;
