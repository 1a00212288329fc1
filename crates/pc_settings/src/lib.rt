// What each command is asked for.
#![tactic(auto)]

mod combo;
mod field;
mod format;
mod path;
mod percent;

pub use combo::ComboSettings;
pub use field::{FieldSettings, FieldWords};
pub use format::Format;
pub use path::PathSettings;
pub use percent::PercentSettings;
