// The top call: the words, the source, and the run of a command.
#![tactic(auto)]

pub mod laws;
mod perform;
mod top;

pub use pc_faults::{CoverFault, CoverKind, Fault, Status, WordsFault, WordsKind};
pub use pc_settings::{
    ComboSettings, FieldSettings, FieldWords, Format, PathSettings, PercentSettings,
};
pub use pc_words::{Settings, read_words};
pub use sample_pages::sample_pages;
pub use top::run;
