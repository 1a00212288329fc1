// The words of the command line: commands, options and their values.
#![tactic(auto)]

mod numbers;
mod options;
mod settings;
mod values;
mod words;

pub use settings::Settings;
pub use words::read_words;
