// The settings of `path`.
use crate::field::FieldSettings;
use crate::format::Format;

/// What a call of `path` asks for.
#[derive(Clone, Copy, Debug, PartialEq, Eq)]
pub struct PathSettings<'a> {
    pub common: FieldSettings<'a>,
    /// The text of the sequence after which the list begins.
    pub after: Option<&'a str>,
    /// The most sequences that are written.
    pub limit: u32,
    /// Whether the key word of each placement follows it.
    pub keys: bool,
    /// The format in which each sequence is written.
    pub format: Format,
    /// Whether the number of floods is written after the report.
    pub stats: bool,
}
