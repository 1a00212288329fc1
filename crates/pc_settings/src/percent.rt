// The settings of `percent`.
use crate::field::FieldSettings;

/// What a call of `percent` asks for.
#[derive(Clone, Copy, Debug, PartialEq, Eq)]
pub struct PercentSettings<'a> {
    pub common: FieldSettings<'a>,
    /// The most queues without a perfect clear that are written.
    pub failed: u32,
}
