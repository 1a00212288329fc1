// The faults of the words.

/// What is wrong with the words.
#[derive(Clone, Copy, Debug, PartialEq, Eq)]
pub enum WordsKind {
    /// There are no words.
    NoCommand,
    /// The first word is not a command.
    UnknownCommand,
    /// A word where an option should be is not an option of the command.
    UnknownOption,
    /// The option was given before.
    RepeatedOption,
    /// `--rows` and `--tetfu` are both given.
    BothFields,
    /// The option is the last word.
    MissingValue,
    /// The value is not in the option's list or range.
    BadValue,
    /// A required option is missing.
    MissingOption,
}

/// The first fault of the words.
#[derive(Clone, Copy, Debug, PartialEq, Eq)]
pub struct WordsFault {
    /// What is wrong.
    pub kind: WordsKind,
    /// The index of the word, counted from 0. For a missing option, it is the number of words.
    pub index: usize,
}
