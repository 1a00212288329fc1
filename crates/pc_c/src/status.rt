// The statuses of the calls. Those that the program has too have the same number.

/// What was asked for is done.
pub(crate) const DONE: u8 = 0;

/// The words or the input have a fault.
pub(crate) const FAULT: u8 = 2;

/// There is not room for what is asked for.
pub(crate) const NO_ROOM: u8 = 4;

/// There is not enough memory.
pub(crate) const NO_MEMORY: u8 = 5;

/// A word is not UTF-8, or the last word has no NUL byte behind it.
pub(crate) const NO_WORDS: u8 = 6;

/// The words ask for another command than the call answers.
pub(crate) const OTHER_COMMAND: u8 = 7;

/// The numbers that are given are those of no sequence of the needed length.
pub(crate) const NO_SEQUENCE: u8 = 8;
