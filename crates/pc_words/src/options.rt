// The commands, their options, and the values that the options take.
ghost use Rattle.std.specs.Prelude.{◌≡◌};
ghost use Rattle.pc_words.specs.Options.{command_in, option_name, option_of, options_of};
ghost use Rattle.pc_words.specs.Values.{no_values, with_value};

use crate::numbers::number_in;
use crate::values::{dialect_in, drop_in, format_in, height_in, held_in, hold_in, yes_in};
use fumen_digits::Dialect;
use hold_queue::Hold;
use moves::DropMode;
use pc_settings::Format;
use srs::Piece;

/// The most pages of a list, and so the greatest number of a page: the `MOST_PAGES` of `fumen_pages`, on which this
/// crate doesn't stand.
const MOST_PAGES: u32 = 10_000;

/// The most sequences that may be written.
pub const MOST_SEQUENCES: u32 = 1_000_000_000;

/// The most failed queues that may be written.
const MOST_FAILED: u32 = 10_000_000;

/// A command.
#[derive(Clone, Copy, Debug, PartialEq, Eq)]
pub enum Command {
    Path,
    Percent,
    Cover,
    Combo,
    Decode,
    Encode,
    Show,
    Kicks,
    Selfrun,
}

/// An option of some command.
#[derive(Clone, Copy, Debug, PartialEq, Eq)]
pub enum CommandOption {
    Rows,
    Tetfu,
    Page,
    ClearLine,
    Patterns,
    Hold,
    Held,
    Drop,
    Kicks,
    After,
    Limit,
    Keys,
    Format,
    Dialect,
    Failed,
    Stats,
    Number,
    Pages,
}

const PATH: [CommandOption; 14] = [
    CommandOption::Rows,
    CommandOption::Tetfu,
    CommandOption::Page,
    CommandOption::ClearLine,
    CommandOption::Patterns,
    CommandOption::Hold,
    CommandOption::Held,
    CommandOption::Drop,
    CommandOption::Kicks,
    CommandOption::After,
    CommandOption::Limit,
    CommandOption::Keys,
    CommandOption::Format,
    CommandOption::Stats,
];

const PERCENT: [CommandOption; 10] = [
    CommandOption::Rows,
    CommandOption::Tetfu,
    CommandOption::Page,
    CommandOption::ClearLine,
    CommandOption::Patterns,
    CommandOption::Hold,
    CommandOption::Held,
    CommandOption::Drop,
    CommandOption::Kicks,
    CommandOption::Failed,
];

const COVER: [CommandOption; 9] = [
    CommandOption::Rows,
    CommandOption::Tetfu,
    CommandOption::Page,
    CommandOption::ClearLine,
    CommandOption::Patterns,
    CommandOption::Hold,
    CommandOption::Held,
    CommandOption::Drop,
    CommandOption::Kicks,
];

const COMBO: [CommandOption; 9] = [
    CommandOption::Rows,
    CommandOption::Tetfu,
    CommandOption::Page,
    CommandOption::Patterns,
    CommandOption::Hold,
    CommandOption::Held,
    CommandOption::Drop,
    CommandOption::Kicks,
    CommandOption::Keys,
];

/// The command with this name.
#[tactic(auto, unfolding(crate::specs::Options::command_in))]
pub fn command_named(word: &str) -> Option<Command>
    ensures { result ≡ command_in word.now }
{
    match word {
        "path" => Some(Command::Path),
        "percent" => Some(Command::Percent),
        "cover" => Some(Command::Cover),
        "combo" => Some(Command::Combo),
        "decode" => Some(Command::Decode),
        "encode" => Some(Command::Encode),
        "show" => Some(Command::Show),
        "kicks" => Some(Command::Kicks),
        "selfrun" => Some(Command::Selfrun),
        _ => None,
    }
}

impl CommandOption {
    /// The word that names the option.
    pub fn name(self) -> &'static str
        ensures { result.now ≡ option_name self }
    {
        match self {
            CommandOption::Rows => "--rows",
            CommandOption::Tetfu => "--tetfu",
            CommandOption::Page => "--page",
            CommandOption::ClearLine => "--clear-line",
            CommandOption::Patterns => "--patterns",
            CommandOption::Hold => "--hold",
            CommandOption::Held => "--held",
            CommandOption::Drop => "--drop",
            CommandOption::Kicks => "--kicks",
            CommandOption::After => "--after",
            CommandOption::Limit => "--limit",
            CommandOption::Keys => "--keys",
            CommandOption::Format => "--format",
            CommandOption::Dialect => "--dialect",
            CommandOption::Failed => "--failed",
            CommandOption::Stats => "--stats",
            CommandOption::Number => "--number",
            CommandOption::Pages => "--pages",
        }
    }
}

fn options_of(command: Command) -> &'static [CommandOption]
    ensures { result.now ≡ options_of command }
{
    match command {
        Command::Path => &PATH,
        Command::Percent => &PERCENT,
        Command::Cover => &COVER,
        Command::Combo => &COMBO,
        Command::Decode => &[],
        Command::Encode => &[CommandOption::Dialect],
        Command::Show => &[CommandOption::Page],
        Command::Kicks => &[CommandOption::Kicks],
        Command::Selfrun => &[CommandOption::Number, CommandOption::Pages],
    }
}

/// The option of a command with this name.
pub fn option_of(command: Command, name: &str) -> Option<CommandOption>
    ensures { result ≡ option_of command name.now }
{
    for option in options_of(command) {
        if option.name() == name {
            return Some(*option);
        }
    }
    None
}

/// The values that options were given, each as it was read. Options whose value may be any text have none here.
#[derive(Clone, Copy, Debug, PartialEq, Eq)]
pub struct Values {
    pub page: Option<u32>,
    pub height: Option<u8>,
    pub hold: Option<Hold>,
    pub held: Option<Piece>,
    pub drop_mode: Option<DropMode>,
    pub limit: Option<u32>,
    pub keys: Option<bool>,
    pub format: Option<Format>,
    pub dialect: Option<Dialect>,
    pub failed: Option<u32>,
    pub stats: Option<bool>,
    pub number: Option<u32>,
    pub pages: Option<u32>,
}

impl Values {
    /// No values.
    pub fn none() -> Values
        ensures { result ≡ no_values }
    {
        Values {
            page: None,
            height: None,
            hold: None,
            held: None,
            drop_mode: None,
            limit: None,
            keys: None,
            format: None,
            dialect: None,
            failed: None,
            stats: None,
            number: None,
            pages: None,
        }
    }

    /// These values with that of an option, or None where the text is not in the list or the range of the option.
    pub fn with_value(mut self, option: CommandOption, text: &str) -> Option<Values>
        ensures { result ≡ with_value self option text.now }
    {
        let bytes = text.as_bytes();
        match option {
            CommandOption::Page => self.page = Some(number_in(1, MOST_PAGES, bytes)?),
            CommandOption::ClearLine => self.height = Some(height_in(text)?),
            CommandOption::Hold => self.hold = Some(hold_in(text)?),
            CommandOption::Held => self.held = Some(held_in(text)?),
            CommandOption::Drop => self.drop_mode = Some(drop_in(text)?),
            CommandOption::Limit => self.limit = Some(number_in(1, MOST_SEQUENCES, bytes)?),
            CommandOption::Keys => self.keys = Some(yes_in(text)?),
            CommandOption::Format => self.format = Some(format_in(text)?),
            CommandOption::Dialect => self.dialect = Some(dialect_in(text)?),
            CommandOption::Failed => self.failed = Some(number_in(0, MOST_FAILED, bytes)?),
            CommandOption::Stats => self.stats = Some(yes_in(text)?),
            CommandOption::Number => self.number = Some(number_in(0, u32::MAX, bytes)?),
            CommandOption::Pages => self.pages = Some(number_in(1, MOST_PAGES, bytes)?),
            CommandOption::Rows
            | CommandOption::Tetfu
            | CommandOption::Patterns
            | CommandOption::Kicks
            | CommandOption::After => {}
        }
        Some(self)
    }
}
