// A command with its settings, from the pairs of its words.
ghost use Rattle.std.specs.Prelude.{◌≡◌, ◌<◌, ◌^◌, ◌+◌, length, option_map, Some, Ok, IfOk, IfErr};
ghost use Rattle.pc_settings.specs.Views.{combo_view, field_view, path_view, percent_view, text_view};
ghost use Rattle.pc_words.specs.Views.{Refuses, settings_reading};
ghost use Rattle.pc_faults.specs.declared.fault.Fault.{Fault};
ghost use Rattle.pc_faults.specs.declared.words_fault.WordsKind.TheVariants.{MissingOption};
ghost use Rattle.srs.specs.Rules.{table_of};
ghost use Rattle.pc_words.specs.Words.{asked_in, combo_request, fault_at, field_given, field_request, path_request, or_missing, percent_request, request_of, selfrun_with, table_given, texts, value_of};

use crate::options::{Command, CommandOption, MOST_SEQUENCES, Values};
use crate::words::value_of;
use fumen_digits::Dialect;
use hold_queue::Hold;
use kick_file::parse;
use moves::DropMode;
use pc_faults::{Fault, WordsFault, WordsKind};
use pc_settings::{
    ComboSettings, FieldSettings, FieldWords, Format, PathSettings, PercentSettings,
};
use srs::Rules;

/// A command with its settings.
#[derive(Clone, Copy, Debug, PartialEq, Eq)]
pub enum Settings<'a> {
    Path(PathSettings<'a>),
    Percent(PercentSettings<'a>),
    Cover(FieldSettings<'a>),
    Combo(ComboSettings<'a>),
    Decode,
    Encode {
        /// The dialect that is written.
        dialect: Dialect,
    },
    Show {
        /// The number of the page to show, counted from 1, or None for all pages.
        page: Option<u32>,
    },
    Kicks {
        /// The table of offsets that is written.
        rules: Rules,
    },
    Selfrun {
        /// The number that pages are made from.
        number: u32,
        /// How many pages are made.
        pages: u32,
    },
}

/// The table of offsets that the pairs give, or the first fault of its text.
fn rules_of(pairs: &[String]) -> Result<Rules, Fault>
    ensures table { IfOk result (λ rules. table_given (texts pairs.now) ≡ Ok (table_of rules)) }
    ensures fault { IfErr result (λ fault. Refuses (texts pairs.now) (Some (table_given (texts pairs.now))) fault) }
{
    match parse(value_of(CommandOption::Kicks, pairs).unwrap_or("")) {
        Ok(rules) => Ok(rules),
        Err(fault) => Err(Fault::Kicks(fault)),
    }
}

/// The field that the pairs give. At most one of them gives it.
fn field_words(pairs: &[String]) -> Option<FieldWords<'_>>
    ensures { option_map text_view result ≡ field_given
        (value_of CommandOption.Rows (texts pairs.entry.now)) (value_of CommandOption.Tetfu (texts pairs.entry.now)) }
{
    match (
        value_of(CommandOption::Rows, pairs),
        value_of(CommandOption::Tetfu, pairs),
    ) {
        (Some(rows), _) => Some(FieldWords::Rows(rows)),
        (None, Some(tetfu)) => Some(FieldWords::Tetfu(tetfu)),
        (None, None) => None,
    }
}

/// What is asked about a field. The field and the pattern are required.
#[tactic(auto, unfolding(crate::specs::Words::field_request))]
fn field_settings(pairs: &[String], values: Values) -> Result<FieldSettings<'_>, Fault>
    requires { length pairs.now + 1 < 2 ^ 64 }
    ensures value { IfOk result (λ settings.
        field_request (texts pairs.entry.now) values ≡ Some (field_view settings)) }
    ensures fault { IfErr result (λ fault. Refuses (texts pairs.entry.now)
        (option_map (λ request. request.table) (field_request (texts pairs.entry.now) values)) fault) }
{
    let Some(field) = field_words(pairs) else {
        return Err(missing(pairs));
    };
    let Some(patterns) = value_of(CommandOption::Patterns, pairs) else {
        return Err(missing(pairs));
    };
    let rules = rules_of(pairs)?;
    Ok(FieldSettings {
        field,
        page: values.page.unwrap_or(1),
        height: values.height.unwrap_or(4),
        patterns,
        hold: values.hold.unwrap_or(Hold::Allowed),
        held: values.held,
        drop_mode: values.drop_mode.unwrap_or(DropMode::Soft),
        rules,
    })
}

fn path_settings<'a>(
    pairs: &'a [String],
    values: Values,
    common: FieldSettings<'a>,
) -> PathSettings<'a>
    ensures { path_view result ≡ path_request (texts pairs.entry.now) values (field_view common.entry) }
{
    PathSettings {
        common,
        after: value_of(CommandOption::After, pairs),
        limit: values.limit.unwrap_or(MOST_SEQUENCES),
        keys: values.keys.unwrap_or(false),
        format: values.format.unwrap_or(Format::Text),
        stats: values.stats.unwrap_or(false),
    }
}

fn percent_settings(values: Values, common: FieldSettings<'_>) -> PercentSettings<'_>
    ensures { percent_view result ≡ percent_request values (field_view common.entry) }
{
    PercentSettings {
        common,
        failed: values.failed.unwrap_or(0),
    }
}

fn combo_settings<'a>(values: Values, common: FieldSettings<'a>) -> ComboSettings<'a>
    ensures { combo_view result ≡ combo_request values (field_view common.entry) }
{
    ComboSettings {
        field: common.field,
        page: common.page,
        patterns: common.patterns,
        hold: common.hold,
        held: common.held,
        drop_mode: common.drop_mode,
        rules: common.rules,
        keys: values.keys.unwrap_or(false),
    }
}

fn missing(pairs: &[String]) -> Fault
    requires { length pairs.now + 1 < 2 ^ 64 }
    ensures { result ≡ Fault.Words (fault_at MissingOption (length (texts pairs.now) + 1)) }
{
    Fault::Words(WordsFault {
        kind: WordsKind::MissingOption,
        index: pairs.len() + 1,
    })
}

/// How many pages are made, and from which number; both are required.
fn selfrun_settings(pairs: &[String], values: Values) -> Result<Settings<'_>, Fault>
    requires { length pairs.now + 1 < 2 ^ 64 }
    ensures { settings_reading result ≡ asked_in (or_missing (texts pairs.entry.now)
        (selfrun_with values.number values.pages)) }
{
    let Some(number) = values.number else {
        return Err(missing(pairs));
    };
    let Some(pages) = values.pages else {
        return Err(missing(pairs));
    };
    Ok(Settings::Selfrun { number, pages })
}

/// The settings of a command, by pairs that have no fault and their values: first whether a required option is absent,
/// and then the first fault of the table of offsets.
pub fn settings_of(
    command: Command,
    pairs: &[String],
    values: Values,
) -> Result<Settings<'_>, Fault>
    requires { length pairs.now + 1 < 2 ^ 64 }
    ensures { settings_reading result ≡ asked_in (request_of command (texts pairs.entry.now) values) }
{
    match command {
        Command::Path => {
            let common = field_settings(pairs, values)?;
            Ok(Settings::Path(path_settings(pairs, values, common)))
        }
        Command::Percent => {
            let common = field_settings(pairs, values)?;
            Ok(Settings::Percent(percent_settings(values, common)))
        }
        Command::Cover => Ok(Settings::Cover(field_settings(pairs, values)?)),
        Command::Combo => {
            let common = field_settings(pairs, values)?;
            Ok(Settings::Combo(combo_settings(values, common)))
        }
        Command::Decode => Ok(Settings::Decode),
        Command::Encode => Ok(Settings::Encode {
            dialect: values.dialect.unwrap_or(Dialect::V115),
        }),
        Command::Show => Ok(Settings::Show { page: values.page }),
        Command::Kicks => Ok(Settings::Kicks {
            rules: rules_of(pairs)?,
        }),
        Command::Selfrun => selfrun_settings(pairs, values),
    }
}
