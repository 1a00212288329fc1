// Reading the words: the command, and then pairs of a name and a value.
ghost use Rattle.std.specs.Prelude.{◌≡◌, ◌+◌, ◌^◌, ◌<◌, ◌%◌, ◌++◌, [], ◌∷◌, length, option_copied, is_some, true, Some, None, IfOk, IfErr, IsOk, OnOk};
ghost use Rattle.std.specs.List.{slice_get};
ghost use Rattle.std.specs.Option.{ForSome};
ghost use Rattle.pc_words.specs.Views.{AsksInRange, settings_reading, settings_view};
ghost use Rattle.pc_words.specs.Words.{asked_in, fault_at, is_given, is_other_field, pair_fault, pairs_fault, request_in, texts, value_of, values_in};

use crate::options::{Command, CommandOption, Values, command_named, option_of};
use crate::settings::{Settings, settings_of};
use pc_faults::{Fault, WordsFault, WordsKind};

/// The value that the pairs give for an option, if they have it.
pub fn value_of(option: CommandOption, pairs: &[String]) -> Option<&str>
    ensures { option_copied result ≡ value_of option (texts pairs.entry.now) }
{
    let mut index = 0;
    while index < pairs.len() {
        if pairs[index].as_str() == option.name() {
            return word_at(pairs, index + 1);
        }
        index += 2;
    }
    None
}

fn is_given(option: CommandOption, pairs: &[String]) -> bool
    ensures { result ≡ is_given option (texts pairs.now) }
{
    value_of(option, pairs).is_some()
}

/// Whether the option gives the field while pairs before it give the field in the other way.
fn is_other_field(option: CommandOption, before: &[String]) -> bool
    ensures { result ≡ is_other_field option (texts before.now) }
{
    match option {
        CommandOption::Rows => is_given(CommandOption::Tetfu, before),
        CommandOption::Tetfu => is_given(CommandOption::Rows, before),
        _ => false,
    }
}

/// The fault of this kind at the word with this index.
fn fault_at(kind: WordsKind, index: usize) -> WordsFault
    ensures { result ≡ fault_at kind index }
{
    WordsFault { kind, index }
}

/// The values with that of one more name and the value after it, where there is one, behind these pairs and the
/// command; or the fault of the two.
#[tactic(auto, unfolding(crate::specs::Words::pair_fault))]
fn with_pair(
    command: Command,
    before: &[String],
    values: Values,
    name: &str,
    value: Option<&str>,
) -> Result<Values, WordsFault>
    requires few { length before.now + 2 < 2 ^ 64 }
    requires even { length before.now % 2 ≡ 0 }
    requires values { values ≡ values_in (texts before.now) }
    ensures values { IfOk result (λ after. ForSome (option_copied value.entry)
        (λ text. after ≡ values_in (texts before.now ++ name.now ∷ text ∷ []))) }
    ensures whole { IsOk result → is_some (option_copied value.entry) ≡ true }
    ensures none { OnOk result (pair_fault command (texts before.now) name.now (option_copied value.entry) ≡ None) }
    ensures fault { IfErr result (λ fault.
        pair_fault command (texts before.now) name.now (option_copied value.entry) ≡ Some fault) }
{
    let index = before.len() + 1;
    let Some(option) = option_of(command, name) else {
        return Err(fault_at(WordsKind::UnknownOption, index));
    };
    if is_given(option, before) {
        return Err(fault_at(WordsKind::RepeatedOption, index));
    }
    if is_other_field(option, before) {
        return Err(fault_at(WordsKind::BothFields, index));
    }
    let Some(text) = value else {
        return Err(fault_at(WordsKind::MissingValue, index));
    };
    match values.with_value(option, text) {
        Some(values) => Ok(values),
        None => Err(fault_at(WordsKind::BadValue, index + 1)),
    }
}

fn word_at(words: &[String], index: usize) -> Option<&str>
    ensures { option_copied result ≡ slice_get (texts words.entry.now) index }
{
    match words.get(index) {
        Some(word) => Some(word.as_str()),
        None => None,
    }
}

/// The values of the pairs behind a command, or the first fault of these pairs.
fn read_pairs(command: Command, pairs: &[String]) -> Result<Values, WordsFault>
    ensures values { IfOk result (λ values. values ≡ values_in (texts pairs.now)) }
    ensures none { OnOk result (pairs_fault command [] (texts pairs.now) ≡ None) }
    ensures fault { IfErr result (λ fault. pairs_fault command [] (texts pairs.now) ≡ Some fault) }
{
    let mut values = Values::none();
    let mut index = 0;
    while index < pairs.len() {
        let value = word_at(pairs, index + 1);
        values = with_pair(
            command,
            &pairs[..index],
            values,
            pairs[index].as_str(),
            value,
        )?;
        index += 2;
    }
    Ok(values)
}

/// The command and its settings, or the first fault of the words from the left. Of the faults of one name the order is:
/// no option, a repeated one, a second field, no value, a bad value. An option that is absent is looked for behind
/// these, and a fault of the table of offsets comes last.
#[tactic(auto, unfolding(crate::specs::Words::request_in))]
pub fn read_words(words: &[String]) -> Result<Settings<'_>, Fault>
    ensures value { settings_reading result ≡ asked_in (request_in (texts words.entry.now)) }
    ensures range { IfOk result (λ settings. AsksInRange (settings_view settings)) }
{
    let [word, pairs @ ..] = words else {
        return Err(Fault::Words(fault_at(WordsKind::NoCommand, 0)));
    };
    let Some(command) = command_named(word.as_str()) else {
        return Err(Fault::Words(fault_at(WordsKind::UnknownCommand, 0)));
    };
    match read_pairs(command, pairs) {
        Ok(values) => settings_of(command, pairs, values),
        Err(fault) => Err(Fault::Words(fault)),
    }
}
