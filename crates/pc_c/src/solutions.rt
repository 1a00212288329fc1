// The solutions that `path` lists as numbers, called from C.
ghost use Rattle.std.specs.Prelude.{◌≡◌, ◌≢◌, ◌<◌, ◌≤◌, ◌==◌, ℕ, List, true, Ok, MatchOption, length, take};
ghost use Rattle.pc_words.specs.Views.{settings_view};
ghost use Rattle.pc_words.specs.Words.{texts};
ghost use Rattle.pc_words.specs.declared.settings.Settings.{Settings};
ghost use Rattle.pc_c.specs.Call.{ChangesFront, ForFloods, IsStatusOf};
ghost use Rattle.pc_c.specs.Solutions.{EndsSolutions, IsSilentSolutions, IsSolutionsStatus};
ghost use Rattle.pc_c.specs.OtherCommand.{is_other, is_path};
ghost use Rattle.pc_c.specs.SolutionsEnded.{IsPathAnswer};
ghost use Rattle.pc_c.specs.Words.{SpellsWords};

use crate::answer::{Answer, Answered, answer_of, idle};
use crate::input::seen_bytes;
use crate::slots::write_line;
use crate::status::{DONE, FAULT, NO_MEMORY, NO_ROOM, NO_SEQUENCE, OTHER_COMMAND};
use crate::words::words_in;
use pc_settings::PathSettings;
use pc_solutions::{Refusal, Written, write_solutions};
use pc_source::is_of_source;
use pc_words::{Settings, read_words};
use reach::Steps;
use std::alloc::Global;
use std::marker::Brand;
use std::sync::ledger::{Blank, Ledger};

/// The status of a call, how many bytes it wrote to each buffer, and the numbers that it tells.
#[derive(Drop)]
struct SolutionsEnded {
    status: u8,
    written: usize,
    count: u32,
    ended: u8,
    told: usize,
    floods: u64,
}

/// The settings of `path`, if these are its settings.
fn of_path(settings: Settings<'_>) -> Option<PathSettings<'_>>
    ensures { MatchOption result (is_other is_path (Ok (settings_view settings.entry)) ≡ true)
        (λ path. settings.entry ≡ Settings.Path path) }
{
    match settings {
        Settings::Path(path) => Some(path),
        _ => None,
    }
}

/// The answer for the words: the solutions that they ask `path` to list.
fn answer_words<L: Ledger>(
    alloc: Global,
    blank: Blank,
    words: &[String],
    input: &[u8],
    after: &[u8],
    placements: &mut [u8],
) -> Answered<Written, Refusal>
    requires name { blank.name ≡ L.name }
    requires parts { blank.parts ≡ L.parts }
    requires some { 0 < blank.parts }
    ensures { ForFloods result.floods
        (λ floods. IsPathAnswer (texts words.now) input.now after.now placements.old placements.new floods
        result.answer) }
{
    let mut steps = Steps::<L>::new(blank);
    let settings = match read_words(words) {
        Ok(settings) => settings,
        Err(fault) => return idle(Answer::Unwritten(Refusal::Fault(fault))),
    };
    let Some(settings) = of_path(settings) else {
        return idle(Answer::OtherCommand);
    };
    let bytes = match seen_bytes(input, is_of_source(settings.common.field)) {
        Ok(bytes) => bytes,
        Err(fault) => return idle(Answer::Unwritten(Refusal::Fault(fault))),
    };
    let written = write_solutions(alloc, &settings, bytes, after, placements, &mut steps);
    Answered {
        answer: answer_of(written),
        floods: steps.count(),
    }
}

/// 1 if it holds, and 0 if not.
fn flag(holds: bool) -> u8
    ensures same { (result == 1) ≡ holds }
    ensures small { result ≤ 1 }
{
    if holds { 1 } else { 0 }
}

/// The end of a call that writes nothing and tells no numbers.
fn quiet(status: u8) -> SolutionsEnded
    ensures { result ≡ record {
      status = status;
      written = 0;
      count = 0;
      ended = 0;
      told = 0;
      floods = 0;
    } }
{
    SolutionsEnded {
        status,
        written: 0,
        count: 0,
        ended: 0,
        told: 0,
        floods: 0,
    }
}

/// Answers the words over the input and writes to these buffers.
fn run_solutions(
    alloc: Global,
    words: &[String],
    input: &[u8],
    after: &[u8],
    placements: &mut [u8],
    err: &mut [u8],
) -> SolutionsEnded
    ensures status { IsSolutionsStatus result.status }
    ensures worded { result.status ≢ 6 }
    ensures placements { ChangesFront placements.old placements.new result.written }
    ensures err { ChangesFront err.old err.new result.told }
    ensures ended { EndsSolutions (texts words.now) input.now after.now (length placements.old)
        (take result.written placements.new) result.count result.ended (take result.told err.new) (length err.old)
        result.floods result.status }
    ensures silent { IsSilentSolutions result.written result.count result.ended result.told result.floods
        result.status }
{
    let answered = answer_words::<Brand>(alloc, Blank::new(1), words, input, after, placements);
    match answered.answer {
        Answer::Written(written) => SolutionsEnded {
            written: written.size,
            count: written.count,
            ended: flag(written.ended),
            floods: answered.floods,
            ..quiet(DONE)
        },
        Answer::OtherCommand => quiet(OTHER_COMMAND),
        Answer::Unwritten(Refusal::Fault(fault)) => SolutionsEnded {
            told: write_line(fault, err),
            ..quiet(FAULT)
        },
        Answer::Unwritten(Refusal::NoSequence) => quiet(NO_SEQUENCE),
        Answer::Unwritten(Refusal::NoRoom) => quiet(NO_ROOM),
        Answer::Unwritten(Refusal::NoMemory) => quiet(NO_MEMORY),
    }
}

/// Writes the solutions that a command line of `path` lists as numbers: of each placement its piece (1 to 7 in the
/// order I, L, O, Z, T, J, S), its rotation (0 to 3 in the order 0, R, 2, L), and the column and the row of its pivot,
/// a byte each. `count` is how many solutions were written: as many as there are, but no more than `--limit` allows,
/// and no more than `placements` holds whole. They are the first `placements_length` bytes of `placements`; no other
/// bytes change. `ended` is 1 if the list is known to end with them, and 0 if it may go on. The list begins after the
/// sequence whose numbers `after` has; if `after` is empty, after the one that `--after` gives, if any. `--keys`,
/// `--format` and `--stats` change nothing. The words, the input, `err` and `floods` are as in `voidosier_run`, and so
/// are the statuses 2, 5 and 6. Of the others, 0 is done; 4 says that `placements` is too small for one solution; 7
/// says that the words have no fault and ask for another command; 8 says that `after` is not the numbers of as many
/// placements as a solution has. At every status but 0 nothing is written to `placements`, and no flood was made.
/// Nothing is kept from call to call.
#[unsafe(no_mangle)]
pub extern "C" fn voidosier_solutions(
    alloc: Global,
    words: &[u8],
    input: &[u8],
    after: &[u8],
    placements: &mut [u8],
    placements_length: &mut usize,
    count: &mut u32,
    ended: &mut u8,
    err: &mut [u8],
    err_length: &mut usize,
    floods: &mut u64,
) -> u8
    ensures status { IsStatusOf IsSolutionsStatus words.now result }
    ensures placements { ChangesFront placements.old placements.new placements_length.new }
    ensures err { ChangesFront err.old err.new err_length.new }
    ensures ended { (texts : List (List ℕ)) → SpellsWords words.now texts
        → EndsSolutions texts input.now after.now (length placements.old) (take placements_length.new placements.new)
        count.new ended.new (take err_length.new err.new) (length err.old) floods.new result }
    ensures silent { IsSilentSolutions placements_length.new count.new ended.new err_length.new floods.new result }
{
    *placements_length = 0;
    *count = 0;
    *ended = 0;
    *err_length = 0;
    *floods = 0;
    match words_in(alloc, words) {
        Ok(texts) => {
            let end = run_solutions(alloc, &texts, input, after, placements, err);
            *placements_length = end.written;
            *count = end.count;
            *ended = end.ended;
            *err_length = end.told;
            *floods = end.floods;
            end.status
        }
        Err(none) => none.status(),
    }
}
