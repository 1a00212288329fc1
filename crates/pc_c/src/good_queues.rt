// The answers of `percent` as bits, called from C.
ghost use Rattle.std.specs.Prelude.{◌≡◌, ◌≢◌, ◌<◌, ℕ, List, length, take, true, MatchOption, Ok};
ghost use Rattle.pc_words.specs.Views.{settings_view};
ghost use Rattle.pc_words.specs.Words.{texts};
ghost use Rattle.pc_words.specs.declared.settings.Settings.{Settings};
ghost use Rattle.pc_c.specs.Call.{ChangesFront, IsStatusOf};
ghost use Rattle.pc_c.specs.GoodQueues.{EndsQueues, IsQueuesStatus, IsSilentQueues};
ghost use Rattle.pc_c.specs.OtherCommand.{is_other, is_percent};
ghost use Rattle.pc_c.specs.QueuesEnded.{IsPercentAnswer};
ghost use Rattle.pc_c.specs.Words.{SpellsWords};

use crate::answer::{Answer, Answered, answer_of, idle};
use crate::input::seen_bytes;
use crate::slots::write_line;
use crate::status::{DONE, FAULT, NO_MEMORY, NO_ROOM, OTHER_COMMAND};
use crate::words::words_in;
use pc_good_queues::{NoBits, QueueCounts, bytes_for, write_good_queues};
use pc_settings::PercentSettings;
use pc_source::is_of_source;
use pc_words::{Settings, read_words};
use reach::Steps;
use std::alloc::Global;
use std::marker::Brand;
use std::sync::ledger::{Blank, Ledger};

/// The status of a call, how many bytes it wrote to each buffer, and the numbers that it tells.
#[derive(Drop)]
struct QueuesEnded {
    status: u8,
    written: usize,
    queues: u32,
    good: u32,
    told: usize,
    floods: u64,
}

/// The settings of `percent`, if these are its settings.
fn of_percent(settings: Settings<'_>) -> Option<PercentSettings<'_>>
    ensures { MatchOption result (is_other is_percent (Ok (settings_view settings.entry)) ≡ true)
        (λ percent. settings.entry ≡ Settings.Percent percent) }
{
    match settings {
        Settings::Percent(percent) => Some(percent),
        _ => None,
    }
}

/// The answer for the words: the bits of the queues that they ask `percent` about.
fn answer_words<L: Ledger>(
    alloc: Global,
    blank: Blank,
    words: &[String],
    input: &[u8],
    bits: &mut [u8],
) -> Answered<QueueCounts, NoBits>
    requires name { blank.name ≡ L.name }
    requires parts { blank.parts ≡ L.parts }
    requires some { 0 < blank.parts }
    ensures { IsPercentAnswer (texts words.now) input.now bits.old bits.new result.floods result.answer }
{
    let mut steps = Steps::<L>::new(blank);
    let settings = match read_words(words) {
        Ok(settings) => settings,
        Err(fault) => return idle(Answer::Unwritten(NoBits::Fault(fault))),
    };
    let Some(settings) = of_percent(settings) else {
        return idle(Answer::OtherCommand);
    };
    let bytes = match seen_bytes(input, is_of_source(settings.common.field)) {
        Ok(bytes) => bytes,
        Err(fault) => return idle(Answer::Unwritten(NoBits::Fault(fault))),
    };
    let written = write_good_queues(alloc, &settings, bytes, bits, &mut steps);
    Answered {
        answer: answer_of(written),
        floods: steps.count(),
    }
}

/// The end of a call that writes nothing and tells no numbers.
fn quiet(status: u8) -> QueuesEnded
    ensures { result ≡ record {
      status = status;
      written = 0;
      queues = 0;
      good = 0;
      told = 0;
      floods = 0;
    } }
{
    QueuesEnded {
        status,
        written: 0,
        queues: 0,
        good: 0,
        told: 0,
        floods: 0,
    }
}

/// Answers the words over the input and writes to these buffers.
fn run_queues(
    alloc: Global,
    words: &[String],
    input: &[u8],
    bits: &mut [u8],
    err: &mut [u8],
) -> QueuesEnded
    ensures status { IsQueuesStatus result.status }
    ensures worded { result.status ≢ 6 }
    ensures bits { ChangesFront bits.old bits.new result.written }
    ensures err { ChangesFront err.old err.new result.told }
    ensures ended { EndsQueues (texts words.now) input.now (take result.written bits.new) (length bits.old)
        result.queues result.good (take result.told err.new) (length err.old) result.floods result.status }
    ensures silent { IsSilentQueues result.written result.queues result.good result.told result.floods result.status }
{
    let answered = answer_words::<Brand>(alloc, Blank::new(1), words, input, bits);
    match answered.answer {
        Answer::Written(counts) => QueuesEnded {
            written: bytes_for(counts.queues),
            queues: counts.queues,
            good: counts.good,
            floods: answered.floods,
            ..quiet(DONE)
        },
        Answer::OtherCommand => quiet(OTHER_COMMAND),
        Answer::Unwritten(NoBits::Fault(fault)) => QueuesEnded {
            told: write_line(fault, err),
            ..quiet(FAULT)
        },
        Answer::Unwritten(NoBits::NoRoom { queues }) => QueuesEnded {
            queues,
            ..quiet(NO_ROOM)
        },
        Answer::Unwritten(NoBits::NoMemory) => QueuesEnded {
            floods: answered.floods,
            ..quiet(NO_MEMORY)
        },
    }
}

/// Writes one bit for each queue that a command line of `percent` asks about, in rising order: 1 if the queue has a
/// perfect clear. Queue i, counted from 0, is bit i mod 8 of byte i / 8, counted from the lowest, and the bits of the
/// last byte behind the last queue are 0. These are the first `bits_length` bytes of `bits`; no other bytes change.
/// `queues` is how many queues there are, and `good` how many of them are 1. `--failed` changes nothing. The words, the
/// input, `err` and `floods` are as in `voidosier_run`, and so are the statuses 2, 5 and 6. Of the others, 0 is done; 4
/// says that the bits take more bytes than `bits` has, of which `queues` tells, before any flood; 7 says that the words
/// have no fault and ask for another command. Nothing is kept from call to call.
#[unsafe(no_mangle)]
pub extern "C" fn voidosier_good_queues(
    alloc: Global,
    words: &[u8],
    input: &[u8],
    bits: &mut [u8],
    bits_length: &mut usize,
    queues: &mut u32,
    good: &mut u32,
    err: &mut [u8],
    err_length: &mut usize,
    floods: &mut u64,
) -> u8
    ensures status { IsStatusOf IsQueuesStatus words.now result }
    ensures bits { ChangesFront bits.old bits.new bits_length.new }
    ensures err { ChangesFront err.old err.new err_length.new }
    ensures ended { (texts : List (List ℕ)) → SpellsWords words.now texts
        → EndsQueues texts input.now (take bits_length.new bits.new) (length bits.old) queues.new good.new
        (take err_length.new err.new) (length err.old) floods.new result }
    ensures silent { IsSilentQueues bits_length.new queues.new good.new err_length.new floods.new result }
{
    *bits_length = 0;
    *queues = 0;
    *good = 0;
    *err_length = 0;
    *floods = 0;
    match words_in(alloc, words) {
        Ok(texts) => {
            let ended = run_queues(alloc, &texts, input, bits, err);
            *bits_length = ended.written;
            *queues = ended.queues;
            *good = ended.good;
            *err_length = ended.told;
            *floods = ended.floods;
            ended.status
        }
        Err(none) => none.status(),
    }
}
