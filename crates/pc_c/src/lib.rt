// The commands, called from C.
#![tactic(auto)]

ghost use Rattle.std.specs.Prelude.{◌≡◌, ◌≢◌, ◌⊎◌, ℕ, List, length, take};
ghost use Rattle.pc_words.specs.Words.{texts};
ghost use Rattle.pc_app.specs.Tasks.{task_of};
ghost use Rattle.pc_c.specs.Call.{ChangesFront, EndsRun, IsStatus, IsStatusOf, seen};
ghost use Rattle.pc_c.specs.Ended.{EndedBy};
ghost use Rattle.pc_c.specs.Words.{SpellsWords};

mod answer;
mod good_queues;
mod input;
mod slots;
mod solutions;
mod status;
mod words;

use pc_outside::SliceSink;
use slots::run_into;
use std::alloc::Global;
use std::marker::Brand;
use std::sync::ledger::Blank;
use words::words_in;

/// The status of a call, how many bytes it wrote to each buffer, and how many floods it made.
#[derive(Drop)]
struct Ended {
    status: u8,
    written: usize,
    told: usize,
    floods: u64,
}

/// Runs the words over the input and writes to these buffers.
fn run_words(alloc: Global, words: &[String], input: &[u8], out: &mut [u8], err: &mut [u8]) -> Ended
    ensures out { ChangesFront out.old out.new result.written }
    ensures err { ChangesFront err.old err.new result.told }
    ensures ended { let task = task_of (texts words.now) in
        EndedBy task (seen task input.now) (take result.written out.new) (length out.old)
        result.floods (take result.told err.new) (length err.old) result.status }
{
    let mut out_sink = SliceSink::new(out);
    let mut err_sink = SliceSink::new(err);
    let ran = run_into::<Brand, Brand, Brand>(
        alloc,
        Blank::new(1),
        words,
        input,
        &mut out_sink,
        &mut err_sink,
    );
    Ended {
        status: ran.status.code(),
        written: out_sink.count(),
        told: err_sink.count(),
        floods: ran.floods,
    }
}

/// Does what the program does, over memory. The words are those behind the program's name, and a NUL byte ends each.
/// The input is what the program reads from standard input. What the program writes to standard output goes into `out`,
/// and what it writes to standard error into `err`. These are the first `out_length` and `err_length` bytes; no other
/// bytes change. `floods` is how many floods were made, or the greatest value of a u64 if there were more. The result
/// is the program's exit status: 0 done, 2 a fault of the input, 4 the output is longer than `out`, 5 not enough
/// memory, 6 a word is not UTF-8 or the last one has no NUL byte behind it. Nothing is kept from call to call.
#[unsafe(no_mangle)]
pub extern "C" fn voidosier_run(
    alloc: Global,
    words: &[u8],
    input: &[u8],
    out: &mut [u8],
    out_length: &mut usize,
    err: &mut [u8],
    err_length: &mut usize,
    floods: &mut u64,
) -> u8
    ensures status { IsStatusOf IsStatus words.now result }
    // Which bytes of the buffers change.
    ensures out { ChangesFront out.old out.new out_length.new }
    ensures err { ChangesFront err.old err.new err_length.new }
    // What each status means.
    ensures ended { (texts : List (List ℕ)) → SpellsWords words.now texts
        → EndsRun texts input.now (take out_length.new out.new) (length out.old)
        (take err_length.new err.new) (length err.old) floods.new result }
    ensures quiet { (result ≡ 2) ⊎ (result ≡ 6) → out_length.new ≡ 0 }
    ensures no_line { result ≢ 2 → err_length.new ≡ 0 }
    ensures idle { (result ≡ 2) ⊎ (result ≡ 6) → floods.new ≡ 0 }
{
    *out_length = 0;
    *err_length = 0;
    *floods = 0;
    match words_in(alloc, words) {
        Ok(texts) => {
            let ended = run_words(alloc, &texts, input, out, err);
            *out_length = ended.written;
            *err_length = ended.told;
            *floods = ended.floods;
            ended.status
        }
        Err(none) => none.status(),
    }
}
