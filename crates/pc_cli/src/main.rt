// The program: the words, standard input and output, and the exit status of a run.
#![tactic(auto)]

ghost use Rattle.std.specs.Prelude.{◌≡◌, ◌<◌};

mod edge;

use edge::exit_code;
use pc_faults::Status;
use pc_outside::{FileSink, FileSource};
use reach::Steps;
use std::env;
use std::io::{self, ErrorKind};
use std::marker::Brand;
use std::process::ExitCode;
use std::sync::ledger::{Blank, Ledger};

/// The status if the words can't be read for another reason than memory, such as a word that is not UTF-8.
const NO_WORDS: u8 = 6;

fn words(rt: &HostRuntime) -> io::Result<Vec<String>> {
    Ok(env::args(rt)?.skip(1).collect(rt.alloc())?)
}

fn run_counted<L: Ledger>(rt: &HostRuntime, blank: Blank, words: &[String]) -> u8
    requires name { blank.name ≡ L.name }
    requires parts { blank.parts ≡ L.parts }
    requires some { 0 < blank.parts }
{
    let mut steps = Steps::<L>::new(blank);
    let mut source = FileSource::new(rt.stdin());
    let mut out = FileSink::new(rt.stdout());
    let mut err = FileSink::new(rt.stderr());
    exit_code(
        rt.alloc(),
        words,
        &mut source,
        &mut out,
        &mut err,
        &mut steps,
    )
}

fn main(rt: HostRuntime) -> ExitCode {
    match words(&rt) {
        Ok(words) => ExitCode::from(run_counted::<Brand>(&rt, Blank::new(1), &words)),
        Err(error) if error.kind() == ErrorKind::OutOfMemory => {
            ExitCode::from(Status::NoMemory.code())
        }
        Err(_) => ExitCode::from(NO_WORDS),
    }
}
