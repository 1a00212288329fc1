// Floods fields as often as the first argument says, and prints a checksum of the placements. Without more arguments it
// floods three fixed fields with either drop mode; `task_of` says what further arguments ask for.
#![tactic(auto)]

ghost use Rattle.std.specs.Prelude.{◌≡◌, ◌<◌};
ghost use Rattle.well.specs.Well.{filled};
ghost use Rattle.well.specs.LockLaws.{LiesBelow};

mod fields;

use fields::{fixed_fields, played_fields, ragged_fields};
use moves::DropMode;
use reach::{Places, Steps, is_low, places, window_places};
use srs::{Piece, Placement, Rules};
use std::alloc::{AllocError, Global};
use std::marker::Brand;
use std::sync::ledger::{Blank, Ledger};
use std::{env, io};
use well::Well;

const MODES: [DropMode; 2] = [DropMode::Soft, DropMode::Hard];

/// What is flooded, and what is done with each flood.
#[derive(Clone, Copy)]
struct Task {
    rounds: u32,
    fields: LowFields,
    rows: u32,
    mode: DropMode,
    look: Look,
}

/// Which low fields are flooded.
#[derive(Clone, Copy)]
enum LowFields {
    Ragged,
    Played,
}

/// What is done with a flood.
#[derive(Clone, Copy)]
enum Look {
    First,
    All,
    ByRules,
}

fn main(rt: HostRuntime) -> io::Result<()> {
    let words: Vec<String> = env::args(&rt)?.skip(1).collect(rt.alloc())?;
    let rounds = number(words.first());
    let sum = if words.len() < 2 {
        flooded::<Brand>(Blank::new(1), &fixed_fields(rt.alloc())?, rounds)
    } else {
        low_flooded::<Brand>(Blank::new(1), rt.alloc(), task_of(words.as_slice()))?
    };
    println!(rt; "{sum}")
}

/// What the words after the number of rounds ask for: `ragged` or `played` fields, their number of rows, `soft` or
/// `hard`, and what is done with each flood. `first` looks at one placement, `list` takes all, and `rules` looks at one
/// by the call that tests the table first.
fn task_of(words: &[String]) -> Task {
    Task {
        rounds: number(words.first()),
        fields: if is_word(words.get(1), "played") {
            LowFields::Played
        } else {
            LowFields::Ragged
        },
        rows: number(words.get(2)),
        mode: if is_word(words.get(3), "hard") {
            DropMode::Hard
        } else {
            DropMode::Soft
        },
        look: look_of(words.get(4)),
    }
}

/// What this word says is done with a flood.
fn look_of(word: Option<&String>) -> Look {
    if is_word(word, "list") {
        return Look::All;
    }
    if is_word(word, "rules") {
        return Look::ByRules;
    }
    Look::First
}

/// The number in a word, or 1.
fn number(word: Option<&String>) -> u32 {
    match word {
        Some(word) => word.parse::<u32>().unwrap_or(1),
        None => 1,
    }
}

/// Whether the word is this text.
fn is_word(word: Option<&String>, text: &str) -> bool {
    match word {
        Some(word) => word.as_str() == text,
        None => false,
    }
}

/// The checksum of all placements in these wells, in this many rounds.
fn flooded<L: Ledger>(blank: Blank, wells: &[Well], rounds: u32) -> u64
    requires name { blank.name ≡ L.name }
    requires parts { blank.parts ≡ L.parts }
    requires some { 0 < blank.parts }
{
    let mut steps = Steps::<L>::new(blank);
    let rules = Rules::srs();
    let mut sum = 0;
    for _ in 0..rounds {
        for well in wells {
            sum = well_sum(sum, well, &rules, &mut steps);
        }
    }
    sum
}

/// The checksum, with all placements of all pieces in a well added.
fn well_sum<L: Ledger>(sum: u64, well: &Well, rules: &Rules, steps: &mut Steps<L>) -> u64 {
    let mut sum = sum;
    for piece in Piece::ALL {
        for mode in MODES {
            sum = mixed(sum, &places(well, rules, piece, mode, steps));
        }
    }
    sum
}

/// The checksum of what is looked at in floods of low fields.
fn low_flooded<L: Ledger>(blank: Blank, alloc: Global, task: Task) -> Result<u64, AllocError>
    requires name { blank.name ≡ L.name }
    requires parts { blank.parts ≡ L.parts }
    requires some { 0 < blank.parts }
{
    let mut steps = Steps::<L>::new(blank);
    let wells = match task.fields {
        LowFields::Ragged => ragged_fields(alloc, task.rows)?,
        LowFields::Played => played_fields(alloc, task.rows, &mut steps)?,
    };
    let rules = Rules::srs();
    let mut sum = 0;
    for _ in 0..task.rounds {
        for well in &wells {
            sum = low_field_sum(sum, well, &rules, task, &mut steps);
        }
    }
    Ok(sum)
}

/// The checksum, with what is looked at in the floods of all pieces added, if the field is low.
fn low_field_sum<L: Ledger>(
    sum: u64,
    well: &Well,
    rules: &Rules,
    task: Task,
    steps: &mut Steps<L>,
) -> u64 {
    if !is_low(well) {
        return sum;
    }
    let mut sum = sum;
    for piece in Piece::ALL {
        sum = low_sum(sum, well, rules, piece, task, steps);
    }
    sum
}

/// The checksum, with what is looked at in the flood of a low field added.
#[inline(always)]
fn low_sum<L: Ledger>(
    sum: u64,
    well: &Well,
    rules: &Rules,
    piece: Piece,
    task: Task,
    steps: &mut Steps<L>,
) -> u64
    requires { LiesBelow (filled well.now) 8 }
{
    match task.look {
        Look::First => first_sum(sum, &window_places(well, piece, task.mode, steps)),
        Look::All => taken_sum(sum, window_places(well, piece, task.mode, steps)),
        Look::ByRules => first_sum(sum, &places(well, rules, piece, task.mode, steps)),
    }
}

/// The checksum, with the least of these placements added.
fn first_sum(sum: u64, held: &Places) -> u64 {
    match held.next_after(None) {
        None => sum,
        Some(first) => with_placement(sum, &first),
    }
}

/// The checksum, with all these placements added, taken one after the other.
fn taken_sum(sum: u64, held: Places) -> u64 {
    let mut sum = sum;
    let mut held = held;
    for _ in 0..1000 {
        match held.take_least() {
            None => return sum,
            Some(least) => sum = with_placement(sum, &least),
        }
    }
    sum
}

/// The checksum, with one placement added.
#[inline(always)]
fn with_placement(sum: u64, placement: &Placement) -> u64 {
    let number = u64::from(placement.rotation.index()) * 65536
        + u64::from(placement.y) * 256
        + u64::from(placement.x);
    sum.wrapping_mul(31).wrapping_add(number)
}

/// The checksum, with all these placements added.
fn mixed(sum: u64, held: &Places) -> u64 {
    let mut sum = sum;
    let mut last: Option<Placement> = None;
    for _ in 0..1000 {
        match held.next_after(last.as_ref()) {
            None => return sum,
            Some(next) => {
                sum = with_placement(sum, &next);
                last = Some(next);
            }
        }
    }
    sum
}
