// The line of a sequence.
ghost use Rattle.std.specs.Prelude.{◌≡◌, ◌++◌, [], ◌∷◌, ◌≤◌, length, option_map, OnOk, OnErr};
ghost use Rattle.srs.specs.Rules.{table_of};
ghost use Rattle.well.specs.Well.{filled};
ghost use Rattle.pc_outside.specs.Counts.{HasCause};
ghost use Rattle.pc_outside.specs.Writes.{GrowsByFront, WritesAll};
ghost use Rattle.problem.specs.Solution.{PlaysIn};
ghost use Rattle.sequence_text.specs.Written.{keyed_form, sequence_form, without_keys};
ghost use Rattle.report.specs.Forms.{key_part, line_form};
ghost use Rattle.report.specs.HandsOn.{HandsOn};
ghost use Rattle.report.specs.Keys.{has_keys};
ghost use Rattle.report.specs.Played.{AreFree};

use crate::keys::WrittenKeys;
use key_path::KeyWord;
use moves::DropMode;
use pc_outside::{Failed, Sink};
use problem::{Problem, Sequence};
use sequence_text::{SequenceText, placement_with_keys, push, sequence_text};
use srs::{Placement, Rules};
use well::Well;

/// A line without keys.
fn line_of(placements: &[Placement]) -> SequenceText
    requires { length placements.now ≤ 38 }
    ensures { result.items ≡ sequence_form (without_keys placements.now) ++ 10 ∷ [] }
{
    let mut line = sequence_text(placements);
    push(&mut line, b"\n");
    line
}

/// A placement after a separator, with its key word if there is one.
fn placement_text(divider: &[u8], placement: &Placement, word: &Option<KeyWord>) -> SequenceText
    requires { length divider.now ≤ 1 }
    ensures { result.items ≡ divider.now ++ keyed_form (placement.now, option_map (λ word. word.items) word.now) }
{
    match word {
        Some(word) => placement_with_keys(divider, placement, Some(word.as_slice())),
        None => placement_with_keys(divider, placement, None),
    }
}

/// Appends bytes to the held text. If they don't fit, the held text is written first.
fn append<O: Sink>(out: &mut O, held: &mut SequenceText, bytes: &[u8]) -> Result<(), Failed>
    requires { length bytes.now ≤ 1024 }
    ensures done { OnOk result (HandsOn (O.written out.old) (O.written out.new)
        held.old.items bytes.now held.new.items) }
    ensures failed { OnErr result (GrowsByFront (O.written out.old) (O.written out.new) held.old.items) }
    ensures cause { HasCause O.counts_failures_alone (O.faults out.old) (O.faults out.new) result }
{
    if bytes.len() <= held.remaining_capacity() {
        push(held, bytes);
        return Ok(());
    }
    out.write(held.as_slice())?;
    held.clear();
    push(held, bytes);
    Ok(())
}

/// Writes the line of placements one after the other, each with its keys in the field before it. If the line fits into a
/// held text, this is one write.
fn write_each<O: Sink>(
    out: &mut O,
    well: &Well,
    rules: &Rules,
    drop_mode: DropMode,
    placements: &[Placement],
    keys: &mut WrittenKeys,
) -> Result<(), Failed>
    requires { AreFree (filled well.now) placements.now }
    ensures written { WritesAll (O.written out.old) (O.written out.new) result
        (line_form (key_part (has_keys keys.old) (table_of rules.now) drop_mode) (filled well.now) placements.now) }
    ensures cause { HasCause O.counts_failures_alone (O.faults out.old) (O.faults out.new) result }
    ensures keys { has_keys keys.new ≡ has_keys keys.old }
{
    let mut before = *well;
    let mut divider: &[u8] = b"";
    let mut held = SequenceText::new();
    let is_srs = keys.are_srs(rules);
    for placement in placements {
        let word = keys.word_of(&before, rules, is_srs, placement, drop_mode);
        append(
            out,
            &mut held,
            placement_text(divider, placement, &word).as_slice(),
        )?;
        before = before.lock(placement).0;
        divider = b" ";
    }
    append(out, &mut held, b"\n")?;
    out.write(held.as_slice())
}

/// Writes the line of placements that are played from a well, each with its keys in the field before it.
#[tactic(auto, using(crate::proofs::LineLemmas::plain_line))]
pub(crate) fn write_placements<O: Sink>(
    out: &mut O,
    well: &Well,
    rules: &Rules,
    drop_mode: DropMode,
    placements: &[Placement],
    keys: &mut WrittenKeys,
) -> Result<(), Failed>
    requires free { AreFree (filled well.now) placements.now }
    requires few { length placements.now ≤ 38 }
    ensures written { WritesAll (O.written out.old) (O.written out.new) result
        (line_form (key_part (has_keys keys.old) (table_of rules.now) drop_mode) (filled well.now) placements.now) }
    ensures cause { HasCause O.counts_failures_alone (O.faults out.old) (O.faults out.new) result }
    ensures keys { has_keys keys.new ≡ has_keys keys.old }
{
    let asked = keys.are_asked();
    if asked {
        return write_each(out, well, rules, drop_mode, placements, keys);
    }
    // Without keys no field is needed, and the whole line is made at once.
    out.write(line_of(placements).as_slice())
}

/// Writes the line of a sequence that solves the problem, as in `I0:7,0 O0:8,0`. If keys are written, the key word of
/// each placement in the field before it follows the placement, as in `I0:7,0:RRRH`.
#[tactic(auto, using(crate::proofs::LineLemmas::played_free))]
pub fn write_line<O: Sink>(
    out: &mut O,
    problem: &Problem,
    sequence: &Sequence,
    keys: &mut WrittenKeys,
) -> Result<(), Failed>
    requires { PlaysIn problem.now sequence.now.items }
    ensures written { WritesAll (O.written out.old) (O.written out.new) result
        (line_form (key_part (has_keys keys.old) (table_of problem.now.rules) problem.now.drop_mode)
        (filled problem.now.well) sequence.now.items) }
    ensures cause { HasCause O.counts_failures_alone (O.faults out.old) (O.faults out.new) result }
    ensures keys { has_keys keys.new ≡ has_keys keys.old }
{
    let placements = sequence.as_slice();
    write_placements(
        out,
        &problem.well,
        &problem.rules,
        problem.drop_mode,
        placements,
        keys,
    )
}
