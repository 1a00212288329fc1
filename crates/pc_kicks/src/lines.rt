// The lines that `kicks` writes.
ghost use Rattle.std.specs.Prelude.{◌≡◌, ◌++◌, ◌⊎◌, map, IfOk, OnOk};
ghost use Rattle.srs.specs.Kick.{pair_of, kicks_of};
ghost use Rattle.srs.specs.Rotation.{anticlockwise_of, clockwise_of};
ghost use Rattle.srs.specs.Rules.{table_of};
ghost use Rattle.pc_kicks.specs.Lines.{entry_lines, kicks_form, turn_line, turn_lines};

use kick_file::{push_entry, push_offsets};
use pc_outside::NoMemory;
use srs::{Offset, Piece, Rotation, Rules, kick};
use std::alloc::Global;

/// The kicks of a turn, in the order of the tests.
fn kicks_of(rules: &Rules, piece: Piece, from: Rotation, to: Rotation) -> [Offset; 5]
    requires { (to ≡ clockwise_of from) ⊎ (to ≡ anticlockwise_of from) }
    ensures { map pair_of result ≡ kicks_of (table_of rules.now) piece from to }
{
    [
        kick(rules, piece, from, to, 1),
        kick(rules, piece, from, to, 2),
        kick(rules, piece, from, to, 3),
        kick(rules, piece, from, to, 4),
        kick(rules, piece, from, to, 5),
    ]
}

/// Appends the line of a turn.
#[tactic(auto, unfolding(crate::specs::Lines::turn_line))]
fn push_turn(
    text: &mut Vec<u8>,
    rules: &Rules,
    piece: Piece,
    from: Rotation,
    to: Rotation,
) -> Result<(), NoMemory>
    requires { (to ≡ clockwise_of from) ⊎ (to ≡ anticlockwise_of from) }
    ensures { OnOk result (text.new.items ≡ text.old.items ++ turn_line (table_of rules.now) piece from to) }
{
    text.extend_from_slice(&[piece.letter(), from.letter(), to.letter(), b':'])?;
    push_offsets(text, &kicks_of(rules, piece, from, to))?;
    text.push(b'\n')?;
    Ok(())
}

/// Appends the lines of the turns of a piece, clockwise and anticlockwise.
fn push_turns(text: &mut Vec<u8>, rules: &Rules, piece: Piece) -> Result<(), NoMemory>
    ensures { OnOk result (text.new.items ≡ text.old.items ++ turn_lines (table_of rules.now) piece) }
{
    for from in Rotation::ALL {
        push_turn(text, rules, piece, from, from.clockwise())?;
        push_turn(text, rules, piece, from, from.anticlockwise())?;
    }
    Ok(())
}

/// Appends the lines of the entries of a piece.
fn push_entries(text: &mut Vec<u8>, rules: &Rules, piece: Piece) -> Result<(), NoMemory>
    ensures { OnOk result (text.new.items ≡ text.old.items ++ entry_lines (table_of rules.now) piece) }
{
    for rotation in Rotation::ALL {
        push_entry(text, rules, piece, rotation)?;
        text.push(b'\n')?;
    }
    Ok(())
}

/// The lines of a table: its entries, and then the kicks of the turns.
pub fn lines_of(alloc: Global, rules: &Rules) -> Result<Vec<u8>, NoMemory>
    ensures { IfOk result (λ text. text.items ≡ kicks_form (table_of rules.now)) }
{
    let mut text = Vec::new(alloc);
    'entries: for piece in Piece::ALL {
        push_entries(&mut text, rules, piece)?;
    }
    'turns: for piece in Piece::ALL {
        push_turns(&mut text, rules, piece)?;
    }
    Ok(text)
}
