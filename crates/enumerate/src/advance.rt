// The step from one solution to the next.
ghost use Rattle.std.specs.Prelude.{◌≡◌, ◌+◌, ◌<◌, ◌≤◌, true, IsTrue, [], length, nat_lt, take};
ghost use Rattle.reach.specs.FloodRules.{flood_table};
ghost use Rattle.enumerate.specs.Counted.{CountsUp};
ghost use Rattle.enumerate.specs.Events.{found, floods};
ghost use Rattle.enumerate.specs.Frames.{has_room, path_of, stacked};
ghost use Rattle.enumerate.specs.Walks.{Finds, IsTry};

use crate::frame::Frame;
use crate::notes::Notes;
use crate::trying::Tried;
use moves::DropMode;
use problem::Sequence;
use reach::{FloodRules, Steps};
use std::sync::ledger::Ledger;

/// The placement that each of these frames entered last, in order.
pub fn path(frames: &[Frame]) -> Sequence
    requires { length frames.now ≤ 20 }
    ensures { result.items ≡ path_of frames.now }
{
    let mut sequence = Sequence::new();
    for frame in frames {
        if let Some(placement) = frame.entered {
            sequence.push(placement);
        }
    }
    sequence
}

/// One try at the deepest of the frames in use. Returns how many frames are in use afterwards, and whether a solution
/// was completed.
fn try_deepest<L: Ledger>(
    frames: &mut [Frame; 20],
    depth: usize,
    rules: &FloodRules,
    drop_mode: DropMode,
    notes: &mut Notes,
    steps: &mut Steps<L>,
) -> (usize, bool)
    requires some { 0 < depth }
    requires within { depth ≤ 20 }
    requires room { IsTrue (has_room 0 (take depth frames.old)) }
    ensures within { result.0 ≤ 20 }
    ensures solved { result.1 ≡ true → 0 < result.0 }
    ensures tries { IsTry (flood_table rules.now) drop_mode (take depth frames.old)
        (take result.0 frames.new) steps.old steps.new result.1 }
    ensures noted { CountsUp notes.old.floods notes.new.floods steps.old steps.new }
{
    let top = depth - 1;
    let (walked, behind) = frames.split_at_mut(depth);
    let frame = &mut walked[top];
    match frame.try_next(rules, drop_mode, behind, notes, steps) {
        Tried::Passed => (depth, false),
        Tried::Flooded => (depth, false),
        Tried::Entered => (depth + 1, false),
        Tried::Full => (depth, true),
        Tried::Over => (top, false),
    }
}

/// Goes on to the next solution. Returns how many frames are in use afterwards, which is 0 if no solution is left.
pub fn advance<L: Ledger>(
    frames: &mut [Frame; 20],
    depth: usize,
    rules: &FloodRules,
    drop_mode: DropMode,
    notes: &mut Notes,
    steps: &mut Steps<L>,
) -> usize
    requires within { depth ≤ 20 }
    requires room { IsTrue (has_room 0 (take depth frames.old)) }
    ensures within { result ≤ 20 }
    ensures room { IsTrue (has_room 0 (take result frames.new)) }
    ensures found { Finds
        (found (stacked (flood_table rules.now) drop_mode [] (take depth frames.old)))
        (found (stacked (flood_table rules.now) drop_mode [] (take result frames.new)))
        (path_of (take result frames.new)) (nat_lt 0 result) }
    ensures counted { floods (stacked (flood_table rules.now) drop_mode [] (take depth frames.old)) + steps.old
        ≡ floods (stacked (flood_table rules.now) drop_mode [] (take result frames.new)) + steps.new }
    ensures fewer { floods (stacked (flood_table rules.now) drop_mode [] (take result frames.new))
        ≤ floods (stacked (flood_table rules.now) drop_mode [] (take depth frames.old)) }
    ensures noted { CountsUp notes.old.floods notes.new.floods steps.old steps.new }
{
    let mut depth = depth;
    while depth > 0 {
        let (next, found) = try_deepest(frames, depth, rules, drop_mode, notes, steps);
        depth = next;
        if found {
            return depth;
        }
    }
    0
}
