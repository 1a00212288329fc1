// The tilings at a position: listed there, or those at the position before it that have the piece placed since.
ghost use Rattle.std.specs.Prelude.{◌≡◌, ◌≤◌, ℕ, Bool, IfSome};
ghost use Rattle.hands.specs.Numbers.{has_number};
ghost use Rattle.percent.specs.Children.{IsChild};
ghost use Rattle.percent.specs.ListedHands.{AreMarksOf, AreRestsAt};

use crate::fitting::{Counts, counts_of};
use crate::game::Game;
use crate::marks::{Mark, Marks, index_of};
use crate::position::{Child, Position};
use crate::spread::rows_among;
use empty_cells::Empties;
use hold_queue::Hold;
use std::alloc::Global;
use tiled_pieces::Lister;

/// The counts of some hands, each once, or none if there are more than `most` of them or not enough memory for them.
fn all_counts(alloc: Global, hands: &[u64], pieces: u8, most: usize) -> Vec<Counts> {
    let mut v = Vec::new(alloc);
    if most == 0 {
        return v;
    }
    for hand in hands {
        let counts = counts_of(*hand, pieces);
        if v.as_slice().contains(&counts) {
            continue;
        }
        if v.len() == most || v.push(counts).is_err() {
            return Vec::new(alloc);
        }
    }
    v
}

/// For how many counts of pieces it pays to list the ordered tilings of a position, with `left` placements to come.
/// High fields have too many, and there are many more where a piece of each hand stays over.
pub fn most_counts(hold: Hold, rows: u8, left: u8) -> usize {
    let most_left = match hold {
        Hold::Avoided => 9,
        Hold::Allowed => 8,
    };
    if rows <= 4 && left <= most_left {
        return 64;
    }
    if left <= 4 { 8 } else { 0 }
}

/// All ordered tilings at a position by the pieces of some hands, with `left` placements to come. If they can't be
/// listed, or there is not enough memory for them, nothing is known.
pub fn marks_of(
    alloc: Global,
    lister: &mut Lister,
    game: &Game,
    position: &Position,
    left: u8,
    hands: &[u64],
) -> Marks
    requires { left ≤ 20 }
    ensures game { result.game ≡ game.now }
    ensures position { result.position ≡ position.now }
    ensures all { (to_come : ℕ) (any : ℕ → Bool) → AreMarksOf result to_come any }
{
    let most = most_counts(game.hold, position.rows, left);
    let all = all_counts(alloc, hands, left + 1, most);
    let mut marks = Marks::new(alloc, game, position);
    for counts in &all {
        if !marks.list(alloc, lister, *counts) {
            return Marks::new(alloc, game, position);
        }
    }
    marks
}

impl Marks {
    ghost use Rattle.std.specs.Prelude.{◌+◌, ◌<◌, slice_index};
    ghost use Rattle.lane_board.specs.Field.{difference};
    ghost use Rattle.empty_cells.specs.Empties.{empty_cells};
    ghost use Rattle.empty_cells.specs.SentCells.{sent_cells};
    ghost use Rattle.percent.specs.Fitting.{codes_in};
    ghost use Rattle.percent.specs.ListedHands.{IsRestAt, ListsHand};

    /// The mark of the pieces of a hand after a placement: the tilings that have its piece. `None` if they had no mark
    /// before it, or if there is not enough memory.
    fn mark_after(
        &self,
        alloc: Global,
        child: &Child,
        left: u8,
        hand: u64,
        counts: Counts,
        taken: &Empties,
    ) -> Option<Mark>
        requires few { left ≤ 20 }
        requires child { IsChild self.now.game self.now.position child.now.placement.piece child.now }
        requires counts { (code : ℕ) → code < 8 → slice_index counts code ≡ codes_in (left + 1) hand code }
        requires taken { empty_cells taken.now ≡ sent_cells self.now.rows child.now.placement }
        ensures { IfSome result (λ mark. (rest : ℕ) → IsRestAt self.now child.now.placement.piece left rest
            → ListsHand (difference (empty_cells self.now.cells) (sent_cells self.now.rows child.now.placement))
            self.now.drops self.now.game.hold left rest mark) }
    {
        let piece = child.placement.piece;
        let index = self.index_with(hand, left, piece, None)?;
        let mark = &self.known[index as usize];
        match mark.tilings.with(alloc, piece, taken) {
            Ok(tilings) => Some(Mark { counts, tilings }),
            Err(_) => None,
        }
    }

    /// What is known of the tilings at the position after a placement, by the pieces of some hands. A mark for which
    /// there is not enough memory is left out.
    pub fn after(&self, alloc: Global, child: &Child, left: u8, hands: &[u64]) -> Marks
        requires few { left ≤ 20 }
        requires child { IsChild self.now.game self.now.position child.now.placement.piece child.now }
        requires rests { AreRestsAt self.now child.now.placement.piece left (has_number hands.now) }
        ensures game { result.game ≡ self.now.game }
        ensures position { result.position ≡ child.now.position }
        ensures lists { AreMarksOf result left (has_number hands.now) }
    {
        let taken = self.taken(&child.placement);
        let cells = self.cells.without_cells(&taken);
        let mut known = Vec::new(alloc);
        let mut likely = None;
        for hand in hands {
            let counts = counts_of(*hand, left + 1);
            likely = index_of(known.as_slice(), &counts, likely);
            if likely.is_some() {
                continue;
            }
            if let Some(mark) = self.mark_after(alloc, child, left, *hand, counts, &taken) {
                let _ = known.push(mark);
            }
        }
        Marks {
            game: self.game,
            drops: self.drops,
            position: child.position,
            cells,
            rows: rows_among(&self.rows, self.position.rows, cells.rows()),
            known,
        }
    }
}
