// Which kinds tails want.
ghost use Rattle.std.specs.Prelude.{IsPermutation};
ghost use Rattle.srs.specs.Piece.{all_pieces};

use crate::block::{Block, bits_below, bits_down};
use crate::tail_set::TailSet;
use crate::tree::TailTree;
use queue_pattern::sets::is_in;
use srs::Piece;
use std::cmp::Reverse;

/// How many tails want each code.
type Wanted = [u32; 8];

/// So many more want a code.
fn want(wanted: &mut Wanted, code: usize, count: u32) {
    if code < 8 {
        wanted[code] = wanted[code].wrapping_add(count);
    }
}

/// How many of the first `count` bits from an index on are set.
fn count_within(bits: u64, first: u64, count: u64) -> u32 {
    (bits_down(bits, first) & bits_below(count)).count_ones()
}

impl TailTree {
    /// The tails of a block more: each wants the held piece and the first that it draws.
    fn want_all(&self, wanted: &mut Wanted, block: Block) {
        let front = block.key >> 26;
        want(wanted, (front % 8) as usize, block.bits.count_ones());
        let state_number = (front / 8) as usize;
        if self.states.len() <= state_number {
            return;
        }
        let state = self.states[state_number];
        let each = u64::from(state.each);
        let place = block.place();
        let mut first = 0u64;
        for letter in Piece::ALL {
            if !is_in(letter, state.set) {
                continue;
            }
            let end = first.saturating_add(each).saturating_sub(place);
            let start = first.saturating_sub(place);
            let count = count_within(block.bits, start, end.saturating_sub(start));
            want(wanted, usize::from(letter.code()), count);
            first = first.saturating_add(each);
        }
    }
}

/// How many tails want a kind.
fn count_of(wanted: &Wanted, piece: Piece) -> u32 {
    wanted[usize::from(piece.code())]
}

impl TailSet {
    /// All kinds, those that most tails want first. No clause says in which order.
    pub fn wanted_first(&self, tree: &TailTree) -> [Piece; 7]
        ensures { IsPermutation all_pieces result }
    {
        let mut wanted = [0; 8];
        for block in &self.blocks {
            tree.want_all(&mut wanted, *block);
        }
        let mut kinds = Piece::ALL;
        kinds.sort_unstable_by_key(|piece| Reverse(count_of(&wanted, *piece)));
        kinds
    }
}
