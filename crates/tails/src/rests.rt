// What is left of tails when a piece is taken, and which tails lead to such a rest.
ghost use Rattle.std.specs.Prelude.{◌≡◌, ℕ, ◌+◌, ◌-◌, ◌/◌, ◌^◌, ◌<◌, ◌&&◌, ◌||◌, not, nat_le, nat_lt, All, IfOk, OnOk};
ghost use Rattle.std.specs.List.{list_any};
ghost use Rattle.srs.specs.Piece.{piece_code};
ghost use Rattle.lane_board.specs.Lanes.{has_bit};
ghost use Rattle.tails.specs.Tails.{AreTails, leads};
ghost use Rattle.tails.specs.TailSets.{AreRests, has};
ghost use Rattle.tails.specs.Blocks.{in_block};
ghost use Rattle.tails.specs.Takings.{AreLastTakings, IsTaking, in_some, is_sent, runs_to};

use crate::block::{Block, bits_below, bits_down, bits_up};
use crate::laws::hands_are_taken_from_by_tails;
use crate::tail_set::{TailSet, bits_at};
use crate::takings::{Taking, Takings};
use crate::tree::TailTree;
use lane_board::words::{bits_of_either, bits_without};
use pc_outside::NoMemory;
use srs::Piece;
use std::alloc::Global;

/// A block behind the others, if it has a tail.
fn push_some(blocks: &mut Vec<Block>, block: Block) -> Result<(), NoMemory>
    requires block { block.key < 2 ^ 58 }
    requires fit { All (λ block. block.key < 2 ^ 58) blocks.old.items }
    ensures fit { OnOk result (All (λ block. block.key < 2 ^ 58) blocks.new.items) }
    ensures pushed { OnOk result ((tail : ℕ) →
        in_some blocks.new.items tail ≡ (in_some blocks.old.items tail || in_block block tail)) }
{
    if block.bits != 0 {
        blocks.push(block)?;
    }
    Ok(())
}

/// What is left of the tails of a block in these ways, behind the others.
#[inline(always)]
fn push_rests(rests: &mut Vec<Block>, block: Block, takings: &[Taking]) -> Result<(), NoMemory>
    requires takings { All IsTaking takings.now }
    requires fit { All (λ block. block.key < 2 ^ 58) rests.old.items }
    ensures fit { OnOk result (All (λ block. block.key < 2 ^ 58) rests.new.items) }
    ensures pushed { OnOk result ((tail : ℕ) → in_some rests.new.items tail
        ≡ (in_some rests.old.items tail || list_any (λ taking. is_sent block taking tail) takings.now)) }
{
    for taking in takings {
        let (low, high) = block.sent(taking);
        push_some(rests, low)?;
        push_some(rests, high)?;
    }
    Ok(())
}

/// The ways in which a piece can be taken from the tails of the last state that was asked about.
#[derive(Drop)]
struct LastTakings {
    /// The state and the held piece, as they stand in a tail's number.
    front: u64,
    takings: Takings,
}

impl LastTakings {
    fn new(tree: &TailTree, piece: Piece, key: u64) -> LastTakings
        requires { key < 2 ^ 45 }
        ensures last { AreLastTakings tree.now (piece_code piece) result }
        ensures front { result.front ≡ key / 2 ^ 26 }
    {
        let front = key >> 26;
        LastTakings {
            front,
            takings: tree.takings((front / 8) as u16, (front % 8) as u8, piece),
        }
    }

    /// The ways for the tails of a block.
    #[inline(always)]
    fn go_to(&mut self, tree: &TailTree, piece: Piece, key: u64)
        requires key { key < 2 ^ 45 }
        requires last { AreLastTakings tree.now (piece_code piece) self.old }
        ensures last { AreLastTakings tree.now (piece_code piece) self.new }
        ensures front { self.new.front ≡ key / 2 ^ 26 }
    {
        if key >> 26 != self.front {
            *self = LastTakings::new(tree, piece, key);
        }
    }
}

impl TailSet {
    /// Which of 64 tails side by side are in a run of those that have a rest here, one bit each. The first of them has
    /// this place among the tails of its state. A rest is looked for first where the last look-up ended.
    #[inline(always)]
    fn window(&self, next: &mut usize, taking: &Taking, place: u64) -> u64
        requires { IsTaking taking.now }
        ensures { (k : ℕ) → has_bit result k ≡ (nat_lt k 64 && (nat_le taking.now.first (place + k)
            && (nat_lt (place + k - taking.now.first) taking.now.count
            && has self.now (taking.now.base + (place + k - taking.now.first))))) }
    {
        let blocks = self.blocks.as_slice();
        let first = u64::from(taking.first);
        let count = u64::from(taking.count);
        let key = taking.base / 64;
        if place < first {
            let before = first - place;
            if before > 63 {
                return 0;
            }
            return bits_up(bits_at(blocks, next, key) & bits_below(count), before);
        }
        let behind = place - first;
        if count <= behind {
            return 0;
        }
        let shift = behind % 64;
        let low = bits_down(bits_at(blocks, next, key + behind / 64), shift);
        let mut found = low;
        if shift > 0 {
            found = bits_of_either(
                low,
                bits_up(bits_at(blocks, next, key + behind / 64 + 1), 64 - shift),
            );
        }
        found & bits_below(count - behind)
    }

    /// Which of 64 tails side by side have a rest here in one of these ways, one bit each.
    #[inline(always)]
    fn leading(&self, next: &mut usize, takings: &[Taking], place: u64) -> u64
        requires { All IsTaking takings.now }
        ensures { (k : ℕ) → has_bit result k
            ≡ (nat_lt k 64 && list_any (runs_to (has self.now) (place + k)) takings.now) }
    {
        let mut leading = 0;
        for taking in takings {
            leading = bits_of_either(leading, self.window(next, taking, place));
        }
        leading
    }

    /// What is left of the tails from which a piece can be taken.
    pub fn rests_of(
        &self,
        alloc: Global,
        tree: &TailTree,
        piece: Piece,
    ) -> Result<TailSet, NoMemory>
        requires { AreTails tree.now (has self.now) }
        ensures { IfOk result (λ rests. AreRests tree.now (piece_code piece) (has self.now) (has rests)) }
    {
        hands_are_taken_from_by_tails();
        let mut rests = Vec::new(alloc);
        let mut last = LastTakings::new(tree, piece, 0);
        for block in &self.blocks {
            last.go_to(tree, piece, block.key);
            push_rests(&mut rests, *block, last.takings.as_slice())?;
        }
        TailSet::of(alloc, rests)
    }

    /// The tails from which a piece can't be taken so that one of these rests is left.
    pub fn not_leading_to(
        self,
        alloc: Global,
        tree: &TailTree,
        piece: Piece,
        rests: &TailSet,
    ) -> Result<TailSet, NoMemory>
        requires { AreTails tree.now (has self) }
        ensures { IfOk result (λ tails. (tail : ℕ) → has tails tail
            ≡ (has self tail && not (leads tree.now (piece_code piece) (has rests.now) tail))) }
    {
        if rests.is_empty() {
            return Ok(self);
        }
        let mut tails = TailSet::with_room_of(alloc, &self)?;
        let mut last = LastTakings::new(tree, piece, 0);
        let mut next = 0;
        for block in &self.blocks {
            last.go_to(tree, piece, block.key);
            let leading = rests.leading(&mut next, last.takings.as_slice(), block.place());
            tails.add(Block {
                key: block.key,
                bits: bits_without(block.bits, leading),
            })?;
        }
        Ok(tails)
    }
}
