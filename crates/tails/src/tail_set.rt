// Sets of tails. Unions and differences take one pass over both sets.
ghost use Rattle.std.specs.Prelude.{◌≡◌, ℕ, ◌<◌, ◌^◌, ◌||◌, All, IfOk, IsTrue, OnOk, length, slice_index};
ghost use Rattle.std.specs.List.{list_any};
ghost use Rattle.lane_board.specs.Lanes.{has_bit};
ghost use Rattle.hands.specs.Numbers.{has_number};
ghost use Rattle.tails.specs.Blocks.{IsBlock, IsPlace, KeysRise, have_parts, in_block, keys_of};

use crate::block::{Block, bits_below};
use lane_board::words::{bits_of_either, bits_without, has_bit, lowest_bit, without_lowest};
use pc_outside::NoMemory;
use std::alloc::Global;

/// A set of tails, in blocks whose keys rise.
#[derive(Drop)]
pub struct TailSet {
    pub(crate) blocks: Vec<Block>,
    ghost rises: { KeysRise blocks.items },
    ghost each: { All IsBlock blocks.items },
}

/// The index of the first block whose key is not below this one.
fn place_for(blocks: &[Block], key: u64) -> usize
    requires { KeysRise blocks.now }
    ensures { IsPlace blocks.now key result }
{
    let mut low = 0;
    let mut high = blocks.len();
    while low < high {
        let middle = low + (high - low) / 2;
        if blocks[middle].key < key {
            low = middle + 1;
        } else {
            high = middle;
        }
    }
    low
}

/// Whether this is the index of the first block whose key is not below this one.
#[inline(always)]
fn is_place(blocks: &[Block], place: usize, key: u64) -> bool
    requires { KeysRise blocks.now }
    ensures { IsTrue result → IsPlace blocks.now key place }
{
    if blocks.len() < place {
        return false;
    }
    if place > 0 && key <= blocks[place - 1].key {
        return false;
    }
    place == blocks.len() || key <= blocks[place].key
}

/// The same index, looked for first at another one, and right behind it.
#[inline(always)]
fn place_near(blocks: &[Block], near: usize, key: u64) -> usize
    requires { KeysRise blocks.now }
    ensures { IsPlace blocks.now key result }
{
    let mut place = near;
    if near < blocks.len() && blocks[near].key < key {
        place += 1;
    }
    if is_place(blocks, place, key) {
        return place;
    }
    place_for(blocks, key)
}

/// The bits of the block with a key, or none if there is no such block. It is looked for first where the last look-up
/// ended, and right behind it.
#[inline(always)]
pub(crate) fn bits_at(blocks: &[Block], next: &mut usize, key: u64) -> u64
    requires { KeysRise blocks.now }
    ensures { (bit : ℕ) → has_bit result bit ≡ have_parts blocks.now key bit }
{
    let place = place_near(blocks, *next, key);
    *next = place;
    if place < blocks.len() && blocks[place].key == key {
        return blocks[place].bits;
    }
    0
}

/// The numbers of the tails of a block behind those in a list.
fn push_tails(numbers: &mut Vec<u64>, block: Block) -> Result<(), NoMemory>
    requires { block.key < 2 ^ 58 }
    ensures { OnOk result ((tail : ℕ) → has_number numbers.new.items tail
        ≡ (has_number numbers.old.items tail || in_block block tail)) }
{
    let mut bits = block.bits;
    while bits != 0 {
        numbers.push(block.key * 64 + u64::from(lowest_bit(bits)))?;
        bits = without_lowest(bits);
    }
    Ok(())
}

impl TailSet {
    ghost use Rattle.std.specs.Prelude.{◌↔◌, ◌==◌, ◌&&◌, ◌-◌, ◌%◌, ◌≤◌, false, nat_le, nat_lt, not, OnErr};
    ghost use Rattle.tails.specs.TailSets.{block_count, has};

    /// No tail.
    pub fn none(alloc: Global) -> TailSet
        ensures none { (tail : ℕ) → has result tail ≡ false }
        ensures size { block_count result ≡ 0 }
    {
        TailSet {
            blocks: Vec::new(alloc),
        }
    }

    /// No tail, with room for so many blocks.
    fn with_room(alloc: Global, count: usize) -> Result<TailSet, NoMemory>
        ensures { IfOk result (λ none. (tail : ℕ) → has none tail ≡ false) }
    {
        Ok(TailSet {
            blocks: Vec::with_capacity(alloc, count)?,
        })
    }

    /// No tail, with room for as many as another set has.
    pub fn with_room_of(alloc: Global, other: &TailSet) -> Result<TailSet, NoMemory>
        ensures { IfOk result (λ none. (tail : ℕ) → has none tail ≡ false) }
    {
        TailSet::with_room(alloc, other.blocks.len())
    }

    /// The tails of some blocks, which come in any order.
    pub(crate) fn of(alloc: Global, mut blocks: Vec<Block>) -> Result<TailSet, NoMemory>
        requires { All (λ block. block.key < 2 ^ 58) blocks.items }
        ensures { IfOk result (λ tails. (tail : ℕ) → has tails tail
            ≡ list_any (λ block. in_block block tail) blocks.items) }
    {
        blocks.sort_unstable_by_key(|block| block.key);
        let mut tails = TailSet::none(alloc);
        for block in &blocks {
            tails.add(*block)?;
        }
        Ok(tails)
    }

    /// So many tails side by side. The number of the first is a multiple of 64.
    pub(crate) fn run(alloc: Global, first: u64, count: u32) -> Result<TailSet, NoMemory>
        requires begins { first % 64 ≡ 0 }
        requires fits { first < 2 ^ 51 }
        ensures { IfOk result (λ tails. (tail : ℕ) → has tails tail
            ≡ (nat_le first tail && nat_lt (tail - first) count)) }
    {
        let count = u64::from(count);
        let blocks = count.div_ceil(64);
        let mut tails = TailSet::with_room(alloc, blocks as usize)?;
        for index in 0..blocks {
            tails.add(Block {
                key: first / 64 + index,
                bits: bits_below(count - index * 64),
            })?;
        }
        Ok(tails)
    }

    /// The same tails once more.
    pub fn copied(&self, alloc: Global) -> Result<TailSet, NoMemory>
        ensures { IfOk result (λ tails. (tail : ℕ) → has tails tail ≡ has self.now tail) }
    {
        Ok(TailSet {
            blocks: Vec::from_slice(alloc, self.blocks.as_slice())?,
        })
    }

    /// How many tails it has, or the greatest number if there are more. Only the room that is made rests on it.
    fn tail_count(&self) -> usize {
        let mut count = 0usize;
        for block in &self.blocks {
            count = count.saturating_add(block.bits.count_ones() as usize);
        }
        count
    }

    /// The numbers of its tails.
    pub fn numbers(&self, alloc: Global) -> Result<Vec<u64>, NoMemory>
        ensures { IfOk result (λ v. (tail : ℕ) → has_number v.items tail ≡ has self.now tail) }
    {
        let mut numbers = Vec::with_capacity(alloc, self.tail_count())?;
        for block in &self.blocks {
            push_tails(&mut numbers, *block)?;
        }
        Ok(numbers)
    }

    /// How many blocks it has. A block takes 16 bytes, and a set may have room for more.
    pub fn block_count(&self) -> usize
        ensures value { result ≡ block_count self.now }
        ensures few { result < 2 ^ 63 }
    {
        self.blocks.len()
    }

    /// Some of its tails, in at most `count` blocks, and the others.
    pub fn split_at(&self, alloc: Global, count: usize) -> Result<(TailSet, TailSet), NoMemory>
        ensures few { IfOk result (λ v. block_count v.0 ≤ count) }
        ensures parts { IfOk result (λ v. (tail : ℕ) → has self.now tail ≡ (has v.0 tail || has v.1 tail)) }
        ensures size { IfOk result (λ v. block_count v.1 ≡ block_count self.now - count) }
    {
        let cut = count.min(self.blocks.len());
        let blocks = self.blocks.as_slice();
        let first = Vec::from_slice(alloc, &blocks[..cut])?;
        let others = Vec::from_slice(alloc, &blocks[cut..])?;
        Ok((TailSet { blocks: first }, TailSet { blocks: others }))
    }

    /// Whether it has no tail.
    pub fn is_empty(&self) -> bool
        ensures { IsTrue result ↔ ((tail : ℕ) → has self.now tail ≡ false) }
    {
        self.blocks.is_empty()
    }

    /// Whether it has a tail. Its block is looked for first where the last look-up ended.
    #[inline(always)]
    pub fn has_near(&self, next: &mut usize, tail: u64) -> bool
        ensures { result ≡ has self.now tail }
    {
        has_bit(
            bits_at(self.blocks.as_slice(), next, tail / 64),
            (tail % 64) as u16,
        )
    }

    /// Whether it has a tail.
    pub fn has(&self, tail: u64) -> bool
        ensures { result ≡ has self.now tail }
    {
        self.has_near(&mut 0, tail)
    }

    /// One tail more, if it is another. It costs least if its number is the greatest.
    pub fn insert(&mut self, tail: u64) -> Result<(), NoMemory>
        ensures inserted { OnOk result ((other : ℕ) → has self.new other ≡ (has self.old other || tail == other)) }
        ensures refused { OnErr result ((other : ℕ) → has self.new other ≡ has self.old other) }
    {
        self.add(Block {
            key: tail / 64,
            bits: 1 << (tail % 64),
        })
    }

    /// The tails of a block more. It costs least if its key is the greatest.
    #[inline(always)]
    pub(crate) fn add(&mut self, block: Block) -> Result<(), NoMemory>
        requires { block.key < 2 ^ 58 }
        ensures added { OnOk result ((tail : ℕ) → has self.new tail ≡ (has self.old tail || in_block block tail)) }
        ensures refused { OnErr result ((tail : ℕ) → has self.new tail ≡ has self.old tail) }
    {
        if block.bits == 0 {
            return Ok(());
        }
        let count = self.blocks.len();
        if count == 0 || self.blocks[count - 1].key < block.key {
            return Ok(self.blocks.push(block)?);
        }
        if self.blocks[count - 1].key == block.key {
            self.blocks[count - 1].bits = bits_of_either(self.blocks[count - 1].bits, block.bits);
            return Ok(());
        }
        self.insert_block(block)
    }

    /// The same for a block of some tails whose key is below that of the last block.
    #[inline(never)]
    fn insert_block(&mut self, block: Block) -> Result<(), NoMemory>
        requires block { IsBlock block }
        requires some { 0 < length self.old.blocks.items }
        requires before { block.key < slice_index (keys_of self.old.blocks.items) (length self.old.blocks.items - 1) }
        ensures added { OnOk result ((tail : ℕ) → has self.new tail ≡ (has self.old tail || in_block block tail)) }
        ensures refused { OnErr result ((tail : ℕ) → has self.new tail ≡ has self.old tail) }
    {
        let mut index = self.blocks.len() - 1;
        while index > 0 && self.blocks[index - 1].key >= block.key {
            index -= 1;
        }
        if self.blocks[index].key == block.key {
            self.blocks[index].bits = bits_of_either(self.blocks[index].bits, block.bits);
            return Ok(());
        }
        Ok(self.blocks.insert(index, block)?)
    }

    /// The tails that are in either set.
    pub fn merged(&self, alloc: Global, other: &TailSet) -> Result<TailSet, NoMemory>
        ensures { IfOk result (λ tails. (tail : ℕ) → has tails tail ≡ (has self.now tail || has other.now tail)) }
    {
        if other.is_empty() {
            return self.copied(alloc);
        }
        if self.is_empty() {
            return other.copied(alloc);
        }
        let others = other.blocks.as_slice();
        let mut tails = TailSet::with_room(alloc, self.blocks.len().saturating_add(others.len()))?;
        let mut next = 0;
        for block in &self.blocks {
            while next < others.len() && others[next].key <= block.key {
                tails.add(others[next])?;
                next += 1;
            }
            tails.add(*block)?;
        }
        while next < others.len() {
            tails.add(others[next])?;
            next += 1;
        }
        Ok(tails)
    }

    /// The tails that are not in another set.
    pub fn without(&self, alloc: Global, other: &TailSet) -> Result<TailSet, NoMemory>
        ensures { IfOk result (λ tails. (tail : ℕ) →
            has tails tail ≡ (has self.now tail && not (has other.now tail))) }
    {
        if other.is_empty() {
            return self.copied(alloc);
        }
        let others = other.blocks.as_slice();
        let mut tails = TailSet::with_room_of(alloc, self)?;
        let mut next = 0;
        for block in &self.blocks {
            let gone = bits_at(others, &mut next, block.key);
            tails.add(Block {
                key: block.key,
                bits: bits_without(block.bits, gone),
            })?;
        }
        Ok(tails)
    }
}
