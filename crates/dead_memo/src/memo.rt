// The store of questions without a tiling.
ghost use Rattle.std.specs.Prelude.{◌≡◌, ◌≤◌, false, IsTrue, ◌↔◌, [], length, Contains, IfOk, OnOk, OnErr};
ghost use Rattle.well.specs.Well.{filled};
ghost use Rattle.prune.specs.Tiling.{Tiling, supply_in};
ghost use Rattle.dead_memo.specs.Question.{question};
ghost use Rattle.dead_memo.specs.Use.{IsUsed, IsNoted};
ghost use Rattle.dead_memo.specs.Keys.{AreDead};

use crate::key::Key;
use lru::LruCache;
use pc_outside::NoMemory;
use std::alloc::Global;
use std::num::NonZeroUsize;
use well::Well;

/// Questions that have no tiling, in the order of their use. A question is the cells of a well in the rows that are
/// left, the number of these rows, and the supply.
#[derive(Drop)]
pub struct DeadMemo {
    cache: LruCache<Key, ()>,
    ghost dead: { AreDead cache },
}

impl DeadMemo {
    ghost use Rattle.dead_memo.specs.Memo.{kept, capacity_of};

    /// An empty store for at most `capacity` questions. `NoMemory` if there is not enough memory.
    pub fn new(alloc: Global, capacity: usize) -> Result<DeadMemo, NoMemory>
        requires some { 1 ≤ capacity }
        requires most { capacity ≤ 65536 }
        ensures empty { IfOk result (λ memo. kept memo ≡ []) }
        ensures capacity { IfOk result (λ memo. capacity_of memo ≡ capacity) }
    {
        let capacity = NonZeroUsize::new(capacity).unwrap();
        let cache = LruCache::new(alloc, capacity)?;
        Ok(DeadMemo { cache })
    }

    /// How many questions the store keeps.
    pub fn len(&self) -> usize
        ensures { result ≡ length (kept self.now) }
    {
        self.cache.len()
    }

    /// Whether the store keeps the question of this well, these rows left and this supply. If so, it becomes the most
    /// recently used one.
    pub fn is_dead(&mut self, well: &Well, rows_left: u8, supply: &[u8; 7]) -> bool
        requires { rows_left ≤ 8 }
        ensures found { IsTrue result ↔ Contains (kept self.old) (question (filled well.now) rows_left supply.now) }
        ensures used { IsTrue result → IsUsed (kept self.old) (question (filled well.now) rows_left supply.now)
            (kept self.new) }
        ensures same { result ≡ false → kept self.new ≡ kept self.old }
        ensures capacity { capacity_of self.new ≡ capacity_of self.old }
        ensures dead { IsTrue result → Tiling (filled well.now) rows_left (supply_in supply.now) → ⊥ }
    {
        self.cache.promote(&Key::new(well, rows_left, supply))
    }

    /// Keeps the question of this well, these rows left and this supply as the most recently used one. If it is new and
    /// the store is full, the least recently used one is evicted. `NoMemory` if there is not enough memory; the store
    /// is then unchanged.
    pub fn note_dead(
        &mut self,
        well: &Well,
        rows_left: u8,
        supply: &[u8; 7],
    ) -> Result<(), NoMemory>
        requires low { rows_left ≤ 8 }
        requires dead { Tiling (filled well.now) rows_left (supply_in supply.now) → ⊥ }
        ensures noted { OnOk result (IsNoted (capacity_of self.old) (kept self.old)
            (question (filled well.now) rows_left supply.now) (kept self.new)) }
        ensures refused { OnErr result (self.new ≡ self.old) }
        ensures capacity { capacity_of self.new ≡ capacity_of self.old }
    {
        self.cache.put(Key::new(well, rows_left, supply), ())?;
        Ok(())
    }
}
