// A table of fixed room in which each question has one slot.
ghost use Rattle.std.specs.Prelude.{◌≡◌, ◌⊎◌, ◌==◌, All, IfOk, None, [], length, option_copied, slice_get};
ghost use Rattle.fact_table.specs.Entries.{slot_in, with_entry};

use pc_outside::NoMemory;
use std::alloc::Global;
use std::marker::Model;

/// What a table remembers of a question.
pub trait Entry: Drop {
    ghost says_nothing: { Self → Type 0 };

    /// An entry that says nothing.
    fn nothing(alloc: Global) -> Self
        ensures { says_nothing result };
}

impl<T: Drop> Entry for Option<T> {
    ghost says_nothing = { λ entry. entry ≡ None };

    fn nothing(_alloc: Global) -> Option<T> {
        None
    }
}

/// Remembered entries, in fixed room. Each question has one slot, which its hash says, so a later entry evicts an
/// earlier one. A contract sees a table as the list of its entries.
#[derive(Drop)]
pub struct FactTable<E> {
    /// `None` if there is no room.
    entries: Option<Vec<E>>,
}

impl<E> Model for FactTable<E> {
    ghost use Rattle.std.specs.Prelude.{◌<◌, IfSome, List, length};
    ghost use Rattle.fact_table.specs.Entries.{entries_of};

    ghost Value = { List E };

    ghost view = { λ table. entries_of table.entries };

    ghost invariant = { λ table. IfSome table.entries (λ entries. 0 < length entries.items) };
}

impl<E: Entry> FactTable<E> {
    /// A table without room, which keeps nothing.
    pub fn without_room() -> FactTable<E>
        ensures { result ≡ [] }
    {
        FactTable { entries: None }
    }

    /// A table whose entries say nothing. Its room is best a power of two. `NoMemory` if there is not enough memory.
    pub fn new(alloc: Global, room: usize) -> Result<FactTable<E>, NoMemory>
        ensures room { IfOk result (λ table. length table ≡ room) }
        ensures nothing { IfOk result (λ table. All E.says_nothing table) }
    {
        if room == 0 {
            return Ok(FactTable::without_room());
        }
        let mut entries = Vec::with_capacity(alloc, room)?;
        for _ in 0..room {
            entries.push(E::nothing(alloc))?;
        }
        Ok(FactTable {
            entries: Some(entries),
        })
    }

    /// The same, but without room if there is not enough memory.
    pub fn within_memory(alloc: Global, room: usize) -> FactTable<E>
        ensures room { (length result ≡ room) ⊎ (result ≡ []) }
        ensures nothing { All E.says_nothing result }
    {
        match FactTable::new(alloc, room) {
            Ok(table) => table,
            Err(_) => FactTable::without_room(),
        }
    }

    /// Whether it has no room.
    #[inline(always)]
    pub fn is_without_room(&self) -> bool
        ensures { result ≡ (length self.now == 0) }
    {
        self.entries.is_none()
    }

    /// The entry in the slot of the questions with this hash. `None` exactly if there is no room.
    #[inline(always)]
    pub fn entry(&self, hash: u64) -> Option<&E>
        ensures { option_copied result ≡ slice_get self.now (slot_in (length self.now) hash) }
    {
        let entries = self.entries.as_ref()?;
        Some(&entries[hash as usize & (entries.len() - 1)])
    }

    /// Puts an entry in the slot of the questions with this hash.
    #[inline(always)]
    pub fn put(&mut self, hash: u64, entry: E)
        ensures { self.new ≡ with_entry self.old hash entry }
    {
        if let Some(entries) = &mut self.entries {
            let slot = hash as usize & (entries.len() - 1);
            entries[slot] = entry;
        }
    }

    /// Makes each entry say nothing. The room stays.
    pub fn forget(&mut self, alloc: Global)
        ensures room { length self.new ≡ length self.old }
        ensures nothing { All E.says_nothing self.new }
    {
        if let Some(entries) = &mut self.entries {
            for slot in 0..entries.len() {
                entries[slot] = E::nothing(alloc);
            }
        }
    }
}
