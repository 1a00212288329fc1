// What a search notes as it goes on.
ghost use Rattle.std.specs.Prelude.{◌≡◌, [], IfOk};
ghost use Rattle.dead_memo.specs.Memo.{kept};

use crate::tilings::Tilings;
use hold_queue::QueueMemory;
use pc_outside::NoMemory;
use std::alloc::Global;

/// What a search has found out about tilings and about queues, and how many floods it has made.
#[derive(Drop)]
pub struct Notes {
    pub tilings: Tilings,
    pub queues: QueueMemory,
    /// How many floods were made, at most the greatest value of a u64.
    pub floods: u64,
}

impl Notes {
    /// Notes of a search that has not begun. `NoMemory` if there is not enough memory.
    pub fn new(alloc: Global) -> Result<Notes, NoMemory>
        ensures floods { IfOk result (λ notes. notes.floods ≡ 0) }
        ensures dead { IfOk result (λ notes. kept notes.tilings.dead ≡ []) }
    {
        let tilings = Tilings::new(alloc)?;
        Ok(Notes {
            tilings,
            queues: QueueMemory::within_memory(alloc),
            floods: 0,
        })
    }
}
