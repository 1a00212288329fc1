// What a call tells beside the bits.
ghost use Rattle.std.specs.Prelude.{◌≡◌};
ghost use Rattle.pc_good_queues.specs.declared.answer.NoBits.{NoBits};

use pc_faults::Fault;
use pc_outside::{NoMemory, Refused};

/// How many queues a pattern stands for, at most 10,000,000, and how many of them are good.
#[derive(Clone, Copy, Debug, PartialEq, Eq)]
pub struct QueueCounts {
    pub queues: u32,
    pub good: u32,
}

/// Why no bits were written.
#[derive(Clone, Copy, Debug, PartialEq, Eq)]
pub enum NoBits {
    /// The input has a fault; this is its first one.
    Fault(Fault),
    /// The bits of all queues take more bytes than there is room for.
    NoRoom {
        /// How many queues there are.
        queues: u32,
    },
    /// There was not enough memory.
    NoMemory,
}

impl From<NoMemory> for NoBits {
    ghost from_gives = { λ _ why. why ≡ NoBits.NoMemory };

    fn from(_none: NoMemory) -> NoBits {
        NoBits::NoMemory
    }
}

impl From<Refused<Fault>> for NoBits {
    ghost use Rattle.pc_good_queues.specs.Told.{refusal};

    ghost from_gives = { λ refused why. why ≡ refusal refused };

    fn from(refused: Refused<Fault>) -> NoBits {
        match refused {
            Refused::Fault(fault) => NoBits::Fault(fault),
            Refused::NoMemory => NoBits::NoMemory,
        }
    }
}
