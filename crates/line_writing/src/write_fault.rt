// Why a line was not written, if writing it takes memory.
use pc_outside::{Failed, NoMemory};

/// Why a line was not written, if writing it takes memory.
#[derive(Clone, Copy, Debug, PartialEq, Eq)]
pub enum WriteFault {
    /// A write failed, and the count of faults of its sink rose.
    Failed,
    /// There was not enough memory.
    NoMemory,
}

impl From<Failed> for WriteFault {
    ghost use Rattle.std.specs.Prelude.{◌≡◌};
    ghost use Rattle.line_writing.specs.declared.write_fault.WriteFault.{WriteFault};

    ghost from_gives = { λ _ fault. fault ≡ WriteFault.Failed };

    fn from(_error: Failed) -> WriteFault {
        WriteFault::Failed
    }
}

impl From<NoMemory> for WriteFault {
    ghost use Rattle.std.specs.Prelude.{◌≡◌};
    ghost use Rattle.line_writing.specs.declared.write_fault.WriteFault.{WriteFault};

    ghost from_gives = { λ _ fault. fault ≡ WriteFault.NoMemory };

    fn from(_error: NoMemory) -> WriteFault {
        WriteFault::NoMemory
    }
}
