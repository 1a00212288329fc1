// Answers other than results: no memory, a fault of the input, a failed read or write.
ghost use Rattle.std.specs.Prelude.{◌≡◌};
ghost use Rattle.pc_outside.specs.declared.answers.Refused.{Refused};

use std::alloc::{AllocError, AllocFailed};

/// There was not enough memory.
#[derive(Clone, Copy, Debug, PartialEq, Eq)]
pub struct NoMemory;

/// Why a call that needs memory gave no result: its input has a fault, or memory ran out.
#[derive(Clone, Copy, Debug, PartialEq, Eq)]
pub enum Refused<F> {
    /// The first fault of the input.
    Fault(F),
    /// There was not enough memory.
    NoMemory,
}

/// A read or write failed, and the count of faults of its source or sink rose.
#[derive(Clone, Copy, Debug, PartialEq, Eq)]
pub struct Failed;

impl From<AllocError> for NoMemory {
    fn from(_error: AllocError) -> NoMemory {
        NoMemory
    }
}

impl<T: Drop> From<AllocFailed<T>> for NoMemory {
    fn from(_error: AllocFailed<T>) -> NoMemory {
        NoMemory
    }
}

impl<F> From<NoMemory> for Refused<F> {
    ghost from_gives = { λ _ refused. refused ≡ Refused.NoMemory };

    fn from(_error: NoMemory) -> Refused<F> {
        Refused::NoMemory
    }
}

impl<F> From<AllocError> for Refused<F> {
    ghost from_gives = { λ _ refused. refused ≡ Refused.NoMemory };

    fn from(_error: AllocError) -> Refused<F> {
        Refused::NoMemory
    }
}

impl<F, T: Drop> From<AllocFailed<T>> for Refused<F> {
    ghost from_gives = { λ _ refused. refused ≡ Refused.NoMemory };

    fn from(_error: AllocFailed<T>) -> Refused<F> {
        Refused::NoMemory
    }
}
