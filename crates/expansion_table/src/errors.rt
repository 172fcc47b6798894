// Why bytes are no expansion table.
ghost use Rattle.std.specs.Prelude.{◌≡◌};
ghost use Rattle.expansion_table.specs.declared.errors.ExpErr.TheVariants.{Memory as OutOfMemory};

use fixed_point::Memory;
use std::alloc::{AllocError, AllocFailed};
use thiserror::Error;

/// The first fault of an expansion file, in this order but for the length, which is looked at twice.
#[derive(Clone, Copy, Debug, PartialEq, Eq, Error)]
pub enum ExpErr {
    /// The bytes don't begin with the tag.
    #[error("expansion tag")]
    Tag,
    /// There are fewer bytes than the head has (16), or not as many as the number of entries asks for.
    #[error("expansion length {want} {got}")]
    Length { want: u64, got: u64 },
    /// The entries are 2^s ticks apart, and s is above 40.
    #[error("expansion spacing {s}")]
    Spacing { s: u32 },
    /// There is no entry, or the first isn't 0, or this is the first that is below the one before, or above it by
    /// more than the ticks between.
    #[error("expansion entry {index}")]
    Entry { index: u64 },
    /// The last entry stands at the tick `got`, which is before the last tick `want`.
    #[error("expansion short {want} {got}")]
    Short { want: u64, got: u64 },
    /// Want of memory.
    #[error("no memory")]
    Memory,
}

impl From<Memory> for ExpErr {
    ghost from_gives = { λ _ e. e ≡ OutOfMemory };

    fn from(_: Memory) -> Self {
        ExpErr::Memory
    }
}

impl From<AllocError> for ExpErr {
    ghost from_gives = { λ _ e. e ≡ OutOfMemory };

    fn from(_: AllocError) -> Self {
        ExpErr::Memory
    }
}

impl<T: Drop> From<AllocFailed<T>> for ExpErr {
    ghost from_gives = { λ _ e. e ≡ OutOfMemory };

    fn from(_: AllocFailed<T>) -> Self {
        ExpErr::Memory
    }
}
