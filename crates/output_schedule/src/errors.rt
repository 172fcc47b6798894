// Why bytes are no list of times.
ghost use Rattle.std.specs.Prelude.{◌≡◌};
ghost use Rattle.output_schedule.specs.declared.errors.OutputErr.TheVariants.{Memory as OutOfMemory};

use fixed_point::Memory;
use std::alloc::{AllocError, AllocFailed};
use thiserror::Error;

/// What is wrong with an output list.
#[derive(Clone, Copy, Debug, PartialEq, Eq, Error)]
pub enum OutputErr {
    /// The first word of this line, counted from 1, is no whole number of 64 bits.
    #[error("outputs line {line} not a number")]
    NotNumber { line: u64 },
    /// There are this many times, which is more than 65,536.
    #[error("outputs too many {count}")]
    TooMany { count: u64 },
    /// Want of memory.
    #[error("no memory")]
    Memory,
}

impl From<Memory> for OutputErr {
    ghost from_gives = { λ _ e. e ≡ OutOfMemory };

    fn from(_: Memory) -> Self {
        OutputErr::Memory
    }
}

impl From<AllocError> for OutputErr {
    ghost from_gives = { λ _ e. e ≡ OutOfMemory };

    fn from(_: AllocError) -> Self {
        OutputErr::Memory
    }
}

impl<T: Drop> From<AllocFailed<T>> for OutputErr {
    ghost from_gives = { λ _ e. e ≡ OutOfMemory };

    fn from(_: AllocFailed<T>) -> Self {
        OutputErr::Memory
    }
}
