// Why bytes are no table.
ghost use Rattle.std.specs.Prelude.{◌≡◌};
ghost use Rattle.ewald_table.specs.declared.errors.TableErr.TheVariants.{Memory as OutOfMemory};

use fixed_point::Memory;
use std::alloc::{AllocError, AllocFailed};
use thiserror::Error;

/// The first fault of a table file, in this order but for the length, which is looked at twice.
#[derive(Clone, Copy, Debug, PartialEq, Eq, Error)]
pub enum TableErr {
    /// The bytes don't begin with the tag.
    #[error("table tag")]
    Tag,
    /// The grid has 2^g steps on an axis, and g is above 6.
    #[error("table grid {g}")]
    GridRange { g: u32 },
    /// There are fewer bytes than the head has (16), or not as many as the grid asks for.
    #[error("table length {want} {got}")]
    Length { want: u64, got: u64 },
    /// The first entry that has a number other than 0 on an axis on which its point lies on an edge plane.
    #[error("table plane {index}")]
    PlaneNotZero { index: u64 },
    /// Want of memory.
    #[error("no memory")]
    Memory,
}

impl From<Memory> for TableErr {
    ghost from_gives = { λ _ e. e ≡ OutOfMemory };

    fn from(_: Memory) -> Self {
        TableErr::Memory
    }
}

impl From<AllocError> for TableErr {
    ghost from_gives = { λ _ e. e ≡ OutOfMemory };

    fn from(_: AllocError) -> Self {
        TableErr::Memory
    }
}

impl<T: Drop> From<AllocFailed<T>> for TableErr {
    ghost from_gives = { λ _ e. e ≡ OutOfMemory };

    fn from(_: AllocFailed<T>) -> Self {
        TableErr::Memory
    }
}
