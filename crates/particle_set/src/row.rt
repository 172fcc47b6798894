// What a set is made from, and why it can't be made.
ghost use Rattle.std.specs.Prelude.{◌≡◌};
ghost use Rattle.particle_set.specs.declared.row.SetErr.TheVariants.{Memory as SetMemory};

use std::alloc::{AllocError, AllocFailed};
use thiserror::Error;

/// A body as it was read: its position in length units, its momentum not yet known to be in range.
#[derive(Clone, Copy, Debug)]
pub struct Row {
    pub id: u64,
    pub kind: u8,
    pub mass: u32,
    pub pos: [u32; 3],
    pub mom: [i64; 3],
}

/// The first reason, in this order, why rows are no set.
#[derive(Clone, Copy, Debug, PartialEq, Eq, Error)]
pub enum SetErr {
    /// There are more than 1,048,576 rows.
    #[error("too many {n}")]
    TooMany { n: u64 },
    /// The least id that stands twice.
    #[error("repeated id {id}")]
    Repeated { id: u64 },
    /// The least id of a row of mass 0.
    #[error("zero mass id {id}")]
    ZeroMass { id: u64 },
    /// The masses add up to more than 2^32.
    #[error("mass total {sum}")]
    MassTotal { sum: u64 },
    /// The least id of a row with a component of the momentum outside ±2^62.
    #[error("momentum range id {id}")]
    MomRange { id: u64 },
    /// Want of memory.
    #[error("no memory")]
    Memory,
}

impl From<AllocError> for SetErr {
    ghost from_gives = { λ _ e. e ≡ SetMemory };

    fn from(_: AllocError) -> Self {
        SetErr::Memory
    }
}

impl<T: Drop> From<AllocFailed<T>> for SetErr {
    ghost from_gives = { λ _ e. e ≡ SetMemory };

    fn from(_: AllocFailed<T>) -> Self {
        SetErr::Memory
    }
}
