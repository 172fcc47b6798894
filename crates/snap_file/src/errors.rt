// What may be wrong with a snapshot.
ghost use Rattle.std.specs.Prelude.{◌≡◌};
ghost use Rattle.snap_file.specs.declared.errors.SnapErr.TheVariants.{Memory as SnapMemory};

use fixed_point::Memory;
use particle_set::SetErr;
use snapshot_blocks::BlockErr;
use std::alloc::{AllocError, AllocFailed};
use thiserror::Error;

/// The first fault of a snapshot, in this order.
#[derive(Clone, Copy, Debug, PartialEq, Eq, Error)]
pub enum SnapErr {
    /// The frames of the blocks.
    #[error("{0}")]
    Block(BlockErr),
    /// The first block with a known name that stood before.
    #[error("repeated block")]
    RepeatedBlock([u8; 4]),
    /// The first known block that isn't there.
    #[error("missing block")]
    MissingBlock([u8; 4]),
    /// The length of the head in bytes, where it isn't 256.
    #[error("head length {got}")]
    HeadLength { got: u64 },
    /// The head doesn't begin with the tag.
    #[error("head tag")]
    HeadTag,
    /// The count of kind 0, where it isn't 0.
    #[error("gas {count}")]
    Gas { count: u32 },
    /// The first column whose length in bytes doesn't fit the number of bodies.
    #[error("block length {want} {got}")]
    BlockLength { name: [u8; 4], want: u64, got: u64 },
    /// The bodies are no set.
    #[error("{0}")]
    Bodies(SetErr),
    /// Want of memory.
    #[error("no memory")]
    Memory,
}

impl From<AllocError> for SnapErr {
    ghost from_gives = { λ _ e. e ≡ SnapMemory };

    fn from(_: AllocError) -> Self {
        SnapErr::Memory
    }
}

impl<T: Drop> From<AllocFailed<T>> for SnapErr {
    ghost from_gives = { λ _ e. e ≡ SnapMemory };

    fn from(_: AllocFailed<T>) -> Self {
        SnapErr::Memory
    }
}

impl From<Memory> for SnapErr {
    ghost from_gives = { λ _ e. e ≡ SnapMemory };

    fn from(_: Memory) -> Self {
        SnapErr::Memory
    }
}
