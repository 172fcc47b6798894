// Why a run isn't taken back.
ghost use Rattle.std.specs.Prelude.{◌≡◌};
ghost use Rattle.rewind.specs.declared.errors.RewindErr.TheVariants.{Memory as OutOfMemory};

use fixed_point::Memory;
use std::alloc::{AllocError, AllocFailed};
use thiserror::Error;

/// The first fault of what a run is taken back from: its last bodies and its bin file.
#[derive(Clone, Copy, Debug, PartialEq, Eq, Error)]
pub enum RewindErr {
    /// The bodies aren't those of the last tick `want`, but of the tick `got`.
    #[error("rewind tick {want} {got}")]
    Tick { want: u64, got: u64 },
    /// The bytes don't begin with the tag.
    #[error("rewind tag")]
    Tag,
    /// The first record that may not stand there, by the place of its size.
    #[error("rewind record at {at}")]
    Record { at: u64 },
    /// What follows the records isn't the end mark.
    #[error("rewind end mark")]
    EndMark,
    /// A momentum was out of range before a kick: the least such id, and its least such axis (0, 1, 2).
    #[error("rewind momentum range id {id} axis {axis}")]
    MomRange { id: u64, axis: u8 },
    /// Other bodies were fast than is told, in the step from a tick on: the least id that is in one list and not in
    /// the other.
    #[error("rewind bins differ tick {tick} id {id}")]
    BinsDiffer { tick: u64, id: u64 },
    /// Want of memory.
    #[error("no memory")]
    Memory,
}

impl From<Memory> for RewindErr {
    ghost from_gives = { λ _ e. e ≡ OutOfMemory };

    fn from(_: Memory) -> Self {
        RewindErr::Memory
    }
}

impl From<AllocError> for RewindErr {
    ghost from_gives = { λ _ e. e ≡ OutOfMemory };

    fn from(_: AllocError) -> Self {
        RewindErr::Memory
    }
}

impl<T: Drop> From<AllocFailed<T>> for RewindErr {
    ghost from_gives = { λ _ e. e ≡ OutOfMemory };

    fn from(_: AllocFailed<T>) -> Self {
        RewindErr::Memory
    }
}
