// What may be wrong with a restart file.
ghost use Rattle.std.specs.Prelude.{◌≡◌};
ghost use Rattle.restart_files.specs.declared.errors.RestartErr.TheVariants.{Memory as OutOfMemory};

use fixed_point::Memory;
use particle_set::SetErr;
use std::alloc::{AllocError, AllocFailed};
use thiserror::Error;

/// The first fault of a restart file. The tag, the length of the head, the version, the number of bodies, the length by
/// it and the end mark are looked at in this order, then each field by its place, and last the bodies together.
#[derive(Clone, Copy, Debug, PartialEq, Eq, Error)]
pub enum RestartErr {
    /// The bytes don't begin with the tag.
    #[error("restart tag")]
    Tag,
    /// There are fewer bytes than a file without bodies has (176), or not as many as the bodies need.
    #[error("restart length {want} {got}")]
    Length { want: u64, got: u64 },
    /// The version, where it is neither 1 nor 2.
    #[error("restart version {v}")]
    Version { v: u32 },
    /// The place of the first number that may not stand there.
    #[error("restart field at {at}")]
    Field { at: u64 },
    /// The bytes don't end with the end mark.
    #[error("restart end mark")]
    EndMark,
    /// The bodies are no set.
    #[error("restart {0}")]
    Bodies(SetErr),
    /// Want of memory.
    #[error("no memory")]
    Memory,
}

impl From<Memory> for RestartErr {
    ghost from_gives = { λ _ e. e ≡ OutOfMemory };

    fn from(_: Memory) -> Self {
        RestartErr::Memory
    }
}

impl From<AllocError> for RestartErr {
    ghost from_gives = { λ _ e. e ≡ OutOfMemory };

    fn from(_: AllocError) -> Self {
        RestartErr::Memory
    }
}

impl<T: Drop> From<AllocFailed<T>> for RestartErr {
    ghost from_gives = { λ _ e. e ≡ OutOfMemory };

    fn from(_: AllocFailed<T>) -> Self {
        RestartErr::Memory
    }
}
