// What a call on files may answer beside its value.
ghost use Rattle.std.specs.Prelude.{◌≡◌};
ghost use Rattle.store_io.specs.declared.errors.IoErr.TheVariants.{Memory as IoMemory};
ghost use Rattle.store_io.specs.declared.errors.LenErr.TheVariants.{Memory as LenMemory};
ghost use Rattle.store_io.specs.declared.errors.ReadErr.TheVariants.{Memory as ReadMemory};

use fixed_point::Memory;
use std::alloc::{AllocError, AllocFailed};
use thiserror::Error;

/// What `length` answers where it has no length.
#[derive(Clone, Copy, Debug, PartialEq, Eq, Error)]
pub enum LenErr {
    /// There is no file of this name.
    #[error("absent")]
    Absent,
    /// The count of faults rose.
    #[error("failed")]
    Failed,
    /// Want of memory.
    #[error("out of memory")]
    Memory,
}

/// What every other call on files, and a write to a sink, answers where it isn't done.
#[derive(Clone, Copy, Debug, PartialEq, Eq, Error)]
pub enum IoErr {
    /// The count of faults rose.
    #[error("failed")]
    Failed,
    /// Want of memory.
    #[error("out of memory")]
    Memory,
}

/// What `read_whole` answers where it has no bytes.
#[derive(Clone, Copy, Debug, PartialEq, Eq, Error)]
pub enum ReadErr {
    /// There is no file of this name.
    #[error("absent")]
    Absent,
    /// The count of faults rose.
    #[error("failed")]
    Failed,
    /// The file has `len` bytes, which is above the limit.
    #[error("{len} bytes are too many")]
    TooLong { len: u64 },
    /// Want of memory.
    #[error("out of memory")]
    Memory,
}

impl From<Memory> for IoErr {
    ghost from_gives = { λ _ e. e ≡ IoMemory };

    fn from(_: Memory) -> Self {
        IoErr::Memory
    }
}

impl From<Memory> for LenErr {
    ghost from_gives = { λ _ e. e ≡ LenMemory };

    fn from(_: Memory) -> Self {
        LenErr::Memory
    }
}

impl From<Memory> for ReadErr {
    ghost from_gives = { λ _ e. e ≡ ReadMemory };

    fn from(_: Memory) -> Self {
        ReadErr::Memory
    }
}

impl<T: Drop> From<AllocFailed<T>> for IoErr {
    ghost from_gives = { λ _ e. e ≡ IoMemory };

    fn from(_: AllocFailed<T>) -> Self {
        IoErr::Memory
    }
}

impl From<AllocError> for IoErr {
    ghost from_gives = { λ _ e. e ≡ IoMemory };

    fn from(_: AllocError) -> Self {
        IoErr::Memory
    }
}

impl From<AllocError> for ReadErr {
    ghost from_gives = { λ _ e. e ≡ ReadMemory };

    fn from(_: AllocError) -> Self {
        ReadErr::Memory
    }
}
