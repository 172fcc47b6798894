// Why bytes are no catalogue.
ghost use Rattle.std.specs.Prelude.{◌≡◌};
ghost use Rattle.group_file.specs.declared.errors.GroupErr.TheVariants.{Memory as OutOfMemory};

use fixed_point::Memory;
use std::alloc::{AllocError, AllocFailed};
use thiserror::Error;

/// The first fault of a catalogue's bytes. A place is counted in bytes from the start of the file.
#[derive(Clone, Copy, Debug, PartialEq, Eq, Error)]
pub enum GroupErr {
    /// The bytes don't begin with the tag.
    #[error("tag")]
    Tag,
    /// The head, or what begins at this place of a group, runs past the end.
    #[error("truncated at {at}")]
    Truncated { at: u64 },
    /// A label isn't above the one before, a number of ids isn't 1 to 1,048,576, or an id isn't above the one before,
    /// or as the first isn't the label.
    #[error("field at {at}")]
    Field { at: u64 },
    /// Bytes follow the last group.
    #[error("rest at {at}")]
    Rest { at: u64 },
    /// The least id that stands in two groups.
    #[error("repeated id {id}")]
    Repeated { id: u64 },
    /// Want of memory.
    #[error("no memory")]
    Memory,
}

impl From<Memory> for GroupErr {
    ghost from_gives = { λ _ e. e ≡ OutOfMemory };

    fn from(_: Memory) -> Self {
        GroupErr::Memory
    }
}

impl From<AllocError> for GroupErr {
    ghost from_gives = { λ _ e. e ≡ OutOfMemory };

    fn from(_: AllocError) -> Self {
        GroupErr::Memory
    }
}

impl<T: Drop> From<AllocFailed<T>> for GroupErr {
    ghost from_gives = { λ _ e. e ≡ OutOfMemory };

    fn from(_: AllocFailed<T>) -> Self {
        GroupErr::Memory
    }
}
