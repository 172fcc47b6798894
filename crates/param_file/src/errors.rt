// Why bytes spell no settings.
ghost use Rattle.std.specs.Prelude.{◌≡◌};
ghost use Rattle.param_file.specs.declared.errors.ParamKind.TheVariants.{Memory as OutOfMemory};

use crate::names::ParamName;
use fixed_point::Memory;
use std::alloc::{AllocError, AllocFailed};
use thiserror::Error;

/// What is wrong with a parameter file.
#[derive(Clone, Copy, Debug, PartialEq, Eq, Error)]
pub enum ParamKind {
    /// The first word of the line is the name of no row.
    #[error("unknown")]
    Unknown,
    /// The line has no second word.
    #[error("no value")]
    NoValue,
    /// The name stood on an earlier line.
    #[error("repeated")]
    Repeated,
    /// A number was wanted, and some byte isn't a digit.
    #[error("not a number")]
    NotNumber,
    /// A number outside the range of its row, a name that isn't one, or `LowBin` above `TopBin`.
    #[error("out of range")]
    OutOfRange,
    /// This required row stands on no line.
    #[error("missing {0:?}")]
    Missing(ParamName),
    /// Two files would have one name, or one that the other's numbered files may have.
    #[error("clash")]
    Clash,
    /// Want of memory.
    #[error("no memory")]
    Memory,
}

/// The first fault of a parameter file and its line, counted from 1. The line is 0 where no line is at fault.
#[derive(Clone, Copy, Debug, PartialEq, Eq, Error)]
#[error("parameter line {line} {kind}")]
pub struct ParamErr {
    pub line: u64,
    pub kind: ParamKind,
}

impl ParamErr {
    const MEMORY: ParamErr = ParamErr {
        line: 0,
        kind: ParamKind::Memory,
    };
}

impl From<Memory> for ParamErr {
    ghost from_gives = { λ _ e. e.kind ≡ OutOfMemory };

    fn from(_: Memory) -> Self {
        ParamErr::MEMORY
    }
}

impl From<AllocError> for ParamErr {
    ghost from_gives = { λ _ e. e.kind ≡ OutOfMemory };

    fn from(_: AllocError) -> Self {
        ParamErr::MEMORY
    }
}

impl<T: Drop> From<AllocFailed<T>> for ParamErr {
    ghost from_gives = { λ _ e. e.kind ≡ OutOfMemory };

    fn from(_: AllocFailed<T>) -> Self {
        ParamErr::MEMORY
    }
}
