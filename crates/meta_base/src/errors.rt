ghost use Rattle.std.specs.Prelude.{◌≡◌};
ghost use Rattle.meta_base.specs.declared.errors.TakeError.TheVariants.{NoMemory as NoMemoryLeft};

use std::alloc::{AllocError, AllocFailed};
use thiserror::Error;

/// A request for memory was refused. Any call that takes memory may answer it, and no contract says
/// when.
#[derive(Clone, Copy, Debug, PartialEq, Eq, Error)]
#[error("out of memory")]
pub struct NoMemory;

impl From<AllocError> for NoMemory {
    fn from(_: AllocError) -> Self {
        NoMemory
    }
}

impl<T: Drop> From<AllocFailed<T>> for NoMemory {
    fn from(_: AllocFailed<T>) -> Self {
        NoMemory
    }
}

/// A call of a shelf or of a sink was refused. The object that refused it counts its faults.
#[derive(Clone, Copy, Debug, PartialEq, Eq, Error)]
#[error("the outside failed")]
pub struct Failed;

/// Why a file was not taken whole.
#[derive(Clone, Copy, Debug, PartialEq, Eq, Error)]
pub enum TakeError {
    /// It could not be begun or read.
    #[error("the file could not be read")]
    Fault,
    /// It has more bytes than the limit.
    #[error("the file is too long")]
    TooLong,
    /// There was no memory for its bytes.
    #[error("out of memory")]
    NoMemory,
}

impl From<AllocError> for TakeError {
    ghost from_gives = { λ _ e. e ≡ NoMemoryLeft };

    fn from(_: AllocError) -> Self {
        TakeError::NoMemory
    }
}
