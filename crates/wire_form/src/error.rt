//! Why a value wasn't read.
ghost use Rattle.std.specs.Prelude.{◌≡◌};

use spliterator::NoMemory;
use std::alloc::{AllocError, AllocFailed};
use thiserror::Error;

/// Why a container wasn't read.
#[derive(Clone, Copy, Debug, PartialEq, Eq, Error)]
pub enum WireError {
    #[error("out of memory")]
    NoMemory,
    /// The value isn't the form of a container of this collector.
    #[error("not a container of this collector")]
    OtherForm,
}

impl From<NoMemory> for WireError {
    ghost use Rattle.wire_form.specs.declared.error.WireError.{WireError};

    ghost from_gives = { λ _ e. e ≡ WireError.NoMemory };

    fn from(_refused: NoMemory) -> WireError {
        WireError::NoMemory
    }
}

impl From<AllocError> for WireError {
    ghost use Rattle.wire_form.specs.declared.error.WireError.{WireError};

    ghost from_gives = { λ _ e. e ≡ WireError.NoMemory };

    fn from(_refused: AllocError) -> WireError {
        WireError::NoMemory
    }
}

impl<T: Drop> From<AllocFailed<T>> for WireError {
    ghost use Rattle.wire_form.specs.declared.error.WireError.{WireError};

    ghost from_gives = { λ _ e. e ≡ WireError.NoMemory };

    fn from(_refused: AllocFailed<T>) -> WireError {
        WireError::NoMemory
    }
}
