//! Why a reader's lines gave no value.
ghost use Rattle.std.specs.Prelude.{◌≡◌};

use spliterator::NoMemory;
use std::alloc::{AllocError, AllocFailed};
use std::io;
use thiserror::Error;

/// Why a reader's lines gave no value.
#[derive(Debug, Drop, Error)]
pub enum LinesError {
    #[error("out of memory")]
    NoMemory,
    /// The place of the first byte that is no text, counted from where the reader stood.
    #[error("not UTF-8 at byte {0}")]
    NotUtf8(u64),
    /// The place where the line begins.
    #[error("a line that is too long begins at byte {0}")]
    LongLine(u64),
    #[error("{0}")]
    Read(io::Error),
    #[error("more than 2^64 bytes")]
    TooLong,
}

impl From<NoMemory> for LinesError {
    ghost use Rattle.line_blocks.specs.declared.error.LinesError.{LinesError};

    ghost from_gives = { λ _ e. e ≡ LinesError.NoMemory };

    fn from(_refused: NoMemory) -> LinesError {
        LinesError::NoMemory
    }
}

impl From<AllocError> for LinesError {
    ghost use Rattle.line_blocks.specs.declared.error.LinesError.{LinesError};

    ghost from_gives = { λ _ e. e ≡ LinesError.NoMemory };

    fn from(_refused: AllocError) -> LinesError {
        LinesError::NoMemory
    }
}

impl<T: Drop> From<AllocFailed<T>> for LinesError {
    ghost use Rattle.line_blocks.specs.declared.error.LinesError.{LinesError};

    ghost from_gives = { λ _ e. e ≡ LinesError.NoMemory };

    fn from(_refused: AllocFailed<T>) -> LinesError {
        LinesError::NoMemory
    }
}
