//! Why parts gave no answer.
ghost use Rattle.std.specs.Prelude.{◌≡◌};

use crate::{Gaps, Places};
use spliterator::NoMemory;
use std::alloc::{AllocError, AllocFailed};
use thiserror::Error;

/// Why parts gave no answer. Lines are counted from 1.
#[derive(Debug, Drop, Error)]
pub enum PartsError {
    #[error("out of memory")]
    NoMemory,
    #[error("{0} are no places of a part: give two of the whole, the earlier first")]
    Misplaced(Places),
    #[error("line {line} is no JSON: hand in each line as it was written")]
    NoJson { line: usize },
    #[error("line {line} is no part of this version: write it again by this program")]
    OtherFormat { line: usize },
    #[error("line {line} is of the job {job:?}: leave out what other jobs wrote")]
    OtherJob { line: usize, job: String },
    #[error("line {line} tells of {places}, and lines before it of another whole: write it again")]
    OtherWhole { line: usize, places: Places },
    #[error("line {line} has no container of this collector: write it again by this program")]
    OtherContainer { line: usize },
    #[error("no part came: hand in at least one line")]
    NoParts,
    #[error("parts are missing, {0}: run them, and hand in their lines with these")]
    Missing(Gaps),
}

impl From<NoMemory> for PartsError {
    ghost use Rattle.placed_containers.specs.declared.error.PartsError.{PartsError};

    ghost from_gives = { λ _ e. e ≡ PartsError.NoMemory };

    fn from(_refused: NoMemory) -> PartsError {
        PartsError::NoMemory
    }
}

impl From<AllocError> for PartsError {
    ghost use Rattle.placed_containers.specs.declared.error.PartsError.{PartsError};

    ghost from_gives = { λ _ e. e ≡ PartsError.NoMemory };

    fn from(_refused: AllocError) -> PartsError {
        PartsError::NoMemory
    }
}

impl<T: Drop> From<AllocFailed<T>> for PartsError {
    ghost use Rattle.placed_containers.specs.declared.error.PartsError.{PartsError};

    ghost from_gives = { λ _ e. e ≡ PartsError.NoMemory };

    fn from(_refused: AllocFailed<T>) -> PartsError {
        PartsError::NoMemory
    }
}
