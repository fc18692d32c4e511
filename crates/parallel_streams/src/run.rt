//! How a terminal operation runs, and why it may give no value.
ghost use Rattle.std.specs.Prelude.{◌≡◌};

use spliterator::NoMemory;
use std::alloc::{AllocError, AllocFailed};
use std::fmt::Display;
use stealing_pool::NoGate;
use thiserror::Error;

/// How a terminal operation runs: on how many workers, 1 to 64; down to which estimate of a leaf, at most 2^62, where 0 stands for
/// four leaves a worker, and of a reader's block for one; and who is told of each leaf.
#[derive(Clone, Copy)]
pub struct Run<'a, H> {
    pub workers: u32,
    pub target: u64,
    pub gate: &'a H,
}

impl<H> Run<'_, H> {
    /// The same, and another gate is told of each leaf.
    pub fn with_gate<'g, G>(&self, gate: &'g G) -> Run<'g, G>
        ensures workers { result.workers ≡ self.now.workers }
        ensures target { result.target ≡ self.now.target }
    {
        Run {
            workers: self.workers,
            target: self.target,
            gate,
        }
    }
}

impl Run<'static, NoGate> {
    /// On so many workers, 1 to 64, at target 0, and nobody is told of a leaf.
    pub fn new(workers: u32) -> Run<'static, NoGate>
        ensures workers { result.workers ≡ workers }
        ensures target { result.target ≡ 0 }
    {
        Run {
            workers,
            target: 0,
            gate: &NoGate,
        }
    }
}

/// Why a terminal operation gave no value. Unlawful settings are told before anything runs.
#[derive(Clone, Copy, Debug, PartialEq, Eq, Error)]
pub enum StreamError {
    #[error("out of memory")]
    NoMemory,
    #[error("the number of workers is not 1 to 64")]
    BadWorkers,
    #[error("the target is above 2^62")]
    BadTarget,
}

impl From<NoMemory> for StreamError {
    ghost use Rattle.parallel_streams.specs.declared.run.StreamError.{StreamError};

    ghost from_gives = { λ _ e. e ≡ StreamError.NoMemory };

    fn from(_refused: NoMemory) -> StreamError {
        StreamError::NoMemory
    }
}

impl From<AllocError> for StreamError {
    ghost use Rattle.parallel_streams.specs.declared.run.StreamError.{StreamError};

    ghost from_gives = { λ _ e. e ≡ StreamError.NoMemory };

    fn from(_refused: AllocError) -> StreamError {
        StreamError::NoMemory
    }
}

impl<T: Drop> From<AllocFailed<T>> for StreamError {
    ghost use Rattle.parallel_streams.specs.declared.run.StreamError.{StreamError};

    ghost from_gives = { λ _ e. e ≡ StreamError.NoMemory };

    fn from(_refused: AllocFailed<T>) -> StreamError {
        StreamError::NoMemory
    }
}

/// Why a map with no merge function was not made: as [`StreamError`], or a key repeats.
#[derive(Debug, Drop, Error)]
#[error_bound(K: Display)]
pub enum MapError<K> {
    #[error("out of memory")]
    NoMemory,
    #[error("the number of workers is not 1 to 64")]
    BadWorkers,
    /// The key of the earliest item whose key came before.
    #[error("duplicate key {0}")]
    DuplicateKey(K),
    #[error("the target is above 2^62")]
    BadTarget,
}

impl<K> From<StreamError> for MapError<K> {
    ghost use Rattle.parallel_streams.specs.MapErrors.{map_error};

    ghost from_gives = { λ e m. m ≡ map_error e };

    fn from(error: StreamError) -> MapError<K> {
        match error {
            StreamError::NoMemory => MapError::NoMemory,
            StreamError::BadWorkers => MapError::BadWorkers,
            StreamError::BadTarget => MapError::BadTarget,
        }
    }
}
