//! Why a program gives no answer, and the status that tells it.
ghost use Rattle.std.specs.Prelude.{◌≡◌};
ghost use Rattle.program_frame.specs.Status.{status_of};

use clap::error::ErrorKind;
use mohairjade::{NoMemory, StreamError};
use std::alloc::{AllocError, Global};
use std::fmt::Display;
use std::io;
use thiserror::Error;

/// The statuses with which a program ends.
pub(crate) const SUCCESS: u8 = 0;

const BAD_DATA: u8 = 1;

const BAD_WORDS: u8 = 2;

const FAILED: u8 = 3;

const INCOMPLETE: u8 = 4;

/// Why a program gives no answer.
#[derive(Debug, Drop, Error)]
pub enum Failure {
    /// What is wrong with the words of the command line, or the help that they ask for.
    #[error("{0}")]
    Words(clap::Error),
    #[error("the words of the command line: {0}")]
    NoWords(io::Error),
    /// What is wrong with the data, and where.
    #[error("{0}")]
    BadData(String),
    #[error("out of memory")]
    NoMemory(#[from(alloc)] AllocError),
    /// What isn't read, or a file that isn't written, and why.
    #[error("{0}: {1}")]
    File(String, io::Error),
    #[error("standard output: {0}")]
    Unwritten(io::Error),
    /// What has yet to come before there is an answer.
    #[error("{0}")]
    Incomplete(String),
}

impl From<clap::Error> for Failure {
    fn from(why: clap::Error) -> Failure {
        match why.kind() {
            ErrorKind::OutOfMemory => Failure::NoMemory(AllocError),
            _ => Failure::Words(why),
        }
    }
}

impl From<StreamError> for Failure {
    fn from(_refused: StreamError) -> Failure {
        Failure::NoMemory(AllocError)
    }
}

impl From<NoMemory> for Failure {
    fn from(_refused: NoMemory) -> Failure {
        Failure::NoMemory(AllocError)
    }
}

impl Failure {
    /// The status with which the program ends.
    pub fn status(&self) -> u8
        ensures { result ≡ status_of self.now }
    {
        match self {
            Failure::BadData(_) => BAD_DATA,
            Failure::Words(_) | Failure::NoWords(_) => BAD_WORDS,
            Failure::NoMemory(_) | Failure::File(_, _) | Failure::Unwritten(_) => FAILED,
            Failure::Incomplete(_) => INCOMPLETE,
        }
    }
}

/// The failure of data that are read under this name.
pub fn bad_data(alloc: Global, name: &str, what: &impl Display) -> Failure {
    match format!(in alloc; "{name}: {what}") {
        Ok(text) => Failure::BadData(text),
        Err(refused) => Failure::NoMemory(refused),
    }
}

/// The failure of a reader, or of a file, of this name.
pub fn failed(alloc: Global, name: &str, error: io::Error) -> Failure {
    match String::from_str(alloc, name) {
        Ok(name) => Failure::File(name, error),
        Err(refused) => Failure::NoMemory(refused),
    }
}
