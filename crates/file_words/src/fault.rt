//! What is wrong with a pipeline file, and why one was not read.

ghost use Rattle.std.specs.Prelude.{◌≡◌, Some};
ghost use Rattle.file_words.specs.declared.fault.ReadError.TheVariants.{NoMemory};
ghost use Rattle.file_words.specs.declared.fault.LineError.TheVariants as lines;
ghost use Rattle.file_words.specs.Faults.{fault_name, fault_text, read_error_at};

use std::alloc::{AllocError, AllocFailed};
use std::error::Error;
use std::fmt;
use thiserror::Error;

/// A fault of a line, by its number in the language; within a line the lowest number is told.
#[derive(Clone, Copy, Debug, PartialEq, Eq)]
pub enum FileError {
    /// The line isn't UTF-8.
    BadText = 1,
    /// The file has more than 1,048,576 bytes. The line told is 0.
    TooLarge = 2,
    /// The first line is neither `pipeline 1` nor `pipeline 2`.
    BadVersion = 3,
    /// A word stands where a name is wanted and isn't one of the names of that place.
    UnknownWord = 4,
    /// Words are missing at the end, or left over.
    BadArity = 5,
    /// A word in a number's place is no number, or is out of the place's range.
    BadNumber = 6,
    /// A function does not take the items there.
    WrongKind = 7,
    /// A range of more than 2^62 items.
    RangeTooLong = 8,
    /// The file ends before its terminal line. The line told is the number of lines plus 1.
    MissingTerminal = 9,
    /// A line follows the terminal line.
    AfterTerminal = 10,
    /// A stage line that is the 33rd.
    TooManyStages = 11,
}

// The numbers are the language's, whatever stands above.
const _: () = prove!(
    FileError::BadText as u8 == 1
        && FileError::TooLarge as u8 == 2
        && FileError::BadVersion as u8 == 3
        && FileError::UnknownWord as u8 == 4
        && FileError::BadArity as u8 == 5
        && FileError::BadNumber as u8 == 6
        && FileError::WrongKind as u8 == 7
        && FileError::RangeTooLong as u8 == 8
        && FileError::MissingTerminal as u8 == 9
        && FileError::AfterTerminal as u8 == 10
        && FileError::TooManyStages as u8 == 11
);

/// The first fault of a file. Lines are numbered from 1.
#[derive(Clone, Copy, Debug, PartialEq, Eq)]
pub struct FileFault {
    pub line: u64,
    pub kind: FileError,
}

impl FileError {
    /// The name of the fault, as `BAD_ARITY`.
    pub fn name(self) -> &'static str
        ensures { result.now ≡ fault_name self }
    {
        match self {
            FileError::BadText => "BAD_TEXT",
            FileError::TooLarge => "TOO_LARGE",
            FileError::BadVersion => "BAD_VERSION",
            FileError::UnknownWord => "UNKNOWN_WORD",
            FileError::BadArity => "BAD_ARITY",
            FileError::BadNumber => "BAD_NUMBER",
            FileError::WrongKind => "WRONG_KIND",
            FileError::RangeTooLong => "RANGE_TOO_LONG",
            FileError::MissingTerminal => "MISSING_TERMINAL",
            FileError::AfterTerminal => "AFTER_TERMINAL",
            FileError::TooManyStages => "TOO_MANY_STAGES",
        }
    }
}

impl fmt::Display for FileError {
    ghost output = { λ kind. Some (fault_name kind) };

    fn fmt<W: fmt::Write>(&self, f: &mut fmt::Formatter<W>) -> fmt::Result {
        let name = self.name();
        write!(f, "{name}")
    }
}

impl Error for FileError {}

/// As `line 3: BAD_ARITY`.
impl fmt::Display for FileFault {
    ghost output = { λ fault. Some (fault_text fault) };

    fn fmt<W: fmt::Write>(&self, f: &mut fmt::Formatter<W>) -> fmt::Result {
        let line = self.line;
        let name = self.kind.name();
        write!(f, "line {line}: {name}")
    }
}

impl Error for FileFault {}

/// Why no pipeline was read.
#[derive(Clone, Copy, Debug, PartialEq, Eq, Error)]
pub enum ReadError {
    #[error("{0}")]
    Fault(FileFault),
    #[error("out of memory")]
    NoMemory,
}

impl From<AllocError> for ReadError {
    ghost from_gives = { λ _ e. e ≡ NoMemory };

    fn from(_error: AllocError) -> ReadError {
        ReadError::NoMemory
    }
}

impl<T: Drop> From<AllocFailed<T>> for ReadError {
    ghost from_gives = { λ _ e. e ≡ NoMemory };

    fn from(_error: AllocFailed<T>) -> ReadError {
        ReadError::NoMemory
    }
}

/// Why no line was read.
#[derive(Clone, Copy)]
pub enum LineError {
    Fault(FileError),
    NoMemory,
}

impl LineError {
    /// The same, of a line with a number.
    pub fn at(self, line: u64) -> ReadError
        ensures { result ≡ read_error_at line self }
    {
        match self {
            LineError::Fault(kind) => ReadError::Fault(FileFault { line, kind }),
            LineError::NoMemory => ReadError::NoMemory,
        }
    }
}

impl From<FileError> for LineError {
    ghost from_gives = { λ kind e. e ≡ lines.Fault kind };

    fn from(kind: FileError) -> LineError {
        LineError::Fault(kind)
    }
}

impl From<AllocError> for LineError {
    ghost from_gives = { λ _ e. e ≡ lines.NoMemory };

    fn from(_error: AllocError) -> LineError {
        LineError::NoMemory
    }
}
