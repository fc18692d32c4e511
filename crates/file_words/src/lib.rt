//! Lines, words and numbers of a file, and the faults that are told of it.
#![tactic(auto)]

mod fault;
mod lines;
mod number;
mod words;

pub use fault::{FileError, FileFault, LineError, ReadError};
pub use lines::{Lines, Piece, first_of_text, first_word};
pub use words::Words;
