//! Parts of a file by places: the lines that begin between two of them, and what a stream makes of these.
#![tactic(auto)]

mod between;
mod unfinished;

pub use between::{FileBytes, PlacedBytes, line_begin, lines_between};
pub use unfinished::Unfinished;
