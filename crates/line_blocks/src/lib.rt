//! The lines of a reader, in blocks of text.
#![tactic(auto)]

mod blocks;
mod error;

pub use blocks::{Block, LineBlocks};
pub use error::LinesError;
