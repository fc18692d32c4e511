//! Containers of the parts of a list, as lines of text that any engine carries.
//!
//! Lines in any order, told once or twice, give the result on the whole list, or none.
#![tactic(auto)]

mod error;
mod job;
mod line;
mod pieces;
mod places;
mod ways;

pub use error::PartsError;
pub use job::Job;
pub use places::{Gaps, Places};
