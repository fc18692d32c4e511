//! The reader of pipeline files.
#![tactic(auto)]

mod reading;

pub use reading::{MOST_BYTES, read_pipeline};
