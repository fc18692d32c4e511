//! Containers as JSON: what one process folded of a part, another reads, and combines with the other parts.
#![tactic(auto)]

mod adapting;
mod counts;
mod entries;
mod error;
mod form;
mod kept;
mod lists;
mod maps;
mod nested;
mod reductions;
mod sets;
mod shapes;
mod summaries;
mod values;

pub use error::WireError;
pub use form::{FromWire, WireForm};
pub use values::{FromWireValue, WireValue};
