//! Streams with barriers that are chosen at run time.
#![tactic(auto)]

mod chain;

pub use chain::{Chain, ChainProgress, Link};
