//! Lazy streams that run in parallel.
#![tactic(auto)]

mod alone;
mod barred;
mod carry;
mod contrary;
mod engine;
mod evaluate;
mod handover;
mod kept;
mod places;
mod plumbing;
mod run;
mod seeking;
mod segments;
mod source;
mod staged;
mod stream;

pub use barred::Barred;
pub use carry::list_kept;
pub use engine::Engine;
pub use kept::{BarredProgress, Kept, Listed, end_before, end_own};
pub use places::Places;
pub use plumbing::Plumbing;
pub use run::{MapError, Run, StreamError};
pub use segments::{container_of, container_until, finish_on, fold_into};
pub use source::{Source, SourceProgress, of, rows};
pub use staged::Staged;
pub use stream::Stream;
