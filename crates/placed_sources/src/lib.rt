//! Sources over what stands at the same place, at every so many places, or in so many places in a row.
#![tactic(auto)]

mod chunks;
mod chunks_of;
mod last;
mod reversed;
mod step_by;
mod windows;
mod windows_of;
mod zip;

pub use chunks::Chunks;
pub use chunks_of::ChunksOf;
pub use last::take_last;
pub use reversed::Reversed;
pub use step_by::StepBy;
pub use windows::Windows;
pub use windows_of::WindowsOf;
pub use zip::{Zip, indexed};
