//! Gates of runs: what ends one before its end, and what shows how far it has come and how it went.
#![tactic(auto)]

mod deadline;
mod drawing;
mod halt;
mod meter;
mod metered;
mod pair;
mod picture;
mod standing;
mod stop;
mod stopwatch;
mod timeline;
mod until;

pub use deadline::Deadline;
pub use halt::Halt;
pub use meter::{Looks, Meter};
pub use metered::Metered;
pub use pair::GatePair;
pub use picture::Picture;
pub use stop::Stop;
pub use timeline::Timeline;
pub use until::{Ended, Until};
