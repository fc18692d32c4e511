//! What the programs over data share: their command line, their input, what watches a run, and how they end.
//!
//! ```text
//! let given = given_words(rt)?;
//! let words = parse(rt.alloc(), &WORDS, given.as_slice())?;
//! let watch = Watch::new(rt, is_terminal, &words)?;
//! let answer = answer(&Task::new(rt, &watch, &words)?);
//! watch.end(answer)
//! ```
#![tactic(auto)]

mod both;
mod command_line;
mod failure;
mod frame;
mod host;
mod task;
mod watch;

pub use both::Both;
pub use command_line::{ValueOption, Words, given_words, parse, run_of, workers};
pub use failure::{Failure, bad_data, failed};
pub use frame::{Answer, ended};
pub use host::Host;
pub use task::{Reading, Task};
pub use watch::{Watch, WatchGate};
