//! The lines of a reader in parallel, in bounded memory.
//!
//! ```text
//! let engine = Engine::new(&rt, rt.alloc(), &Run::new(4))?;
//! let numbers = lines_of(File::open(&rt, "numbers")?).map_lines(NumberOr(0));
//! let sum = numbers.collect_on(&engine, &SummingLong::new(Itself))?;
//! ```
#![tactic(auto)]

mod barred;
mod between;
mod ending;
mod flatten;
mod flight;
mod lane;
mod line_function;
mod lines;
mod linked;
mod meeting;
mod reading;
mod steps;
mod stream;

pub use barred::BarredLines;
pub use between::{Between, NoBarrier};
pub use flatten::Flatten;
pub use line_function::{LineFunction, OfLine, OwnLine};
pub use lines::{BLOCK, LONGEST, LinesOf, ReadLines, lines_of};
pub use linked::{Linked, LinkedState};
pub use steps::{LineParts, LineSteps};
pub use stream::LineStream;
