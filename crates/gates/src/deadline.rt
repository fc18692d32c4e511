//! A deadline by the clock.
ghost use Rattle.std.specs.Prelude.{◌≤◌};
ghost use Rattle.std.specs.Time.{instant_nanos};

use crate::Halt;
use std::time::{Clock, Instant};

/// A moment of a clock, from which on a run may end. A clock that can't be read ends no run.
///
/// ```text
/// let deadline = Deadline { clock: &rt, at: Instant::now(&rt)? + Duration::from_millis(200) };
/// ```
#[derive(Clone, Copy)]
pub struct Deadline<'a, C> {
    pub clock: &'a C,
    pub at: Instant,
}

impl<'a, C: Clock> Halt for Deadline<'a, C> {
    /// What the clock read.
    type Reason = Instant;

    // it read the moment or a later one
    ghost justified = { λ d read. instant_nanos d.at ≤ instant_nanos read };

    fn reason(&self) -> Option<Instant> {
        let Ok(read) = Instant::now(self.clock) else {
            return None;
        };
        if self.at <= read { Some(read) } else { None }
    }
}
