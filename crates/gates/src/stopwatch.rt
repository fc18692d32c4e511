//! The time since a moment of a clock.
use std::time::{Clock, Instant};

/// The time since it was made. Of a clock that can't be read it is none.
#[derive(Drop)]
pub(crate) struct Stopwatch<'a, R> {
    clock: &'a R,
    begun: Option<Instant>,
}

impl<'a, R: Clock> Stopwatch<'a, R> {
    /// From now on.
    pub(crate) fn new(clock: &'a R) -> Stopwatch<'a, R> {
        Stopwatch {
            clock,
            begun: Instant::now(clock).ok(),
        }
    }

    /// The nanoseconds that have passed.
    pub(crate) fn nanos(&self) -> u64 {
        match self.begun {
            Some(begun) => match begun.elapsed(self.clock) {
                Ok(passed) => u64::try_from(passed.as_nanos()).unwrap_or(u64::MAX),
                Err(_) => 0,
            },
            None => 0,
        }
    }
}
