//! What stands in the place of a user's gate, mapping and clock.

use gates::Stop;
use spliterator::NoMemory;
use stages::Mapping;
use std::alloc::Global;
use std::fmt::Display;
use std::io;
use std::sync::OnceLock;
use std::sync::atomic::{AtomicU64, Ordering};
use std::time::{Clock, Duration};
use stealing_pool::Gate;

/// Counts the runs and the leaves that begin.
#[derive(Drop)]
pub struct Counts {
    heeds_leaves: bool,
    runs: AtomicU64,
    begun: AtomicU64,
}

impl Counts {
    pub fn new() -> Counts {
        Counts::heeding(true)
    }

    pub fn heeding(heeds_leaves: bool) -> Counts {
        Counts {
            heeds_leaves,
            runs: AtomicU64::new(0),
            begun: AtomicU64::new(0),
        }
    }

    pub fn runs(&self) -> u64 {
        self.runs.load(Ordering::SeqCst)
    }

    pub fn begun(&self) -> u64 {
        self.begun.load(Ordering::SeqCst)
    }
}

impl Gate for Counts {
    fn before_run(&self, _leaves: usize) {
        self.runs.fetch_add(1, Ordering::SeqCst);
    }

    fn before_leaf(&self, _worker: u32, _leaf: usize) {
        self.begun.fetch_add(1, Ordering::SeqCst);
    }

    fn after_leaf(&self, _worker: u32, _leaf: usize) {}

    fn heeds_leaves(&self) -> bool {
        self.heeds_leaves
    }
}

/// Each number as it is. It counts the numbers, and sets a stop at one of them.
#[derive(Clone, Copy)]
pub struct SetsAt<'a> {
    pub stop: &'a Stop,
    pub at: i64,
    pub met: &'a AtomicU64,
}

impl<'a> SetsAt<'a> {
    /// One that sets no stop.
    pub fn never(stop: &'a Stop, met: &'a AtomicU64) -> SetsAt<'a> {
        SetsAt { stop, at: -1, met }
    }
}

impl<'a> Mapping<i64> for SetsAt<'a> {
    type Out = i64;

    ghost image = { λ _ n. n };

    ghost images_are_values = { λ _ _ value. value };

    fn image(&self, x: &i64) -> Result<i64, NoMemory> {
        self.met.fetch_add(1, Ordering::SeqCst);
        if *x == self.at {
            self.stop.set();
        }
        Ok(*x)
    }
}

/// A clock that goes on by so many milliseconds a reading.
#[derive(Drop)]
pub struct Ticks {
    millis: u64,
    read: AtomicU64,
}

impl Ticks {
    pub fn of(millis: u64) -> Ticks {
        Ticks {
            millis,
            read: AtomicU64::new(0),
        }
    }
}

impl Clock for Ticks {
    fn monotonic(&self) -> io::Result<Duration> {
        let read = self.read.fetch_add(1, Ordering::SeqCst);
        Ok(Duration::from_millis(read.saturating_mul(self.millis)))
    }

    fn since_1970(&self) -> io::Result<Duration> {
        self.monotonic()
    }
}

/// A standard error that keeps the first texts that are told and counts all, beside a clock.
#[derive(Drop)]
pub struct Screen {
    pub clock: Ticks,
    alloc: Global,
    told: AtomicU64,
    texts: [OnceLock<String>; 4],
}

impl Screen {
    pub fn new(alloc: Global, millis: u64) -> Screen {
        Screen {
            clock: Ticks::of(millis),
            alloc,
            told: AtomicU64::new(0),
            texts: [
                OnceLock::new(),
                OnceLock::new(),
                OnceLock::new(),
                OnceLock::new(),
            ],
        }
    }

    pub fn told(&self) -> u64 {
        self.told.load(Ordering::SeqCst)
    }

    /// One of the first texts.
    pub fn text(&self, place: usize) -> &str {
        match self.texts.get(place) {
            Some(lock) => match lock.get() {
                Some(text) => text.as_str(),
                None => "",
            },
            None => "",
        }
    }

    fn keep<D: Display + Drop>(&self, value: D) {
        let place = usize::try_from(self.told.fetch_add(1, Ordering::SeqCst));
        if let (Some(lock), Ok(text)) = (
            self.texts.get(place.unwrap_or(usize::MAX)),
            value.to_string(self.alloc),
        ) {
            let _first = lock.try_set(text);
        }
    }
}

impl Clock for Screen {
    fn monotonic(&self) -> io::Result<Duration> {
        self.clock.monotonic()
    }

    fn since_1970(&self) -> io::Result<Duration> {
        self.clock.since_1970()
    }
}

impl Eprint for Screen {
    fn eprint<D: Display + Drop>(&self, value: D) -> io::Result<()> {
        self.keep(value);
        Ok(())
    }

    fn eprintln<D: Display + Drop>(&self, value: D) -> io::Result<()> {
        self.keep(value);
        Ok(())
    }
}
