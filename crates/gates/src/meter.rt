//! A gate that counts leaves, items and bytes, and shows how far a run has come.
ghost use Rattle.std.specs.Prelude.{◌≡◌};

use crate::Metered;
use crate::standing::{Bytes, Leaves, Standing};
use crate::stopwatch::Stopwatch;
use std::env::{self, Env};
use std::io::Read;
use std::sync::OnceLock;
use std::sync::atomic::{AtomicU64, Ordering};
use std::time::Clock;
use stealing_pool::Gate;

/// The items of a stretch.
const STRETCH: u64 = 1024;

/// The nanoseconds between two drawings.
const PAUSE: u64 = 100_000_000;

/// The bytes from which on a reader of no known length is told of.
const FIRST_BYTES: u64 = 1 << 20;

/// How progress is shown.
#[derive(Clone, Copy, Debug, PartialEq, Eq)]
pub enum Looks {
    /// One line that is drawn over, as a terminal does.
    Bar,
    /// A line of its own for each tenth of a run.
    Lines,
}

impl Looks {
    /// A bar on a terminal, where neither `NO_COLOR` is set nor `TERM` is `dumb`, and else lines.
    pub fn of_terminal(rt: &(impl Env + Alloc), is_terminal: bool) -> Looks {
        let is_dumb = match env::var(rt, "TERM") {
            Ok(term) => term.as_str() == "dumb",
            Err(_) => false,
        };
        if is_terminal && !is_dumb && env::var(rt, "NO_COLOR").is_err() {
            Looks::Bar
        } else {
            Looks::Lines
        }
    }
}

/// Counts leaves and items of each run of a stream, and tells them on standard error: a bar at most ten times a second, a line for each tenth of a
/// run. They tell the run's number, the leaves that have ended, of how many, the items that were read in whole stretches of 1,024, how many a second,
/// and the time left of the run. Where a reader is [metered](Meter::reading) its bytes are told in place of the leaves. What standard error doesn't
/// take is dropped.
///
/// ```text
/// let meter = Meter::new(&rt, Looks::of_terminal(&rt, rt.stderr().is_terminal()));
/// let engine = Engine::new(&rt, rt.alloc(), &Run::new(4).with_gate(&meter))?;
/// let sum = numbers.sum(&engine)?;
/// meter.finish();    // run 1: 16 of 16 leaves, 400000000 items, 2000000000 a second
/// ```
#[derive(Drop)]
pub struct Meter<'a, R> {
    rt: &'a R,
    looks: Looks,
    watch: Stopwatch<'a, R>,
    runs: AtomicU64,
    // when the present run began
    began: AtomicU64,
    leaves: AtomicU64,
    ended: AtomicU64,
    stretches: AtomicU64,
    // how many bytes a reader has, where there is one and that is known
    whole: OnceLock<Option<u64>>,
    read: AtomicU64,
    drawn: AtomicU64,
}

impl<'a, R: Clock + Eprint> Meter<'a, R> {
    /// Of runs that begin from now on.
    pub fn new(rt: &'a R, looks: Looks) -> Meter<'a, R> {
        Meter {
            rt,
            looks,
            watch: Stopwatch::new(rt),
            runs: AtomicU64::new(0),
            began: AtomicU64::new(0),
            leaves: AtomicU64::new(0),
            ended: AtomicU64::new(0),
            stretches: AtomicU64::new(0),
            whole: OnceLock::new(),
            read: AtomicU64::new(0),
            drawn: AtomicU64::new(0),
        }
    }

    /// A reader whose bytes are told in place of leaves, since each block of its lines is a run of its own: the bytes so far, how many a second, and
    /// where the number of all is known the hundredths and the time left.
    ///
    /// ```text
    /// let log = meter.reading(fs::open(&rt, "log")?, Some(fs::metadata(&rt, "log")?.len()));
    /// lines_of(log).map_lines(OwnLine { alloc }).count_on(&engine)?    // 35%, 1.2 GB of 3.4 GB, 480.0 MB a second, 5 s left
    /// ```
    pub fn reading<I: Read>(&self, reader: I, whole: Option<u64>) -> Metered<'_, 'a, I, R>
        ensures { result.reader ≡ reader }
    {
        let _first = self.whole.try_set(whole);
        Metered {
            reader,
            meter: Some(self),
        }
    }

    /// Tells the end: of a bar, which leaves its line, and of a reader of no known length.
    pub fn finish(&self) {
        if self.looks == Looks::Bar {
            self.draw();
            let _told = eprintln!(self.rt; "");
        } else if matches!(self.whole.get(), Some(None)) {
            self.draw();
        }
    }

    // Is told that a reader gave so many bytes.
    pub(crate) fn add(&self, count: usize) {
        let before = self.read.fetch_add(count as u64, Ordering::SeqCst);
        let after = before.saturating_add(count as u64);
        let is_due = match self.whole.get() {
            Some(Some(whole)) => is_tenth(before, after, *whole),
            _ => is_doubled(before, after),
        };
        self.draw_if(is_due);
    }

    // Draws a line, where it is due, or a bar, where the last drawing is long enough ago.
    fn draw_if(&self, is_due: bool) {
        match self.looks {
            Looks::Bar => self.draw_soon(),
            Looks::Lines if is_due => self.draw(),
            Looks::Lines => {}
        }
    }

    // Draws a bar, where the last drawing is long enough ago. Of several threads one does.
    fn draw_soon(&self) {
        let now = self.watch.nanos();
        let before = self.drawn.load(Ordering::SeqCst);
        if now < before.saturating_add(PAUSE) {
            return;
        }
        let moved = self
            .drawn
            .compare_exchange(before, now, Ordering::SeqCst, Ordering::SeqCst);
        if moved.is_ok() {
            self.draw();
        }
    }

    fn draw(&self) {
        let standing = self.standing();
        let _told = match self.looks {
            // what stood there may have been longer
            Looks::Bar => eprint!(self.rt; "\r{standing}\x1b[K"),
            Looks::Lines => eprintln!(self.rt; "{standing}"),
        };
    }

    fn standing(&self) -> Standing {
        let passed = self.watch.nanos();
        match self.whole.get() {
            Some(&whole) => Standing::Bytes(Bytes {
                read: self.read.load(Ordering::SeqCst),
                whole,
                passed,
            }),
            None => Standing::Leaves(Leaves {
                run: self.runs.load(Ordering::SeqCst),
                ended: self.ended.load(Ordering::SeqCst),
                leaves: self.leaves.load(Ordering::SeqCst),
                items: self
                    .stretches
                    .load(Ordering::SeqCst)
                    .saturating_mul(STRETCH),
                passed: passed.saturating_sub(self.began.load(Ordering::SeqCst)),
                all_passed: passed,
            }),
        }
    }
}

/// Whether a tenth of the whole stands between the two.
fn is_tenth(before: u64, after: u64, whole: u64) -> bool {
    let tenth = |number: u64| number.saturating_mul(10) / whole.max(1);
    tenth(before) < tenth(after)
}

/// Whether a power of two stands between the two, from the first one on that is told of.
fn is_doubled(before: u64, after: u64) -> bool {
    let zeros = |number: u64| (number / FIRST_BYTES).leading_zeros();
    zeros(after) < zeros(before)
}

impl<R: Clock + Eprint> Gate for Meter<'_, R> {
    fn before_run(&self, leaves: usize) {
        self.runs.fetch_add(1, Ordering::SeqCst);
        self.began.store(self.watch.nanos(), Ordering::SeqCst);
        self.leaves.store(leaves as u64, Ordering::SeqCst);
        self.ended.store(0, Ordering::SeqCst);
    }

    fn before_leaf(&self, _worker: u32, _leaf: usize) {}

    fn after_leaf(&self, _worker: u32, _leaf: usize) {
        let ended = self.ended.fetch_add(1, Ordering::SeqCst);
        let leaves = self.leaves.load(Ordering::SeqCst);
        let is_read = self.whole.get().is_some();
        self.draw_if(!is_read && is_tenth(ended, ended.saturating_add(1), leaves));
    }

    fn after_stretch(&self) {
        self.stretches.fetch_add(1, Ordering::SeqCst);
        self.draw_if(false);
    }
}
