//! How far a run has come, as text.
use std::fmt::{self, Display, Formatter, Write};

/// How far leaves or a reader have come.
#[derive(Clone, Copy)]
pub(crate) enum Standing {
    Leaves(Leaves),
    Bytes(Bytes),
}

/// The leaves of one run, and the items of all.
#[derive(Clone, Copy)]
pub(crate) struct Leaves {
    pub(crate) run: u64,
    pub(crate) ended: u64,
    pub(crate) leaves: u64,
    pub(crate) items: u64,
    /// The nanoseconds of this run, and of all.
    pub(crate) passed: u64,
    pub(crate) all_passed: u64,
}

/// The bytes that a reader gave, of how many, where that is known, in so many nanoseconds.
#[derive(Clone, Copy)]
pub(crate) struct Bytes {
    pub(crate) read: u64,
    pub(crate) whole: Option<u64>,
    pub(crate) passed: u64,
}

impl Display for Standing {
    fn fmt<W: Write>(&self, f: &mut Formatter<W>) -> fmt::Result {
        match self {
            Standing::Leaves(leaves) => write!(f, "{leaves}"),
            Standing::Bytes(bytes) => write!(f, "{bytes}"),
        }
    }
}

impl Display for Leaves {
    fn fmt<W: Write>(&self, f: &mut Formatter<W>) -> fmt::Result {
        let rate = a_second(self.items, self.all_passed);
        write!(
            f,
            "run {}: {} of {} leaves, {} items, {rate} a second",
            self.run, self.ended, self.leaves, self.items
        )?;
        write_left(f, self.ended, self.leaves, self.passed)
    }
}

impl Display for Bytes {
    fn fmt<W: Write>(&self, f: &mut Formatter<W>) -> fmt::Result {
        let (read, rate) = (Size(self.read), Size(a_second(self.read, self.passed)));
        let Some(whole) = self.whole else {
            return write!(f, "{read}, {rate} a second");
        };
        let percent = (self.read.saturating_mul(100) / whole.max(1)).min(100);
        let size = Size(whole);
        write!(f, "{percent}%, {read} of {size}, {rate} a second")?;
        write_left(f, self.read, whole, self.passed)
    }
}

/// How many there are a second, where there are so many in so many nanoseconds.
fn a_second(number: u64, nanos: u64) -> u64 {
    number.saturating_mul(1_000) / (nanos / 1_000_000).max(1)
}

/// Writes the time left, where something is done and something isn't.
fn write_left<W: Write>(f: &mut Formatter<W>, done: u64, whole: u64, nanos: u64) -> fmt::Result {
    if done == 0 || whole <= done {
        return Ok(());
    }
    let left = Seconds(seconds_left(done, whole, nanos));
    write!(f, ", {left} left")
}

/// The seconds that the rest takes at the speed so far, at least one.
fn seconds_left(done: u64, whole: u64, nanos: u64) -> u64 {
    let rest = u128::from(whole.saturating_sub(done));
    let left = u128::from(nanos).saturating_mul(rest) / u128::from(done.max(1));
    let seconds = u64::try_from(left / 1_000_000_000).unwrap_or(u64::MAX);
    seconds.saturating_add(1)
}

/// A number of bytes in a unit that fits it.
#[derive(Clone, Copy)]
struct Size(u64);

impl Display for Size {
    fn fmt<W: Write>(&self, f: &mut Formatter<W>) -> fmt::Result {
        let bytes = self.0;
        if bytes < 1_000 {
            write!(f, "{bytes} bytes")
        } else if bytes < 1_000_000 {
            write!(f, "{} kB", Tenths(bytes / 100))
        } else if bytes < 1_000_000_000 {
            write!(f, "{} MB", Tenths(bytes / 100_000))
        } else {
            write!(f, "{} GB", Tenths(bytes / 100_000_000))
        }
    }
}

/// A number of tenths.
#[derive(Clone, Copy)]
struct Tenths(u64);

impl Display for Tenths {
    fn fmt<W: Write>(&self, f: &mut Formatter<W>) -> fmt::Result {
        write!(f, "{}.{}", self.0 / 10, self.0 % 10)
    }
}

/// A number of seconds in units that fit it.
#[derive(Clone, Copy)]
struct Seconds(u64);

impl Display for Seconds {
    fn fmt<W: Write>(&self, f: &mut Formatter<W>) -> fmt::Result {
        let (minutes, seconds) = (self.0 / 60, self.0 % 60);
        if minutes == 0 {
            write!(f, "{seconds} s")
        } else if minutes < 60 {
            write!(f, "{minutes} min {seconds} s")
        } else {
            write!(f, "{} h {} min", minutes / 60, minutes % 60)
        }
    }
}
