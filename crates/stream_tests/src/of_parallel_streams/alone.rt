//! Few items that one thread reads by itself, by a clock of the tests' own.

use collectors::{SummingLong, ToList};
use parallel_streams::{Engine, Run, Stream, StreamError, of};
use sources::RangeSplit;
use spliterator::NoMemory;
use std::alloc::Global;
use std::io;
use std::sync::atomic::{AtomicU64, Ordering};
use std::thread::Threads;
use std::time::{Clock, Duration};
use stealing_pool::NoGate;
use stream_functions::{Above, Even, Itself, Times};

/// A runtime whose clock goes on by so many nanoseconds at each reading, and counts these.
#[derive(Drop)]
struct Ticking<'a, R> {
    _rt: &'a R,
    step: u64,
    readings: AtomicU64,
}

impl<R: Threads> Threads for Ticking<'_, R> {}

impl<R> Clock for Ticking<'_, R> {
    fn monotonic(&self) -> io::Result<Duration> {
        let earlier = self.readings.fetch_add(1, Ordering::SeqCst);
        Ok(Duration::from_nanos(earlier.saturating_mul(self.step)))
    }

    fn since_1970(&self) -> io::Result<Duration> {
        Ok(Duration::ZERO)
    }
}

/// Numbers from 0, workers, a target, the clock's steps, and how often it is read: before the first item, and behind 1, 4, 16, 64, 256 items, and each 1,024 more,
/// until 50 microseconds have gone and what is left is likely to take as long. More than 2^18 numbers are planned at once, and so are those of a target.
static ALONE: [(i64, u32, u64, u64, u64); 19] = [
    (0, 4, 0, 0, 1),
    (1, 4, 0, 0, 2),
    (5, 4, 0, 0, 3),
    (6, 4, 0, 0, 3),
    (85, 4, 0, 0, 5),
    (341, 4, 0, 0, 6),
    (1_365, 4, 0, 0, 6),
    (5_000, 4, 0, 0, 10),
    (5_000, 1, 0, 50_000, 1),
    (1, 4, 0, 50_000, 2),
    (2, 4, 0, 50_000, 2),
    (100, 4, 0, 50_000, 2),
    (6, 4, 0, 30_000, 3),
    (100, 4, 0, 30_000, 3),
    (100, 4, 0, 16_700, 4),
    (5_000, 4, 0, 10_000, 6),
    (262_144, 4, 0, 50_000, 2),
    (262_145, 4, 0, 50_000, 0),
    (6, 4, 1, 0, 0),
];

/// The list and the sum of some numbers, whether one is as great as can be, whether one isn't negative, and how often each of these runs reads the clock.
type Told = (Vec<i64>, i64, (bool, bool), [u64; 4]);

fn told_of<R: Threads + Clock + Sync, X: Stream<Item = i64> + Sync>(
    engine: &Engine<'_, R, NoGate>,
    numbers: &X,
    readings: &AtomicU64,
) -> Result<Told, NoMemory>
    requires { X.ready numbers.now }
{
    let list = numbers.collect_on(engine, &ToList::new(engine.alloc))?;
    let of_list = readings.swap(0, Ordering::SeqCst);
    let sum = numbers.collect_on(engine, &SummingLong::new(Itself))?;
    let of_sum = readings.swap(0, Ordering::SeqCst);
    let is_greatest = numbers.any_match_on(engine, &Above(i64::MAX - 1))?;
    let of_none = readings.swap(0, Ordering::SeqCst);
    let is_some = numbers.any_match_on(engine, &Above(-1))?;
    let of_some = readings.swap(0, Ordering::SeqCst);
    Ok((
        list,
        sum,
        (is_greatest, is_some),
        [of_list, of_sum, of_none, of_some],
    ))
}

// .. of the even numbers, three times each.
fn tripled<R: Threads + Clock + Sync, X: Stream<Item = i64> + Drop + Sync>(
    engine: &Engine<'_, R, NoGate>,
    numbers: X,
    readings: &AtomicU64,
) -> Result<Told, NoMemory>
    requires { X.ready numbers }
{
    told_of(engine, &numbers.filter(Even).map(Times(3)), readings)
}

/// Whether the even numbers, three times each, have their list and their sum, what is searched is told, and each run reads the clock so often: the last
/// search behind its first item at most.
fn is_right<R: Threads + Sync>(
    rt: &R,
    alloc: Global,
    (end, workers, target, step, readings): (i64, u32, u64, u64, u64),
) -> Result<bool, StreamError> {
    let ticking = Ticking {
        _rt: rt,
        step,
        readings: AtomicU64::new(0),
    };
    let run = Run {
        workers,
        target,
        gate: &NoGate,
    };
    let engine = Engine::new(&ticking, alloc, &run)?;
    let Ok(range) = RangeSplit::range(0, end) else {
        return Ok(false);
    };
    let (list, sum, met, read) = tripled(&engine, of(range), &ticking.readings)?;
    let evens = end / 2 + end % 2;
    let total = evens.wrapping_mul(evens - 1).wrapping_mul(3);
    let is_listed = list
        .iter()
        .copied()
        .eq((0..evens).map(|x| x.wrapping_mul(6)));
    let wanted = [readings, readings, readings, readings.min(2)];
    Ok(is_listed && sum == total && met == (false, 0 < end) && read == wanted)
}

#[test]
fn few_items_are_read_by_one_thread(rt: HostRuntime) -> Result<(), StreamError> {
    for &row in &ALONE {
        assert!(&rt;
            is_right(&rt, rt.alloc(), row)?,
            "{} {} {}",
            row.0,
            row.1,
            row.2
        );
    }
    Ok(())
}
