//! Runs that are stopped, and how soon.

mod asked;
mod doubles;
mod progress;
mod shown;

use collectors::SummingLong;
use doubles::{Counts, SetsAt, Ticks};
use gates::{Deadline, Ended, GatePair, Halt, Stop, Until};
use parallel_streams::{Engine, Run, Stream, StreamError, of};
use sources::RangeSplit;
use spliterator::NoMemory;
use std::alloc::Global;
use std::process::Abort;
use std::sync::atomic::{AtomicU64, Ordering};
use std::test::Fail;
use std::thread::Threads;
use std::time::{Clock, Duration, Instant};
use stealing_pool::Gate;
use stream_functions::Itself;

/// How many numbers each stream has.
const ITEMS: i64 = 1_000_000;

/// The sum of some numbers, over any stream: each call that names a stream's type costs a check as much as several over a type parameter.
fn sum_of<R: Threads + Clock + Sync, H: Gate + Sync, X: Stream<Item = i64> + Sync>(
    engine: &Engine<'_, R, H>,
    numbers: &X,
) -> Result<i64, NoMemory>
    requires { X.ready numbers.now }
{
    numbers.collect_on(engine, &SummingLong::new(Itself))
}

// .. each met by a mapping.
fn sum_of_met<R: Threads + Clock + Sync, H: Gate + Sync, X: Stream<Item = i64> + Drop + Sync>(
    engine: &Engine<'_, R, H>,
    numbers: X,
    mapping: SetsAt<'_>,
) -> Result<i64, NoMemory>
    requires { X.ready numbers }
{
    sum_of(engine, &numbers.map(mapping))
}

/// The sum of these numbers, each met by a mapping that sets a stop at one of them.
fn sum_met<R: Threads + Clock + Abort + Alloc<A = Global> + Sync, E: Halt + Sync>(
    rt: &R,
    workers: u32,
    until: &Until<'_, E, Counts>,
    mapping: SetsAt<'_>,
) -> Result<i64, StreamError>
where
    E::Reason: Send,
{
    let run = Run::new(workers).with_gate(until);
    let engine = Engine::new(rt, rt.alloc(), &run)?;
    let numbers = of(RangeSplit::range(0, ITEMS).expect(rt, "a range"));
    Ok(sum_of_met(&engine, numbers, mapping)?)
}

/// Whether it was stopped, and not refused memory.
fn is_halted<E: Halt + Sync>(
    until: &Until<'_, E, Counts>,
    answer: Result<i64, StreamError>,
) -> bool {
    match answer {
        Err(StreamError::NoMemory) => matches!(until.ended(NoMemory), Ended::Halted(_)),
        _ => false,
    }
}

#[test]
fn a_stop_that_is_set_enters_no_leaf(rt: HostRuntime) -> Result<(), StreamError> {
    for workers in [1, 4] {
        let (stop, gate, met) = (Stop::new(), Counts::new(), AtomicU64::new(0));
        stop.set();
        let until = Until {
            halt: &stop,
            gate: &gate,
        };
        let answer = sum_met(&rt, workers, &until, SetsAt::never(&stop, &met));
        assert!(rt; is_halted(&until, answer), "{workers} workers");
        assert!(rt; (gate.runs(), gate.begun(), met.load(Ordering::SeqCst)) == (0, 0, 0));
    }
    Ok(())
}

#[test]
fn a_stop_that_is_not_set_changes_nothing(rt: HostRuntime) -> Result<(), StreamError> {
    for workers in [1, 4] {
        let (stop, gate, met) = (Stop::new(), Counts::new(), AtomicU64::new(0));
        let until = Until {
            halt: &stop,
            gate: &gate,
        };
        let sum = sum_met(&rt, workers, &until, SetsAt::never(&stop, &met))?;
        assert!(rt; sum == 499_999_500_000, "{sum}");
        assert!(rt; (gate.runs(), gate.begun()) == (1, 4 * u64::from(workers)));
        assert!(rt; matches!(until.ended(NoMemory), Ended::NoMemory));
    }
    Ok(())
}

// It is set at the 5,001st item, in the fifth stretch of 1,024 items.
#[test]
fn a_stop_is_noticed_within_a_stretch(rt: HostRuntime) -> Result<(), StreamError> {
    let (stop, gate, met) = (Stop::new(), Counts::new(), AtomicU64::new(0));
    let until = Until {
        halt: &stop,
        gate: &gate,
    };
    let mapping = SetsAt {
        stop: &stop,
        at: 5_000,
        met: &met,
    };
    let answer = sum_met(&rt, 1, &until, mapping);
    let met = met.load(Ordering::SeqCst);
    assert!(rt; is_halted(&until, answer) && met == 5_120, "{met}");
    Ok(())
}

// The clock is read once before the run, and goes on by a millisecond a reading: for the run, for its first leaf, and after each stretch.
#[test]
fn a_deadline_ends_a_run(rt: HostRuntime) -> Result<(), Fail> {
    let (clock, stop, gate) = (Ticks::of(1), Stop::new(), Counts::new());
    let met = AtomicU64::new(0);
    let begun = Instant::now(&clock)?;
    let Some(at) = begun.checked_add(Duration::from_millis(5)) else {
        return Ok(());
    };
    let until = Until {
        halt: (&stop, Deadline { clock: &clock, at }),
        gate: &gate,
    };
    let answer = sum_met(&rt, 1, &until, SetsAt::never(&stop, &met));
    let met = met.load(Ordering::SeqCst);
    assert!(rt; is_halted(&until, answer) && met == 3_072, "{met}");
    Ok(())
}

// Where one is missing the other is told the same.
#[test]
fn of_a_pair_both_are_told(rt: HostRuntime) -> Result<(), StreamError> {
    for has_second in [true, false] {
        let pair = GatePair {
            first: Some(Counts::new()),
            second: has_second.then(|| Counts::new()),
        };
        let engine = Engine::new(&rt, rt.alloc(), &Run::new(2).with_gate(&pair))?;
        let numbers = of(RangeSplit::range(0, ITEMS).expect(&rt, "a range"));
        let sum = sum_of(&engine, &numbers)?;
        let told = |gate: &Counts| (gate.runs(), gate.begun()) == (1, 8);
        assert!(&rt; sum == 499_999_500_000 && pair.first.as_ref().is_some_and(told));
        assert!(&rt; pair.second.as_ref().is_some_and(told) == has_second);
    }
    Ok(())
}
