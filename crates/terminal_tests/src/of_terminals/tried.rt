//! Items that may have failed, of which two lie in different leaves, with 1, 2, 7 and 64 workers.
ghost use Rattle.std.specs.Ordering.{int_eq, int_cmp};
ghost use Rattle.spliterator.specs.Values.{IsI64, int_eq-decides, int_cmp-total, int_cmp-ties};

use collectors::SummingLong;
use derived_collectors::{Trying, UpToError};
use parallel_streams::{Engine, Run, Stream, StreamError, of};
use sources::SliceSplit;
use spliterator::{NoMemory, OrderedValue, Value};
use std::alloc::Global;
use std::process::Abort;
use std::thread::Threads;
use std::time::Clock;
use stealing_pool::NoGate;
use stream_functions::Itself;
use terminals::Terminals;

/// Where something went wrong: an error of the caller's own type.
#[derive(Clone, Copy, PartialEq, Eq, Drop)]
struct Fault {
    place: i64,
}

impl Value for Fault {
    type Content = i64;

    ghost content = { λ fault. fault.place };

    ghost same = { int_eq };

    ghost is_value = { IsI64 };

    ghost same_decides = { int_eq-decides };

    fn is_value(&self) -> bool {
        self.place.is_value()
    }
}

impl OrderedValue for Fault {
    ghost order = { int_cmp };

    ghost order_total = { int_cmp-total };

    ghost order_ties = { int_cmp-ties };
}

// The numbers below 1,000, of which those at two places have failed.
fn numbers<R: Alloc<A = Global>>(
    rt: &R,
    first: i64,
    second: i64,
) -> Result<Vec<Result<i64, Fault>>, NoMemory> {
    let mut items = Vec::with_capacity(rt.alloc(), 1000)?;
    for number in 0..1000 {
        let fails = number == first || number == second;
        items.push(if fails {
            Err(Fault { place: number })
        } else {
            Ok(number)
        })?;
    }
    Ok(items)
}

/// Two places that fail, and the sum, or the first place.
static ROWS: [(i64, i64, Result<i64, i64>); 5] = [
    (300, 700, Err(300)),
    (700, 300, Err(300)),
    (999, 998, Err(998)),
    (0, 999, Err(0)),
    (-1, -1, Ok(499_500)),
];

// The place that is told, or the sum, where the run may end early.
fn decided<R: Threads + Clock + Alloc<A = Global> + Sync>(
    engine: &Engine<'_, R, NoGate>,
    items: &[Result<i64, Fault>],
) -> Result<Result<i64, i64>, NoMemory> {
    let sum = Trying::<_, Fault>::new(SummingLong::<i64, _>::new(Itself));
    let found = of(SliceSplit::new(items)).collect_decided(engine, &sum)?;
    Ok(found.map_err(|fault| fault.place))
}

// .. and where it reads all.
fn collected<R: Threads + Clock + Alloc<A = Global> + Sync>(
    engine: &Engine<'_, R, NoGate>,
    items: &[Result<i64, Fault>],
) -> Result<Result<i64, i64>, NoMemory> {
    let sum = Trying::<_, Fault>::new(SummingLong::<i64, _>::new(Itself));
    let found = of(SliceSplit::new(items)).collect_on(engine, &sum)?;
    Ok(found.map_err(|fault| fault.place))
}

// Whether the numbers in front of that place, or all, are handed over.
fn are_handed<R: Threads + Clock + Alloc<A = Global> + Sync>(
    engine: &Engine<'_, R, NoGate>,
    items: &[Result<i64, Fault>],
    wanted: Result<i64, i64>,
) -> Result<bool, NoMemory> {
    let mut values = Vec::new(engine.alloc);
    let mut tried = UpToError::<_, Fault>::new(&mut values);
    of(SliceSplit::new(items)).for_each_ordered(engine, &mut tried)?;
    Ok(match tried.ended() {
        Ok(()) => wanted.is_ok() && values.len() == items.len(),
        Err(fault) => wanted == Err(fault.place) && values.len() as i64 == fault.place,
    })
}

/// Whether each tells this.
fn are_told<R: Threads + Clock + Alloc<A = Global> + Sync>(
    engine: &Engine<'_, R, NoGate>,
    items: &[Result<i64, Fault>],
    wanted: Result<i64, i64>,
) -> Result<bool, NoMemory> {
    Ok(
        decided(engine, items)? == wanted
            && collected(engine, items)? == wanted
            && are_handed(engine, items, wanted)?,
    )
}

fn rows<R: Threads + Clock + Abort + Alloc<A = Global> + Sync>(
    engine: &Engine<'_, R, NoGate>,
) -> Result<(), NoMemory> {
    let rt = engine.rt;
    for &(first, second, wanted) in &ROWS {
        let items = numbers(rt, first, second)?;
        assert!(rt;
            are_told(engine, items.as_slice(), wanted)?,
            "{first}, {second}"
        );
    }
    Ok(())
}

#[test]
fn the_error_of_the_first_item_that_has_failed(rt: HostRuntime) -> Result<(), StreamError> {
    for workers in [1, 2, 7, 64] {
        for target in [0, 1, 40] {
            let run = Run {
                workers,
                target,
                gate: &NoGate,
            };
            let engine = Engine::new(&rt, rt.alloc(), &run)?;
            rows(&engine)?;
        }
    }
    Ok(())
}
