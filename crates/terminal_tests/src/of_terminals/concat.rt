//! Two streams, one behind another, with 1 and with 7 workers, at target 1 and at the default.

use crate::settings::SETTINGS;
use collectors::{First, ToList};
use parallel_streams::{Engine, Run, Stream, StreamError, of};
use sources::{RangeSplit, SliceSplit};
use spliterator::NoMemory;
use std::process::Abort;
use std::thread::Threads;
use std::time::Clock;
use stealing_pool::NoGate;
use stream_functions::{Even, Plus};
use terminals::Terminals;

/// How far a range of even numbers goes, the numbers behind it of which each is one less, the list of both, and its first number.
static ROWS: [(i64, &[i64], &[i64], Option<i64>); 4] = [
    (5, &[6, 2], &[0, 2, 4, 7, 3], Some(0)),
    (0, &[9], &[10], Some(10)),
    (3, &[], &[0, 2], Some(0)),
    (0, &[], &[], None),
];

fn check_both<
    R: Threads + Clock + Abort + Sync,
    X: Stream<Item = i64> + Sync,
    Y: Stream<Item = i64> + Sync,
>(
    engine: &Engine<'_, R, NoGate>,
    even: &X,
    more: &Y,
    list: &[i64],
    first: Option<i64>,
) -> Result<(), NoMemory>
    requires even { X.ready even.now }
    requires more { Y.ready more.now }
{
    let rt = engine.rt;
    let earliest = even.concat(engine, more, &First::new())?;
    assert!(rt; earliest == first);
    let found = even.concat(engine, more, &ToList::new(engine.alloc))?;
    assert!(rt; found.as_slice() == list);
    Ok(())
}

// The even ones of some numbers, and one more than each of others.
fn check_made<
    R: Threads + Clock + Abort + Sync,
    X: Stream<Item = i64> + Drop + Sync,
    Y: Stream<Item = i64> + Drop + Sync,
>(
    engine: &Engine<'_, R, NoGate>,
    numbers: X,
    others: Y,
    list: &[i64],
    first: Option<i64>,
) -> Result<(), NoMemory>
    requires numbers { X.ready numbers }
    requires others { Y.ready others }
{
    let (even, more) = (numbers.filter(Even), others.map(Plus(1)));
    check_both(engine, &even, &more, list, first)
}

fn rows<R: Threads + Clock + Abort + Sync>(engine: &Engine<'_, R, NoGate>) -> Result<(), NoMemory> {
    for &(end, numbers, list, first) in &ROWS {
        let below = of(RangeSplit::range(0, end).expect(engine.rt, "a range"));
        check_made(engine, below, of(SliceSplit::new(numbers)), list, first)?;
    }
    Ok(())
}

#[test]
fn the_items_of_the_second_stand_behind_those_of_the_first(
    rt: HostRuntime,
) -> Result<(), StreamError> {
    for &(workers, target) in &SETTINGS {
        let run = Run {
            workers,
            target,
            gate: &NoGate,
        };
        let engine = Engine::new(&rt, rt.alloc(), &run)?;
        rows(&engine)?;
    }
    Ok(())
}
