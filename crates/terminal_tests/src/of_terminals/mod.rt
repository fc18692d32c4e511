//! Each terminal operation with 1 and with 4 workers. A stream is handed once to a function over any stream: each call that names its type costs a check
//! as much as several such functions.
ghost use Rattle.spliterator.specs.Clones.{ClonesAlike};

mod concat;
mod sorted;
mod tried;

use parallel_streams::{Engine, Run, Stream, StreamError, of};
use sources::{LinesSplit, SliceSplit};
use spliterator::{EqualValue, NoMemory, SortedValue, Text};
use stages::Mapping;
use std::hash::Hash;
use std::process::Abort;
use std::thread::Threads;
use std::time::Clock;
use stealing_pool::NoGate;
use stream_functions::Length;
use terminals::{Numbers, Terminals};

/// The workers and the target of each row.
static SETTINGS: [(u32, u64); 2] = [(1, 0), (4, 1)];

/// Count, sum, least and greatest.
type Told = (i64, i64, Option<i64>, Option<i64>);

/// Numbers, and what is told of them.
static NUMBERS: [(&[i64], Told); 3] = [
    (&[], (0, 0, None, None)),
    (&[5, -2, 8], (3, 11, Some(-2), Some(8))),
    (
        &[9223372036854775807, 1],
        (2, -9223372036854775808, Some(1), Some(9223372036854775807)),
    ),
];

/// Lines, and of them the least, the greatest, the first shortest and the first longest.
type Best<'a> = (
    &'a str,
    Option<&'a str>,
    Option<&'a str>,
    Option<&'a str>,
    Option<&'a str>,
);

static BEST: [Best<'static>; 3] = [
    ("", None, None, None, None),
    ("one", Some("one"), Some("one"), Some("one"), Some("one")),
    (
        "to\nbe\nor\nnot\ntoo\na\nb",
        Some("a"),
        Some("too"),
        Some("a"),
        Some("not"),
    ),
];

/// Lines, without repeats, and joined by ", ".
static LINES: [(&str, &[&str], &str); 3] = [
    ("", &[], ""),
    ("\n", &[""], ""),
    (
        "to\nbe\nto\n\nor",
        &["to", "be", "", "or"],
        "to, be, to, , or",
    ),
];

fn listed<R: Threads + Clock + Sync, X: Stream<Item = i64> + Sync>(
    engine: &Engine<'_, R, NoGate>,
    numbers: &X,
    items: &[i64],
) -> Result<bool, NoMemory>
    requires { X.ready numbers.now }
{
    Ok(numbers.to_list(engine)?.as_slice() == items)
}

fn fed_in_order<R: Threads + Clock + Sync, X: Stream<Item = i64> + Sync>(
    engine: &Engine<'_, R, NoGate>,
    numbers: &X,
    items: &[i64],
) -> Result<bool, NoMemory>
    requires { X.ready numbers.now }
{
    let mut seen = Vec::new(engine.alloc);
    numbers.for_each_ordered(engine, &mut seen)?;
    Ok(seen.as_slice() == items)
}

fn check_numbers<R: Threads + Clock + Abort + Sync, X: Stream<Item = i64> + Sync>(
    engine: &Engine<'_, R, NoGate>,
    numbers: &X,
    items: &[i64],
    wanted: &Told,
) -> Result<(), NoMemory>
    requires { X.ready numbers.now }
{
    let rt = engine.rt;
    let sum = numbers.sum(engine)?;
    assert!(rt; sum == wanted.1, "{sum}");
    let told = numbers.summary(engine)?;
    assert!(rt;
        (told.count, told.sum, told.least, told.greatest) == *wanted,
        "{told:?}"
    );
    assert!(rt; listed(engine, numbers, items)? && fed_in_order(engine, numbers, items)?);
    Ok(())
}

fn numbers<R: Threads + Clock + Abort + Sync>(
    engine: &Engine<'_, R, NoGate>,
) -> Result<(), NoMemory> {
    for (items, wanted) in &NUMBERS {
        check_numbers(engine, &of(SliceSplit::new(items)), items, wanted)?;
    }
    Ok(())
}

// The least item, the greatest, and by a key the first least and the first greatest.
fn best_of<
    R: Threads + Clock + Sync,
    T: SortedValue + Copy + Send + Sync,
    K: Mapping<T> + Sync,
    X: Stream<Item = T> + Sync,
>(engine: &Engine<'_, R, NoGate>, items: &X, key: &K) -> Result<[Option<T>; 4], NoMemory>
where
    K::Out: SortedValue + Drop + Send,
    requires stream { X.ready items.now }
    requires key { K.ready key.now }
    requires clones { ClonesAlike T.is_clone T.content }
{
    let (least, greatest) = (items.min(engine)?, items.max(engine)?);
    let (first, last) = (
        items.min_by_key(engine, key)?,
        items.max_by_key(engine, key)?,
    );
    Ok([least, greatest, first, last])
}

fn best<R: Threads + Clock + Abort + Sync>(engine: &Engine<'_, R, NoGate>) -> Result<(), NoMemory> {
    let rt = engine.rt;
    for &(lines, least, greatest, shortest, longest) in &BEST {
        let found = best_of(engine, &of(LinesSplit::new(lines)), &Length)?;
        assert!(rt; found == [least, greatest, shortest, longest], "{found:?}");
    }
    Ok(())
}

fn apart<
    R: Threads + Clock + Sync,
    T: EqualValue + Hash + Copy + Send + Sync,
    X: Stream<Item = T> + Sync,
>(engine: &Engine<'_, R, NoGate>, items: &X, wanted: &[T]) -> Result<bool, NoMemory>
    requires stream { X.ready items.now }
    requires clones { ClonesAlike T.is_clone T.content }
{
    Ok(items.to_set(engine)?.as_slice() == wanted)
}

fn joined<R: Threads + Clock + Sync, T: Text + Copy + Send + Sync, X: Stream<Item = T> + Sync>(
    engine: &Engine<'_, R, NoGate>,
    items: &X,
    wanted: &str,
) -> Result<bool, NoMemory>
    requires { X.ready items.now }
{
    Ok(items.joining(engine, ", ")?.as_str() == wanted)
}

fn texts<R: Threads + Clock + Abort + Sync>(
    engine: &Engine<'_, R, NoGate>,
) -> Result<(), NoMemory> {
    let rt = engine.rt;
    for &(lines, set, text) in &LINES {
        let stream = of(LinesSplit::new(lines));
        assert!(rt;
            apart(engine, &stream, set)? && joined(engine, &stream, text)?,
            "{lines}"
        );
    }
    Ok(())
}

#[test]
fn rows_at_each_setting(rt: HostRuntime) -> Result<(), StreamError> {
    for &(workers, target) in &SETTINGS {
        let run = Run {
            workers,
            target,
            gate: &NoGate,
        };
        let engine = Engine::new(&rt, rt.alloc(), &run)?;
        numbers(&engine)?;
        best(&engine)?;
        texts(&engine)?;
    }
    Ok(())
}
