//! Streams sorted with 1 and with 7 workers, at target 1 and at the default. Made ones are longer.

use crate::settings::SETTINGS;
use parallel_streams::{Engine, Run, Stream, StreamError, of};
use sources::SliceSplit;
use spliterator::NoMemory;
use std::alloc::{AllocError, Global};
use std::process::Abort;
use std::thread::Threads;
use std::time::Clock;
use stealing_pool::NoGate;
use stream_functions::{Itself, OnFirst};
use terminals::{Descending, FirstSorted, Terminals, to_sorted_list, to_sorted_list_by_key};

/// Numbers, and the same sorted.
static NUMBERS: [(&[i64], &[i64]); 5] = [
    (&[], &[]),
    (&[5], &[5]),
    (&[1, 2, 2, 3], &[1, 2, 2, 3]),
    (&[3, -1, 3, 2, -1], &[-1, -1, 2, 3, 3]),
    (
        &[9223372036854775807, 0, -9223372036854775808],
        &[-9223372036854775808, 0, 9223372036854775807],
    ),
];

/// How many pairs are made of a row of `SHAPES`: of fewer than 4,096 items no thread sorts a part.
const MADE: i64 = 4_200;

/// Factors and moduli. The keys are the remainders of the factor's multiples: they ascend, fall, are equal, begin with a run that ascends or falls, and
/// begin with none.
static SHAPES: [(i64, i64); 7] = [
    (1, 4_300),
    (-1, 4_300),
    (0, 80),
    (1, 80),
    (-1, 80),
    (7, 80),
    (1_237, 4_300),
];

/// Pairs, and the same sorted by their first parts and by these from the greatest on.
static PAIRS: [(&[(i64, i64)], &[(i64, i64)], &[(i64, i64)]); 3] = [
    (&[], &[], &[]),
    (&[(4, 1)], &[(4, 1)], &[(4, 1)]),
    (
        &[(2, 7), (1, 9), (2, 5), (-1, 0), (1, 8), (2, 7)],
        &[(-1, 0), (1, 9), (1, 8), (2, 7), (2, 5), (2, 7)],
        &[(2, 7), (2, 5), (2, 7), (1, 9), (1, 8), (-1, 0)],
    ),
];

fn sorted<R: Threads + Clock + Sync, X: Stream<Item = i64> + Sync>(
    engine: &Engine<'_, R, NoGate>,
    numbers: &X,
    wanted: &[i64],
) -> Result<bool, NoMemory>
    requires { X.ready numbers.now }
{
    let found = numbers.sorted(engine)?;
    Ok(found.as_slice() == wanted)
}

fn by_first<R: Threads + Clock + Sync, X: Stream<Item = (i64, i64)> + Sync>(
    engine: &Engine<'_, R, NoGate>,
    pairs: &X,
    wanted: &[(i64, i64)],
) -> Result<bool, NoMemory>
    requires { X.ready pairs.now }
{
    let found = pairs.sorted_by_key(engine, &OnFirst(Itself))?;
    Ok(found.as_slice() == wanted)
}

fn by_first_descending<R: Threads + Clock + Sync, X: Stream<Item = (i64, i64)> + Sync>(
    engine: &Engine<'_, R, NoGate>,
    pairs: &X,
    wanted: &[(i64, i64)],
) -> Result<bool, NoMemory>
    requires { X.ready pairs.now }
{
    let found = pairs.sorted_by_key(engine, &Descending(OnFirst(Itself)))?;
    Ok(found.as_slice() == wanted)
}

fn collected<R: Threads + Clock + Sync, X: Stream<Item = i64> + Sync>(
    engine: &Engine<'_, R, NoGate>,
    numbers: &X,
    wanted: &[i64],
) -> Result<bool, NoMemory>
    requires { X.ready numbers.now }
{
    let to_list = to_sorted_list::<i64>(engine.alloc);
    let found = numbers.collect_on(engine, &to_list)?;
    Ok(found.as_slice() == wanted)
}

fn greatest_two<R: Threads + Clock + Sync, X: Stream<Item = i64> + Sync>(
    engine: &Engine<'_, R, NoGate>,
    numbers: &X,
    wanted: &[i64],
) -> Result<bool, NoMemory>
    requires { X.ready numbers.now }
{
    let found = numbers.top(engine, 2)?;
    Ok(found.iter().eq(wanted.iter().rev().take(2)))
}

fn collected_by_first<R: Threads + Clock + Sync, X: Stream<Item = (i64, i64)> + Sync>(
    engine: &Engine<'_, R, NoGate>,
    pairs: &X,
    wanted: &[(i64, i64)],
) -> Result<bool, NoMemory>
    requires { X.ready pairs.now }
{
    let to_list = to_sorted_list_by_key::<(i64, i64), _>(engine.alloc, OnFirst(Itself));
    let found = pairs.collect_on(engine, &to_list)?;
    Ok(found.as_slice() == wanted)
}

fn first_by_first<R: Threads + Clock + Sync, X: Stream<Item = (i64, i64)> + Sync>(
    engine: &Engine<'_, R, NoGate>,
    pairs: &X,
    wanted: &[(i64, i64)],
    number: usize,
) -> Result<bool, NoMemory>
    requires { X.ready pairs.now }
{
    let first = FirstSorted::<(i64, i64), _>::new(engine.alloc, OnFirst(Itself), number);
    let found = pairs.collect_on(engine, &first)?;
    Ok(found.iter().eq(wanted.iter().take(number)))
}

fn check_numbers<R: Threads + Clock + Abort + Sync, X: Stream<Item = i64> + Sync>(
    engine: &Engine<'_, R, NoGate>,
    numbers: &X,
    wanted: &[i64],
) -> Result<(), NoMemory>
    requires { X.ready numbers.now }
{
    let rt = engine.rt;
    assert!(rt; sorted(engine, numbers, wanted)?, "{wanted:?}");
    assert!(rt; collected(engine, numbers, wanted)?, "{wanted:?}");
    assert!(rt; greatest_two(engine, numbers, wanted)?, "{wanted:?}");
    Ok(())
}

fn check_pairs<R: Threads + Clock + Abort + Sync, X: Stream<Item = (i64, i64)> + Sync>(
    engine: &Engine<'_, R, NoGate>,
    pairs: &X,
    ascending: &[(i64, i64)],
    descending: &[(i64, i64)],
) -> Result<(), NoMemory>
    requires { X.ready pairs.now }
{
    let rt = engine.rt;
    assert!(rt; by_first(engine, pairs, ascending)?, "{ascending:?}");
    assert!(rt;
        by_first_descending(engine, pairs, descending)?,
        "{descending:?}"
    );
    assert!(rt;
        collected_by_first(engine, pairs, ascending)?,
        "{ascending:?}"
    );
    for number in [0usize, 1, 2, 4, 9, 100, 5_000] {
        assert!(rt;
            first_by_first(engine, pairs, ascending, number)?,
            "{ascending:?}"
        );
    }
    Ok(())
}

fn check_list<R: Threads + Clock + Abort + Sync>(
    engine: &Engine<'_, R, NoGate>,
    numbers: &[i64],
    wanted: &[i64],
) -> Result<(), NoMemory> {
    check_numbers(engine, &of(SliceSplit::new(numbers)), wanted)
}

fn check_list_of_pairs<R: Threads + Clock + Abort + Sync>(
    engine: &Engine<'_, R, NoGate>,
    pairs: &[(i64, i64)],
    ascending: &[(i64, i64)],
    descending: &[(i64, i64)],
) -> Result<(), NoMemory> {
    check_pairs(engine, &of(SliceSplit::new(pairs)), ascending, descending)
}

fn rows<R: Threads + Clock + Abort + Sync>(engine: &Engine<'_, R, NoGate>) -> Result<(), NoMemory> {
    for &(numbers, wanted) in &NUMBERS {
        check_list(engine, numbers, wanted)?;
    }
    for &(pairs, ascending, descending) in &PAIRS {
        check_list_of_pairs(engine, pairs, ascending, descending)?;
    }
    Ok(())
}

/// Keys beside the places at which they come.
fn made(alloc: Global, factor: i64, modulus: i64) -> Result<Vec<(i64, i64)>, AllocError> {
    let mut pairs = Vec::new(alloc);
    for place in 1..=MADE {
        let key = place.wrapping_mul(factor).checked_rem_euclid(modulus);
        pairs.push((key.unwrap_or(0), place))?;
    }
    Ok(pairs)
}

/// Those of each key below the modulus in turn, from the least on or from the greatest on, in the order in which they come.
fn by_keys(
    alloc: Global,
    pairs: &[(i64, i64)],
    modulus: i64,
    is_falling: bool,
) -> Result<Vec<(i64, i64)>, AllocError> {
    let mut sorted = Vec::new(alloc);
    for number in 0..modulus {
        let key = if is_falling {
            modulus.wrapping_sub(number).wrapping_sub(1)
        } else {
            number
        };
        for &pair in pairs {
            if pair.0 == key {
                sorted.push(pair)?;
            }
        }
    }
    Ok(sorted)
}

fn keys_of(alloc: Global, pairs: &[(i64, i64)]) -> Result<Vec<i64>, AllocError> {
    let mut keys = Vec::new(alloc);
    for pair in pairs {
        keys.push(pair.0)?;
    }
    Ok(keys)
}

fn shapes<R: Threads + Clock + Abort + Sync>(
    engine: &Engine<'_, R, NoGate>,
) -> Result<(), NoMemory> {
    let alloc = engine.alloc;
    for &(factor, modulus) in &SHAPES {
        let pairs = made(alloc, factor, modulus)?;
        let ascending = by_keys(alloc, pairs.as_slice(), modulus, false)?;
        let descending = by_keys(alloc, pairs.as_slice(), modulus, true)?;
        let numbers = keys_of(alloc, pairs.as_slice())?;
        let wanted = keys_of(alloc, ascending.as_slice())?;
        check_list(engine, numbers.as_slice(), wanted.as_slice())?;
        check_list_of_pairs(
            engine,
            pairs.as_slice(),
            ascending.as_slice(),
            descending.as_slice(),
        )?;
    }
    Ok(())
}

#[test]
fn shapes_with_one_worker_and_with_four(rt: HostRuntime) -> Result<(), StreamError> {
    for (workers, target) in [(1, 0), (4, 300)] {
        let run = Run {
            workers,
            target,
            gate: &NoGate,
        };
        shapes(&Engine::new(&rt, rt.alloc(), &run)?)?;
    }
    Ok(())
}

#[test]
fn rows_at_each_setting(rt: HostRuntime) -> Result<(), StreamError> {
    for &(workers, target) in &SETTINGS {
        let run = Run {
            workers,
            target,
            gate: &NoGate,
        };
        rows(&Engine::new(&rt, rt.alloc(), &run)?)?;
    }
    Ok(())
}
