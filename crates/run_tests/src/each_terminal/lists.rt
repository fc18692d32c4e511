//! Terminal operations that make a list, a text or a map.

use super::workers::Workers;
use parallel_streams::{Engine, MapError, Stream, of};
use sources::SliceSplit;
use spliterator::NoMemory;
use std::thread::Threads;
use std::time::Clock;
use stream_functions::{Divisor, Itself, Modulo, Times};
use terminals::{FirstSorted, Terminals, to_sorted_list};

#[derive(Clone, Copy)]
pub enum List {
    ToList,
    ToSet,
    ForEachOrdered,
    Joining,
    StrictMap,
    Sorted,
    SortedByKey,
    FirstSorted,
    SortedList,
}

/// Whether these are the numbers from 0 on, so many of them.
fn are_all(list: &[i64], items: u32) -> bool {
    list.iter().copied().eq(0..i64::from(items))
}

/// A prime number. Its multiples up to one of them for each number are, below another number, these numbers in another order.
const PRIME: i64 = 7_919;

/// The remainder by a number of items.
fn below(items: u32) -> Modulo {
    Modulo {
        divisor: Divisor::new(i64::from(items)),
    }
}

/// Whether these are the first of the numbers below an end by their last digits, in their order where these are the same.
fn are_by_digits(list: &[i64], end: i64) -> bool {
    let mut left = list.iter();
    for digit in 0..10i64 {
        for tens in 0..=end / 10 {
            let wanted = tens.wrapping_mul(10).wrapping_add(digit);
            if wanted < end {
                match left.next() {
                    Some(&found) if found == wanted => (),
                    Some(_) => return false,
                    None => return true,
                }
            }
        }
    }
    left.next().is_none()
}

/// How many entries the map of the numbers to themselves has.
fn entries<R: Threads + Clock + Sync, X: Stream<Item = i64> + Sync>(
    engine: &Engine<'_, R, Workers>,
    all: &X,
) -> Result<usize, NoMemory>
    requires { X.ready all.now }
{
    match all.to_map_strict(engine.rt, engine.alloc, &engine.run, &Itself, &Itself) {
        Ok(map) => Ok(map.len()),
        Err(MapError::DuplicateKey(_)) => Ok(0),
        Err(_) => Err(NoMemory),
    }
}

/// The length of so many texts of one byte, joined by one.
fn joined_length<R: Threads + Clock + Sync>(
    engine: &Engine<'_, R, Workers>,
    items: u32,
) -> Result<usize, NoMemory> {
    let mut texts = Vec::with_capacity(engine.alloc, items as usize)?;
    for _ in 0..items {
        texts.push("a")?;
    }
    let joined = of(SliceSplit::new(texts.as_slice())).joining(engine, "-")?;
    Ok(joined.len())
}

/// Numbers sorted, by the operation for it or by the collector.
fn sorted_by<R: Threads + Clock + Sync, X: Stream<Item = i64> + Sync>(
    engine: &Engine<'_, R, Workers>,
    numbers: &X,
    list: List,
) -> Result<Vec<i64>, NoMemory>
    requires { X.ready numbers.now }
{
    match list {
        List::Sorted => numbers.sorted(engine),
        _ => numbers.collect_on(engine, &to_sorted_list::<i64>(engine.alloc)),
    }
}

/// Whether a list that was made is that of all these numbers.
fn made(found: Result<Vec<i64>, NoMemory>, items: u32) -> Result<bool, NoMemory> {
    Ok(are_all(found?.as_slice(), items))
}

/// Whether a number that was found is this one.
fn is(found: Result<usize, NoMemory>, wanted: usize) -> Result<bool, NoMemory> {
    Ok(found? == wanted)
}

/// How many numbers differ.
fn apart<R: Threads + Clock + Sync, X: Stream<Item = i64> + Sync>(
    engine: &Engine<'_, R, Workers>,
    all: &X,
) -> Result<usize, NoMemory>
    requires { X.ready all.now }
{
    Ok(all.to_set(engine)?.len())
}

/// The numbers in the order in which a sink sees them.
fn seen<R: Threads + Clock + Sync, X: Stream<Item = i64> + Sync>(
    engine: &Engine<'_, R, Workers>,
    all: &X,
) -> Result<Vec<i64>, NoMemory>
    requires { X.ready all.now }
{
    let mut seen = Vec::new(engine.alloc);
    all.for_each_ordered(engine, &mut seen)?;
    Ok(seen)
}

/// The first hundred in their order.
fn first_sorted<R: Threads + Clock + Sync, X: Stream<Item = i64> + Sync>(
    engine: &Engine<'_, R, Workers>,
    all: &X,
) -> Result<Vec<i64>, NoMemory>
    requires { X.ready all.now }
{
    let first = FirstSorted::<i64, _>::new(engine.alloc, Itself, 100);
    all.collect_on(engine, &first)
}

/// Whether the numbers by their last digits are so many and in that order.
fn are_sorted_by_digits(found: Result<Vec<i64>, NoMemory>, items: u32) -> Result<bool, NoMemory> {
    let found = found?;
    Ok(found.len() == items as usize && are_by_digits(found.as_slice(), i64::from(items)))
}

/// Whether the answer over the numbers from 0 on, so many, at least one and no multiple of the prime number, is right. What is sorted whole came in
/// another order.
pub fn is_right<R: Threads + Clock + Sync, X: Stream<Item = i64> + Drop + Sync>(
    engine: &Engine<'_, R, Workers>,
    all: X,
    list: List,
    items: u32,
) -> Result<bool, NoMemory>
    requires { X.ready all }
{
    let count = items as usize;
    match list {
        List::ToList => made(all.to_list(engine), items),
        List::ToSet => is(apart(engine, &all), count),
        List::ForEachOrdered => made(seen(engine, &all), items),
        List::Joining => is(
            joined_length(engine, items),
            count.wrapping_mul(2).wrapping_sub(1),
        ),
        List::StrictMap => is(entries(engine, &all), count),
        List::Sorted | List::SortedList => {
            let shuffled = all.map(Times(PRIME)).map(below(items));
            made(sorted_by(engine, &shuffled, list), items)
        }
        List::SortedByKey => {
            are_sorted_by_digits(all.sorted_by_key(engine, &Modulo::by(10)), items)
        }
        List::FirstSorted => made(first_sorted(engine, &all), items.min(100)),
    }
}
