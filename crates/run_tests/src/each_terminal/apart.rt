//! A search among the items that differ.

use super::numbers_below;
use super::workers::Workers;
use parallel_streams::{Engine, Stream};
use spliterator::NoMemory;
use std::process::Abort;
use std::thread::Threads;
use std::time::Clock;
use stream_functions::{Equal, Modulo};

/// The number by which remainders are taken, so that they repeat in a segment and in the next one.
const BY: i64 = 600;

// The first of some numbers that is equal to one.
fn first_of<R: Threads + Clock + Sync, X: Stream<Item = i64> + Drop + Sync>(
    engine: &Engine<'_, R, Workers>,
    numbers: X,
    wanted: i64,
) -> Result<Option<i64>, NoMemory>
    requires { X.ready numbers }
{
    numbers.filter(Equal(wanted)).find_first_on(engine)
}

// .. of those that differ.
fn first_apart<R: Threads + Clock + Sync, X: Stream<Item = i64> + Drop + Sync>(
    engine: &Engine<'_, R, Workers>,
    numbers: X,
    wanted: i64,
) -> Result<Option<i64>, NoMemory>
    requires { X.ready numbers }
{
    first_of(engine, numbers.distinct(), wanted)
}

// .. of their remainders.
fn first_remainder<R: Threads + Clock + Sync, X: Stream<Item = i64> + Drop + Sync>(
    engine: &Engine<'_, R, Workers>,
    numbers: X,
    wanted: i64,
) -> Result<Option<i64>, NoMemory>
    requires { X.ready numbers }
{
    first_apart(engine, numbers.map(Modulo::by(BY)), wanted)
}

/// Whether, of the remainders of the numbers from 0 up to an end that differ, the first that is a number is found, and none where no remainder is.
pub fn are_right<R: Threads + Clock + Abort + Sync>(
    engine: &Engine<'_, R, Workers>,
    end: i64,
    place: u32,
) -> Result<bool, NoMemory> {
    let wanted = i64::from(place).min(BY - 1);
    let first = first_remainder(engine, numbers_below(engine.rt, end), wanted)?;
    Ok(first == Some(wanted).filter(|&wanted| wanted < end))
}
