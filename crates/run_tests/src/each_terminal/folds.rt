//! Terminal operations that need no list.

use super::sum_of;
use super::workers::Workers;
use parallel_streams::{Engine, Stream};
use spliterator::NoMemory;
use stages::{Max, WrapAdd};
use std::thread::Threads;
use std::time::Clock;
use stream_functions::{Above, Below, Equal, Itself, Negated};
use terminals::{Numbers, Terminals};

#[derive(Clone, Copy)]
pub enum Fold {
    Sum,
    Summary,
    Reduce,
    ReduceOptional,
    Min,
    Max,
    MinByKey,
    MaxByKey,
    Count,
    FindFirst,
    AnyMatch,
    AllMatch,
    NoneMatch,
}

/// Whether an answer is the wanted one.
fn is<T: PartialEq + Drop>(found: Result<T, NoMemory>, wanted: T) -> Result<bool, NoMemory> {
    Ok(found? == wanted)
}

/// Whether the number of numbers, their sum and the greatest are these.
fn tells<R: Threads + Clock + Sync, X: Stream<Item = i64> + Sync>(
    engine: &Engine<'_, R, Workers>,
    numbers: &X,
    wanted: (i64, i64, Option<i64>),
) -> Result<bool, NoMemory>
    requires { X.ready numbers.now }
{
    let told = numbers.summary(engine)?;
    Ok((told.count, told.sum, told.greatest) == wanted)
}

/// Whether the answer over the numbers from 0 on, so many and at least one, is right. A search meets the last of them.
pub fn is_right<R: Threads + Clock + Sync, X: Stream<Item = i64> + Drop + Sync>(
    engine: &Engine<'_, R, Workers>,
    all: X,
    fold: Fold,
    items: u32,
) -> Result<bool, NoMemory>
    requires { X.ready all }
{
    let (sum, last) = (sum_of(items), i64::from(items).wrapping_sub(1));
    match fold {
        Fold::Sum => is(all.sum(engine), sum),
        Fold::Summary => tells(engine, &all, (i64::from(items), sum, Some(last))),
        Fold::Reduce => is(all.reduce_on(engine, 0, &WrapAdd::new()), sum),
        Fold::ReduceOptional => is(all.reduce_optional_on(engine, &Max::new()), Some(last)),
        Fold::Min => is(all.min(engine), Some(0)),
        Fold::Max => is(all.max(engine), Some(last)),
        Fold::MinByKey => is(all.min_by_key(engine, &Negated), Some(last)),
        Fold::MaxByKey => is(all.max_by_key(engine, &Itself), Some(last)),
        Fold::Count => is(all.filter(Above(-1)).count_on(engine), i64::from(items)),
        Fold::FindFirst => is(all.filter(Equal(last)).find_first_on(engine), Some(last)),
        Fold::AnyMatch => is(all.any_match_on(engine, &Equal(last)), true),
        Fold::AllMatch => is(all.all_match_on(engine, &Below(last)), false),
        Fold::NoneMatch => is(all.none_match_on(engine, &Equal(last)), false),
    }
}
