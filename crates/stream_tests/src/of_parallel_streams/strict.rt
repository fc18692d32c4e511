//! Maps with no merge function. `collector_tests` has those of texts.

use super::answers::same;
use super::groups::check_entries;
use super::streams::Streams;
use super::{Case, Suite, run_test};
use indexmap::IndexMap;
use parallel_streams::{MapError, Run, Stream, StreamError};
use std::alloc::Global;
use std::process::Abort;
use std::thread::Threads;
use std::time::Clock;
use stealing_pool::NoGate;
use stream_functions::{Itself, Plus};

/// Checks the entries of a map, or the key that repeats.
fn check_map(
    rt: &impl Abort,
    answer: Result<IndexMap<i64, i64>, MapError<i64>>,
    (keys, values, repeated): (&[i64], &[i64], Option<i64>),
) -> Result<(), StreamError> {
    let found = match answer {
        Ok(map) => map,
        Err(MapError::DuplicateKey(key)) => {
            same(rt, Some(key), repeated);
            return Ok(());
        }
        Err(MapError::NoMemory) => return Err(StreamError::NoMemory),
        Err(MapError::BadWorkers) => return Err(StreamError::BadWorkers),
        Err(MapError::BadTarget) => return Err(StreamError::BadTarget),
    };
    same(rt, None, repeated);
    check_entries(rt, Ok(found), keys, values)
}

// Checks the map of each number to the next one.
fn check_next<R: Threads + Clock + Abort + Alloc<A = Global> + Sync, X: Stream<Item = i64> + Sync>(
    rt: &R,
    run: &Run<'_, NoGate>,
    numbers: &X,
    expected: (&[i64], &[i64], Option<i64>),
) -> Result<(), StreamError>
    requires { X.ready numbers.now }
{
    let answer = numbers.to_map_strict(rt, rt.alloc(), run, &Itself, &Plus(1));
    check_map(rt, answer, expected)
}

/// Numbers, and each to the next one as keys and values, or the key that comes again. 1 is the first key that is there twice, and 2 the first that
/// comes again.
static NUMBERS: [(&[i64], (&[i64], &[i64], Option<i64>)); 4] = [
    (&[1, 2, 2, 1], (&[], &[], Some(2))),
    (&[2, 2, 1, 1], (&[], &[], Some(2))),
    (&[3, 4], (&[3, 4], &[4, 5], None)),
    (&[], (&[], &[], None)),
];

/// Rows of one setting.
pub fn rows<R: Threads + Clock + Abort + Alloc<A = Global> + Sync, S: Streams>(
    rt: &R,
    run: &Run<'_, NoGate>,
    streams: &S,
) -> Result<(), StreamError> {
    for &(numbers, expected) in &NUMBERS {
        check_next(rt, run, &streams.slice(numbers), expected)?;
    }
    Ok(())
}

#[test]
fn strict_maps_at_each_number_of_workers(rt: HostRuntime) -> Result<(), StreamError> {
    run_test(&rt, Case::AtEachSetting(Suite::StrictMaps))
}
