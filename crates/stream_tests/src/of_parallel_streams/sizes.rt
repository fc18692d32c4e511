//! Sizes that are known before anything runs, and the flags.
ghost use Rattle.std.specs.Prelude.{◌<◌, ◌^◌};

use super::answers::{check, counted, same};
use super::gates::Watch;
use super::streams::{Streams, numbers};
use super::{Case, SETTINGS, run_test};
use parallel_streams::{Plumbing, Run, Stream, StreamError};
use stages::{Filter, StreamFlags};
use std::alloc::Global;
use std::process::Abort;
use std::thread::Threads;
use std::time::Clock;
use stream_functions::Above;

/// The most items of a range.
const GREAT: i64 = 4_611_686_018_427_387_904;

/// The end of a range from 0 on, how many of its items are skipped, how many of the rest are taken at most, and how many these are.
static KNOWN: [(i64, (u64, u64, i64)); 5] = [
    (10, (3, 5, 5)),
    (10, (0, 3, 3)),
    (10, (0, 0, 0)),
    (3, (10, 10, 0)),
    (
        GREAT,
        (1, 9_223_372_036_854_775_807, 4_611_686_018_427_387_903),
    ),
];

// What a stream tells behind a limit: its flags, its size where it is known, and its number of items.
fn behind_limit<R: Threads + Clock + Alloc<A = Global> + Sync, X: Stream<Item = i64> + Drop + Sync>(
    rt: &R,
    run: &Run<'_, Watch>,
    numbers: X,
    most: u64,
) -> (StreamFlags, Option<u64>, Result<i64, StreamError>)
    requires ready { X.ready numbers }
    requires within { most < 2 ^ 63 }
{
    let limited = numbers.limit(most);
    let count = counted(rt, run, &limited);
    (limited.flags(), limited.known_size(), count)
}

// .. behind a skip and a limit.
fn behind_both<R: Threads + Clock + Alloc<A = Global> + Sync, X: Stream<Item = i64> + Drop + Sync>(
    rt: &R,
    run: &Run<'_, Watch>,
    numbers: X,
    skipped: u64,
    most: u64,
) -> (StreamFlags, Option<u64>, Result<i64, StreamError>)
    requires ready { X.ready numbers }
    requires skipped { skipped < 2 ^ 63 }
    requires within { most < 2 ^ 63 }
{
    behind_limit(rt, run, numbers.skip(skipped), most)
}

// Where memory is wanted the count is told all the same.
fn check_known<
    R: Threads + Clock + Abort + Alloc<A = Global> + Sync,
    X: Stream<Item = i64> + Drop + Sync,
>(rt: &R, run: &Run<'_, Watch>, numbers: X, row: (u64, u64, i64))
    requires { X.ready numbers }
{
    let (skipped, most, size) = row;
    assert!(rt; skipped < 9_223_372_036_854_775_808 && most < 9_223_372_036_854_775_808);
    let (_, known, count) = behind_both(rt, run, numbers, skipped, most);
    same(rt, (known, count), (Some(size.unsigned_abs()), Ok(size)));
}

// A filter clears the size alone, whether it keeps more items than a limit or as many: `then` tells the row of its stage.
fn check_cleared<
    R: Threads + Clock + Abort + Alloc<A = Global> + Sync,
    X: Stream<Item = i64> + Drop + Sync,
>(rt: &R, run: &Run<'_, Watch>, numbers: X, most: u32) -> Result<(), StreamError>
    requires { X.ready numbers }
{
    let above = numbers.then(Filter::new(Above(4)));
    let (flags, known, count) = behind_limit(rt, run, above, u64::from(most));
    let told = [
        flags.is_distinct(),
        flags.is_sized(),
        flags.is_short_circuit(),
    ];
    same(rt, told, [true, false, true]);
    same(rt, known, None);
    check(rt, count, i64::from(most))
}

/// The flags of the greatest range, and counts that are known.
pub fn check_counts<R: Threads + Clock + Abort + Alloc<A = Global> + Sync, S: Streams>(
    rt: &R,
    streams: &S,
) -> Result<(), StreamError> {
    let gate = Watch::until(0, 0);
    let great = numbers(rt, streams, 0, GREAT);
    let flags = great.flags();
    let told = [flags.is_distinct(), flags.is_sorted(), flags.is_sized()];
    same(rt, told, [true, true, true]);
    for &(workers, target) in &SETTINGS {
        let run = Run {
            workers,
            target,
            gate: &gate,
        };
        same(rt, counted(rt, &run, &great), Ok(GREAT));
        for &(end, row) in &KNOWN {
            check_known(rt, &run, numbers(rt, streams, 0, end), row);
        }
    }
    same(rt, gate.entered(), 0);
    Ok(())
}

#[test]
fn a_count_of_a_known_size_runs_no_leaf(rt: HostRuntime) -> Result<(), StreamError> {
    run_test(&rt, Case::KnownCounts)
}

/// Counts behind a filter.
pub fn check_filtered<R: Threads + Clock + Abort + Alloc<A = Global> + Sync, S: Streams>(
    rt: &R,
    streams: &S,
) -> Result<(), StreamError> {
    let gate = Watch::until(0, 0);
    for &(workers, target) in &SETTINGS {
        let run = Run {
            workers,
            target,
            gate: &gate,
        };
        for most in [3, 5] {
            check_cleared(rt, &run, numbers(rt, streams, 0, 10), most)?;
        }
    }
    same(rt, gate.entered() > 0, true);
    Ok(())
}

#[test]
fn a_filter_clears_the_known_size(rt: HostRuntime) -> Result<(), StreamError> {
    run_test(&rt, Case::FilteredCounts)
}
