//! The worked rows over numbers, as calls.

use super::answers::{
    Reported, check, check_items, counted, first_of, joined, limited, reduced, reported, sum_of,
};
use super::functions::Copies;
use super::streams::{Streams, numbers};
use super::{Case, Suite, at, run_test};
use parallel_streams::{Run, Stream, StreamError};
use sources::RangeSplit;
use stages::{LastOf, Max, Min, Test, WrapAdd, WrapMul};
use std::alloc::Global;
use std::process::Abort;
use std::sync::atomic::AtomicU64;
use std::thread::Threads;
use std::time::Clock;
use stealing_pool::{Gate, NoGate};
use stream_functions::{Above, Below};

/// The second of some numbers.
pub fn second<R: Threads + Clock + Alloc<A = Global> + Sync, X: Stream<Item = i64> + Drop + Sync>(
    rt: &R,
    run: &Run<'_, NoGate>,
    numbers: X,
) -> Reported
    requires { X.ready numbers }
{
    limited(rt, run, numbers.skip(1), 1)
}

/// The front of some numbers that meet a test.
pub fn front<
    R: Threads + Clock + Alloc<A = Global> + Sync,
    H: Gate + Sync,
    X: Stream<Item = i64> + Drop + Sync,
    P: Test<i64> + Drop + Sync,
>(rt: &R, run: &Run<'_, H>, numbers: X, test: P) -> Reported
    requires numbers { X.ready numbers }
    requires test { P.ready test }
{
    reported(rt, run, &numbers.take_while(test))
}

/// The first number that meets a test, and what each run tells of its leaves.
pub fn first_that<
    R: Threads + Clock + Alloc<A = Global> + Sync,
    H: Gate + Sync,
    X: Stream<Item = i64> + Drop + Sync,
    P: Test<i64> + Drop + Sync,
>(rt: &R, run: &Run<'_, H>, numbers: X, test: P) -> Reported
    requires numbers { X.ready numbers }
    requires test { P.ready test }
{
    limited(rt, run, numbers.filter(test), 1)
}

/// The first of the numbers that differ. The limit stops no leaf before `distinct`.
pub fn first_apart<
    R: Threads + Clock + Alloc<A = Global> + Sync,
    X: Stream<Item = i64> + Drop + Sync,
>(rt: &R, run: &Run<'_, NoGate>, numbers: X, most: u32) -> Reported
    requires { X.ready numbers }
{
    limited(rt, run, numbers.distinct(), most)
}

// What stands before a number above 2, the second, and the first none.
fn fronts<R: Threads + Clock + Abort + Alloc<A = Global> + Sync, S: Streams>(
    rt: &R,
    run: &Run<'_, NoGate>,
    streams: &S,
) -> Result<(), StreamError> {
    let below = front(rt, run, streams.slice(&[1, 2, 5, 1]), Below(3));
    let eight = second(rt, run, streams.slice(&[4, 8, 15]));
    let none = limited(rt, run, streams.slice(&[4, 8, 15]), 0);
    check_items(rt, below, &[1, 2])
        .and(check_items(rt, eight, &[8]))
        .and(check_items(rt, none, &[]))
}

/// Numbers, the most of those that differ that are wanted, and these.
static APART: [(&[i64], u32, &[i64]); 2] = [
    (&[3, 1, 3, 2, 1], 9, &[3, 1, 2]),
    (&[3, 3, 3, 1, 2], 2, &[3, 1]),
];

/// Numbers, the most of their copies that are wanted, these, and how many copies there are.
static COPIES: [(&[i64], (u32, &[i64], i64)); 3] = [
    (&[2, 0, 3], (9, &[2, 2, 3, 3, 3], 5)),
    (&[1, 2, 3], (4, &[1, 2, 2, 3], 6)),
    (&[0, 0, 0], (9, &[], 0)),
];

// How many copies of numbers there are, and the first of them.
fn check_copies<
    R: Threads + Clock + Abort + Alloc<A = Global> + Sync,
    X: Stream<Item = i64> + Drop + Sync,
>(rt: &R, run: &Run<'_, NoGate>, numbers: X, row: (u32, &[i64], i64)) -> Result<(), StreamError>
    requires { X.ready numbers }
{
    let (most, wanted, number) = row;
    let asked = AtomicU64::new(0);
    let copies = numbers.flat_map(Copies {
        alloc: rt.alloc(),
        asked: &asked,
    });
    let count = counted(rt, run, &copies);
    check(rt, count, number).and(check_items(rt, limited(rt, run, copies, most), wanted))
}

fn firsts<R: Threads + Clock + Abort + Alloc<A = Global> + Sync, S: Streams>(
    rt: &R,
    run: &Run<'_, NoGate>,
    streams: &S,
) -> Result<(), StreamError> {
    for &(numbers, most, wanted) in &APART {
        let found = first_apart(rt, run, streams.slice(numbers), most);
        check_items(rt, found, wanted)?;
    }
    for &(numbers, wanted) in &COPIES {
        check_copies(rt, run, streams.slice(numbers), wanted)?;
    }
    Ok(())
}

fn reductions<R: Threads + Clock + Abort + Alloc<A = Global> + Sync, S: Streams>(
    rt: &R,
    run: &Run<'_, NoGate>,
    streams: &S,
) -> Result<(), StreamError> {
    for &(numbers, identity) in &LASTS {
        let last = last_below(rt, run, streams.slice(numbers), identity);
        check(rt, last, 9)?;
    }
    let greatest = joined(rt, run, &streams.slice(&[]), &Max::new());
    let least = joined(rt, run, &streams.slice(&[2, 5, 3]), &Min::new());
    let product = joined(rt, run, &streams.slice(&[2, 5, 3]), &WrapMul::new());
    check(rt, greatest, None)
        .and(check(rt, least, Some(2)))
        .and(check(rt, product, Some(30)))
}

/// Numbers of which the last below 10 is 9, in the last leaves or left of them, and an identity.
static LASTS: [(&[i64], i64); 4] = [
    (&[4, 9], 0),
    (&[4, 9], 7),
    (&[4, 9, 50, 60], 0),
    (&[4, 9, 50, 60], i64::MIN),
];

// The first of some numbers, and their sum by an operator and by a collector.
fn check_sums<
    R: Threads + Clock + Abort + Alloc<A = Global> + Sync,
    X: Stream<Item = i64> + Drop + Sync,
>(
    rt: &R,
    run: &Run<'_, NoGate>,
    numbers: X,
    first: Option<i64>,
    sum: i64,
) -> Result<(), StreamError>
    requires { X.ready numbers }
{
    check(rt, first_of(rt, run, &numbers), first)
        .and(check(rt, reduced(rt, run, &numbers, 0, &WrapAdd::new()), sum))
        .and(check(rt, sum_of(rt, run, &numbers), sum))
}

/// The ends of closed ranges, the first number or none, and the sum, which wraps.
static SUMS: [(i64, i64, Option<i64>, i64); 3] = [
    (1, 5, Some(1), 15),
    (5, 4, None, 0),
    (i64::MAX - 1, i64::MAX, Some(i64::MAX - 1), -3),
];

fn ranges<R: Threads + Clock + Abort + Alloc<A = Global> + Sync, S: Streams>(
    rt: &R,
    run: &Run<'_, NoGate>,
    streams: &S,
) -> Result<(), StreamError> {
    for &(start, last, first, sum) in &SUMS {
        let range = RangeSplit::closed(start, last).expect(rt, "a range");
        check_sums(rt, run, streams.range(range), first, sum)?;
    }
    Ok(())
}

// The last number below 10, or the identity.
fn last_below<R: Threads + Clock + Alloc<A = Global> + Sync, X: Stream<Item = i64> + Drop + Sync>(
    rt: &R,
    run: &Run<'_, NoGate>,
    numbers: X,
    identity: i64,
) -> Result<i64, StreamError>
    requires { X.ready numbers }
{
    reduced(
        rt,
        run,
        &numbers.filter(Below(10)),
        identity,
        &LastOf::new(),
    )
}

/// Rows of one setting.
pub fn rows<R: Threads + Clock + Abort + Alloc<A = Global> + Sync, S: Streams>(
    rt: &R,
    run: &Run<'_, NoGate>,
    streams: &S,
) -> Result<(), StreamError> {
    fronts(rt, run, streams)
        .and(firsts(rt, run, streams))
        .and(reductions(rt, run, streams))
        .and(ranges(rt, run, streams))
}

#[test]
fn rows_at_each_number_of_workers(rt: HostRuntime) -> Result<(), StreamError> {
    run_test(&rt, Case::AtEachSetting(Suite::Numbers))
}

/// Numbers of workers.
static WORKERS: [u32; 4] = [1, 7, 2, 64];

/// The first of a million that is above 100.
pub fn check_million<R: Threads + Clock + Abort + Alloc<A = Global> + Sync, S: Streams>(
    rt: &R,
    streams: &S,
) -> Result<(), StreamError> {
    for &workers in &WORKERS {
        let million = numbers(rt, streams, 0, 1_000_000);
        let first = first_that(rt, &at((workers, 1000)), million, Above(100));
        check_items(rt, first, &[101])?;
    }
    Ok(())
}

#[test]
fn the_first_of_a_million(rt: HostRuntime) -> Result<(), StreamError> {
    run_test(&rt, Case::FirstOfMillion)
}
