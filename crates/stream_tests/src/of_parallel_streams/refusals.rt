//! A caller's function that refuses memory. A leaf right of what is wanted may then turn the answer into `NoMemory`, never into another value.

use super::answers::{check, first_of, same, sum_of};
use super::streams::{Streams, numbers};
use super::{Case, at, run_test};
use parallel_streams::{Run, Stream, StreamError};
use spliterator::NoMemory;
use stages::Mapping;
use std::alloc::Global;
use std::process::Abort;
use std::thread::Threads;
use std::time::Clock;
use stealing_pool::NoGate;
use stream_functions::Above;

/// Each number as it is, but memory is refused at one of them.
#[derive(Drop)]
struct RefusesAt(i64);

impl Mapping<i64> for RefusesAt {
    type Out = i64;

    ghost image = { λ _ x. x };

    ghost images_are_values = { λ f x h. h };

    fn image(&self, x: &i64) -> Result<i64, NoMemory> {
        if *x == self.0 { Err(NoMemory) } else { Ok(*x) }
    }
}

/// Targets, and the first number that is met.
static FIRSTS: [(u64, i64); 6] = [(1, 0), (1, 4), (16, 0), (16, 4), (0, 0), (0, 4)];

// The first number above a limit, one of which meets it.
fn first_above<
    R: Threads + Clock + Abort + Alloc<A = Global> + Sync,
    X: Stream<Item = i64> + Drop + Sync,
>(rt: &R, run: &Run<'_, NoGate>, numbers: X, above: Above) -> Result<Option<i64>, StreamError>
    requires { X.ready numbers }
{
    let is_met = numbers.any_match(rt, rt.alloc(), run, &above);
    let first = first_of(rt, run, &numbers.filter(above));
    check(rt, is_met, true).and(first)
}

// .. or the first number, where the sum of all wants memory.
fn first_met<
    R: Threads + Clock + Abort + Alloc<A = Global> + Sync,
    X: Stream<Item = i64> + Drop + Sync,
>(
    rt: &R,
    run: &Run<'_, NoGate>,
    numbers: X,
    above: Option<Above>,
) -> Result<Option<i64>, StreamError>
    requires { X.ready numbers }
{
    if let Some(above) = above {
        return first_above(rt, run, numbers, above);
    }
    same(rt, sum_of(rt, run, &numbers), Err(StreamError::NoMemory));
    first_of(rt, run, &numbers)
}

// .. of numbers of which memory is refused at one.
fn refused<
    R: Threads + Clock + Abort + Alloc<A = Global> + Sync,
    X: Stream<Item = i64> + Drop + Sync,
>(
    rt: &R,
    run: &Run<'_, NoGate>,
    numbers: X,
    at: i64,
    above: Option<Above>,
) -> Result<Option<i64>, StreamError>
    requires { X.ready numbers }
{
    first_met(rt, run, numbers.map(RefusesAt(at)), above)
}

/// The first of ten numbers that is met. Memory is refused at the number behind it.
pub fn check_firsts<R: Threads + Clock + Abort + Alloc<A = Global> + Sync, S: Streams>(
    rt: &R,
    streams: &S,
) -> Result<(), StreamError> {
    for &(target, first) in &FIRSTS {
        let (above, refused_at) = (Above(first.saturating_sub(1)), first.saturating_add(1));
        let ten = numbers(rt, streams, 0, 10);
        let found = refused(rt, &at((1, target)), ten, refused_at, Some(above));
        check(rt, found, Some(first))?;
    }
    Ok(())
}

// With one worker nothing behind the first item is asked for, in its own leaf neither; and of a match nothing behind the first hit.
#[test]
fn one_worker_reads_nothing_behind_the_first_item_or_hit(
    rt: HostRuntime,
) -> Result<(), StreamError> {
    run_test(&rt, Case::OneWorkerReadsNothingBehind)
}

/// The first of ten numbers, where memory is refused at 7.
pub fn check_refused<R: Threads + Clock + Abort + Alloc<A = Global> + Sync, S: Streams>(
    rt: &R,
    streams: &S,
) -> Result<(), StreamError> {
    let of_seven = refused(rt, &at((7, 1)), numbers(rt, streams, 0, 10), 7, None);
    if of_seven != Err(StreamError::NoMemory) {
        same(rt, of_seven, Ok(Some(0)));
    }
    let of_one = refused(rt, &at((1, 1)), numbers(rt, streams, 0, 10), 7, None);
    check(rt, of_one, Some(0))
}

// With one worker no leaf right of what is wanted runs; with seven one may.
#[test]
fn a_refusal_right_of_the_first_item_gives_no_other_item(
    rt: HostRuntime,
) -> Result<(), StreamError> {
    run_test(&rt, Case::RefusalRightOfFirst)
}
