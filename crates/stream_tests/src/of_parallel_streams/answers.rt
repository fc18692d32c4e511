//! Terminal operations at the end of any stream, so that a row asks for little more than its stream's type, and the checks of what they answer. A check takes
//! an answer as it comes, so that a row keeps nothing that it has to let go of.
ghost use Rattle.parallel_streams.specs.Terminals.{IsLeftIdentity};
ghost use Rattle.spliterator.specs.Values.{IsI64};
ghost use Rattle.stages.specs.Operators.{IsAssociative};

use super::streams::{Streams, numbers};
use collectors::{Collector, SummingLong, ToList};
use parallel_streams::{Run, Stream, StreamError};
use stages::Operator;
use std::alloc::Global;
use std::fmt::Debug;
use std::process::Abort;
use std::thread::Threads;
use std::time::Clock;
use stealing_pool::{Gate, NoGate, RunReport};
use stream_functions::Itself;

/// The items of a stream, and what each run tells of its leaves.
pub type Reported = Result<(Vec<i64>, RunReport), StreamError>;

/// The items of a stream.
pub fn listed<
    R: Threads + Clock + Alloc<A = Global> + Sync,
    H: Gate + Sync,
    X: Stream<Item = i64> + Sync,
>(rt: &R, run: &Run<'_, H>, stream: &X) -> Result<Vec<i64>, StreamError>
    requires { X.ready stream.now }
{
    stream.collect(rt, rt.alloc(), run, &ToList::new(rt.alloc()))
}

/// The numbers from one up to another, as a list.
pub fn list_of<R: Threads + Clock + Abort + Alloc<A = Global> + Sync, H: Gate + Sync, S: Streams>(
    rt: &R,
    run: &Run<'_, H>,
    streams: &S,
    start: i64,
    end: i64,
) -> Result<Vec<i64>, StreamError> {
    listed(rt, run, &numbers(rt, streams, start, end))
}

/// The items of a stream, and what each run tells of its leaves.
pub fn reported<
    R: Threads + Clock + Alloc<A = Global> + Sync,
    H: Gate + Sync,
    X: Stream<Item = i64> + Sync,
>(rt: &R, run: &Run<'_, H>, stream: &X) -> Reported
    requires { X.ready stream.now }
{
    stream.collect_reported(rt, rt.alloc(), run, &ToList::new(rt.alloc()))
}

/// The number of items of a stream.
pub fn counted<R: Threads + Clock + Alloc<A = Global> + Sync, H: Gate + Sync, X: Stream>(
    rt: &R,
    run: &Run<'_, H>,
    stream: &X,
) -> Result<i64, StreamError>
    requires { X.ready stream.now }
{
    stream.count(rt, rt.alloc(), run)
}

/// The first item of a stream.
pub fn first_of<
    R: Threads + Clock + Alloc<A = Global> + Sync,
    H: Gate + Sync,
    X: Stream<Item = i64> + Sync,
>(rt: &R, run: &Run<'_, H>, stream: &X) -> Result<Option<i64>, StreamError>
    requires { X.ready stream.now }
{
    stream.find_first(rt, rt.alloc(), run)
}

/// The sum of the items of a stream, by a collector.
pub fn sum_of<R: Threads + Clock + Alloc<A = Global> + Sync, X: Stream<Item = i64> + Sync>(
    rt: &R,
    run: &Run<'_, NoGate>,
    stream: &X,
) -> Result<i64, StreamError>
    requires { X.ready stream.now }
{
    stream.collect(rt, rt.alloc(), run, &SummingLong::new(Itself))
}

/// What a collector makes of numbers.
pub fn collected<
    R: Threads + Clock + Alloc<A = Global> + Sync,
    X: Stream<Item = i64> + Sync,
    C: Collector<Item = i64> + Sync,
>(rt: &R, run: &Run<'_, NoGate>, numbers: &X, collector: &C) -> Result<C::Out, StreamError>
where
    C::Acc: Send,
    C::Out: Send,
    requires numbers { X.ready numbers.now }
    requires collector { C.ready collector.now }
{
    numbers.collect(rt, rt.alloc(), run, collector)
}

/// The first items of a stream, and what each run tells of its leaves.
pub fn limited<
    R: Threads + Clock + Alloc<A = Global> + Sync,
    H: Gate + Sync,
    X: Stream<Item = i64> + Drop + Sync,
>(rt: &R, run: &Run<'_, H>, numbers: X, most: u32) -> Reported
    requires { X.ready numbers }
{
    reported(rt, run, &numbers.limit(u64::from(most)))
}

/// The items of a stream joined by an operator, from the identity on.
pub fn reduced<
    R: Threads + Clock + Alloc<A = Global> + Sync,
    X: Stream<Item = i64> + Sync,
    O: Operator<i64> + Sync,
>(
    rt: &R,
    run: &Run<'_, NoGate>,
    stream: &X,
    identity: i64,
    operator: &O,
) -> Result<i64, StreamError>
    requires stream { X.ready stream.now }
    requires operator { O.ready operator.now }
    requires associative { IsAssociative IsI64 (O.join operator.now) }
    requires identity { IsLeftIdentity IsI64 (O.join operator.now) identity }
{
    stream.reduce(rt, rt.alloc(), run, identity, operator)
}

/// Numbers joined by an operator, or none where there is no number.
pub fn joined<
    R: Threads + Clock + Alloc<A = Global> + Sync,
    X: Stream<Item = i64> + Sync,
    O: Operator<i64> + Sync,
>(rt: &R, run: &Run<'_, NoGate>, numbers: &X, operator: &O) -> Result<Option<i64>, StreamError>
    requires numbers { X.ready numbers.now }
    requires operator { O.ready operator.now }
    requires associative { IsAssociative IsI64 (O.join operator.now) }
{
    numbers.reduce_optional(rt, rt.alloc(), run, operator)
}

/// Checks a value.
pub fn same<T: Copy + PartialEq + Debug>(rt: &impl Abort, found: T, wanted: T) {
    assert!(rt; found == wanted, "{found:?} in the place of {wanted:?}");
}

/// Checks an answer.
pub fn check<T: Copy + PartialEq + Debug>(
    rt: &impl Abort,
    found: Result<T, StreamError>,
    wanted: T,
) -> Result<(), StreamError> {
    same(rt, found?, wanted);
    Ok(())
}

/// Checks a list of numbers.
pub fn check_list(
    rt: &impl Abort,
    found: Result<Vec<i64>, StreamError>,
    wanted: &[i64],
) -> Result<(), StreamError> {
    same(rt, found?.as_slice(), wanted);
    Ok(())
}

/// Checks the items that a report came with.
pub fn check_items(rt: &impl Abort, found: Reported, wanted: &[i64]) -> Result<(), StreamError> {
    check_list(rt, Ok(found?.0), wanted)
}
