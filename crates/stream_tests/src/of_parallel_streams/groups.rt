//! Collectors in collectors at the end of a stream. What each collector makes of a list is for `collector_tests`.

use super::answers::{collected, same};
use super::functions::Both;
use super::streams::Streams;
use super::{Case, Suite, run_test};
use collectors::{Collector, Counting, FilteringTo, GroupingBy, SummingLong, Teeing};
use indexmap::IndexMap;
use parallel_streams::{Run, Stream, StreamError};
use std::alloc::Global;
use std::fmt::Debug;
use std::process::Abort;
use std::thread::Threads;
use std::time::Clock;
use stealing_pool::NoGate;
use stream_functions::{Above, Itself, Modulo};

/// Checks the keys of a map, and the value of each.
pub fn check_entries<V: Debug + PartialEq + Drop>(
    rt: &impl Abort,
    found: Result<IndexMap<i64, V>, StreamError>,
    keys: &[i64],
    values: &[V],
) -> Result<(), StreamError> {
    let found = found?;
    same(rt, found.keys().as_slice(), keys);
    same(rt, found.values().as_slice(), values);
    Ok(())
}

// What a collector makes of the numbers of each parity.
fn by_parity<
    R: Threads + Clock + Alloc<A = Global> + Sync,
    X: Stream<Item = i64> + Sync,
    D: Collector<Item = i64> + Drop + Sync,
>(
    rt: &R,
    run: &Run<'_, NoGate>,
    numbers: &X,
    downstream: D,
) -> Result<IndexMap<i64, D::Out>, StreamError>
where
    D::Acc: Send,
    D::Out: Send,
    requires numbers { X.ready numbers.now }
    requires downstream { D.ready downstream }
{
    let groups = GroupingBy::new(rt.alloc(), Modulo::by(2), downstream);
    collected(rt, run, numbers, &groups)
}

// .. of those of them that are above a limit.
fn above<
    R: Threads + Clock + Alloc<A = Global> + Sync,
    X: Stream<Item = i64> + Sync,
    D: Collector<Item = i64> + Drop + Sync,
>(
    rt: &R,
    run: &Run<'_, NoGate>,
    numbers: &X,
    limit: i64,
    downstream: D,
) -> Result<IndexMap<i64, D::Out>, StreamError>
where
    D::Acc: Send,
    D::Out: Send,
    requires numbers { X.ready numbers.now }
    requires downstream { D.ready downstream }
{
    by_parity(rt, run, numbers, FilteringTo::new(Above(limit), downstream))
}

/// Numbers, a limit, and of the odd numbers, which come first, and of the even ones how many are above it and their sum. A group whose items are
/// all filtered away keeps its key.
static TOTALS: [(&[i64], i64, &[(i64, i64)]); 2] = [
    (&[5, 2, 7, 4, 5], 0, &[(3, 17), (2, 6)]),
    (&[1, 2, 2, 1, 1], 100, &[(0, 0), (0, 0)]),
];

/// Rows of one setting.
pub fn rows<R: Threads + Clock + Abort + Alloc<A = Global> + Sync, S: Streams>(
    rt: &R,
    run: &Run<'_, NoGate>,
    streams: &S,
) -> Result<(), StreamError> {
    for &(numbers, limit, expected) in &TOTALS {
        let totals = Teeing::new(Counting::<i64>::new(), SummingLong::new(Itself), Both);
        let found = above(rt, run, &streams.slice(numbers), limit, totals);
        check_entries(rt, found, &[1, 0], expected)?;
    }
    Ok(())
}

#[test]
fn groups_at_each_number_of_workers(rt: HostRuntime) -> Result<(), StreamError> {
    run_test(&rt, Case::AtEachSetting(Suite::Groups))
}
