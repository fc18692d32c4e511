//! Matches.

use super::answers::check;
use super::streams::{Streams, numbers};
use super::{Case, Suite, run_test};
use parallel_streams::{Run, Stream, StreamError};
use std::alloc::Global;
use std::process::Abort;
use std::thread::Threads;
use std::time::Clock;
use stealing_pool::NoGate;
use stream_functions::Below;

/// A number of items from 0 on, a limit, and whether all, any and none of the items are below it.
static MATCHES: [(i64, i64, [bool; 3]); 4] = [
    (0, 0, [true, false, true]),
    (10, 10, [true, true, false]),
    (10, 9, [false, true, false]),
    (10, 1, [false, true, false]),
];

fn check_matches<
    R: Threads + Clock + Abort + Alloc<A = Global> + Sync,
    X: Stream<Item = i64> + Drop + Sync,
>(
    rt: &R,
    run: &Run<'_, NoGate>,
    numbers: X,
    below: &Below,
    wanted: [bool; 3],
) -> Result<(), StreamError>
    requires { X.ready numbers }
{
    let [all, any, none] = wanted;
    let are_all = numbers.all_match(rt, rt.alloc(), run, below);
    let are_any = numbers.any_match(rt, rt.alloc(), run, below);
    let are_none = numbers.none_match(rt, rt.alloc(), run, below);
    check(rt, are_all, all)
        .and(check(rt, are_any, any))
        .and(check(rt, are_none, none))
}

/// Rows of one setting.
pub fn rows<R: Threads + Clock + Abort + Alloc<A = Global> + Sync, S: Streams>(
    rt: &R,
    run: &Run<'_, NoGate>,
    streams: &S,
) -> Result<(), StreamError> {
    for &(end, limit, wanted) in &MATCHES {
        let numbers = numbers(rt, streams, 0, end);
        check_matches(rt, run, numbers, &Below(limit), wanted)?;
    }
    Ok(())
}

#[test]
fn matches_at_each_number_of_workers(rt: HostRuntime) -> Result<(), StreamError> {
    run_test(&rt, Case::AtEachSetting(Suite::Matches))
}
