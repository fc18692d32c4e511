//! What reports say: counts, cuts and skipped leaves.

use super::answers::{Reported, check, check_list, limited, reported, same};
use super::gates::{Watch, once};
use super::rows::{front, second};
use super::streams::{Streams, numbers};
use super::{Case, at, run_test};
use parallel_streams::{Run, Stream, StreamError};
use std::alloc::Global;
use std::process::Abort;
use std::thread::Threads;
use std::time::Clock;
use stealing_pool::{RunEntry, RunReport};
use stream_functions::Below;

/// How many leaves a run had, where it was cut, and the counts of leaves; all others were skipped.
pub type Entry<'a> = (usize, Option<usize>, &'a [(usize, u64)]);

/// The count that is wanted of a leaf.
fn wanted_of(counts: &[(usize, u64)], leaf: usize) -> Option<u64> {
    for (at, count) in counts {
        if *at == leaf {
            return Some(*count);
        }
    }
    None
}

fn tells(entry: &RunEntry, (leaves, cut, counts): Entry<'_>) -> bool {
    if entry.leaves() != leaves || entry.cut() != cut {
        return false;
    }
    for leaf in 0..leaves {
        let count = wanted_of(counts, leaf);
        if entry.count(leaf) != count || entry.was_skipped(leaf) != count.is_none() {
            return false;
        }
    }
    true
}

fn all_tell(report: &RunReport, entries: &[Entry<'_>]) -> bool {
    let mut reported = report.entries().iter();
    for wanted in entries {
        match reported.next() {
            Some(entry) if tells(entry, *wanted) => {}
            _ => return false,
        }
    }
    reported.next().is_none()
}

/// Checks items, and the entries of the runs that they came from: one a barrier, and one for the terminal operation.
pub fn check_report(
    rt: &impl Abort,
    found: Reported,
    items: &[i64],
    entries: &[Entry<'_>],
) -> Result<(), StreamError> {
    let (found, report) = found?;
    same(rt, all_tell(&report, entries), true);
    check_list(rt, Ok(found), items)
}

static OF_A_LIMIT: [Entry<'_>; 2] = [(4, Some(1), &[(0, 2), (1, 3)]), (1, None, &[(0, 0)])];

static OF_A_FRONT: [Entry<'_>; 2] = [(16, Some(0), &[(0, 1)]), (1, None, &[(0, 0)])];

/// One entry a barrier, and one for the terminal operation. A barrier whose items all count for nothing cuts nowhere.
static OF_EACH_BARRIER: [Entry<'_>; 3] = [
    (3, None, &[(0, 0), (1, 0), (2, 0)]),
    (2, Some(0), &[(0, 1)]),
    (1, None, &[(0, 0)]),
];

/// The entries of a limit, of a while, and of each of two barriers.
pub fn check_entries<R: Threads + Clock + Abort + Alloc<A = Global> + Sync, S: Streams>(
    rt: &R,
    streams: &S,
) -> Result<(), StreamError> {
    let three = limited(rt, &at((1, 4)), numbers(rt, streams, 0, 10), 3);
    let below = front(rt, &at((1, 10)), numbers(rt, streams, 0, 100), Below(3));
    let five = second(rt, &at((1, 1)), numbers(rt, streams, 4, 7));
    check_report(rt, three, &[0, 1, 2], &OF_A_LIMIT)
        .and(check_report(rt, below, &[0, 1, 2], &OF_A_FRONT))
        .and(check_report(rt, five, &[5], &OF_EACH_BARRIER))
}

#[test]
fn a_limit_and_a_take_while_cut_and_each_barrier_has_an_entry(
    rt: HostRuntime,
) -> Result<(), StreamError> {
    run_test(&rt, Case::Entries)
}

/// The sum of `once` of the leaves that have a count, over all entries.
fn by_number(found: Reported) -> Result<u64, StreamError> {
    let report = found?.1;
    let mut sum: u64 = 0;
    for entry in report.entries() {
        for leaf in 0..entry.leaves() {
            if entry.count(leaf).is_some() {
                sum = sum.wrapping_add(once(leaf));
            }
        }
    }
    Ok(sum)
}

/// Workers, targets, and how many leaves the gate is told of.
static SEEN: [(u32, u64, u64); 3] = [(1, 1, 13), (7, 1, 13), (1, 4, 3)];

// What follows seven numbers, or the first three.
fn cut<R: Threads + Clock + Alloc<A = Global> + Sync, X: Stream<Item = i64> + Drop + Sync>(
    rt: &R,
    run: &Run<'_, Watch>,
    numbers: X,
    skips: bool,
) -> Reported
    requires { X.ready numbers }
{
    if skips {
        return reported(rt, run, &numbers.skip(7));
    }
    limited(rt, run, numbers, 3)
}

/// The leaves of a report, and those that the gate was told of.
pub fn check_seen<R: Threads + Clock + Abort + Alloc<A = Global> + Sync, S: Streams>(
    rt: &R,
    streams: &S,
) -> Result<(), StreamError> {
    for &(workers, target, wanted) in &SEEN {
        let gate = &Watch::until(0, 0);
        let run = Run {
            workers,
            target,
            gate,
        };
        let found = cut(rt, &run, numbers(rt, streams, 0, 10), target == 1);
        check(rt, by_number(found), gate.by_number())?;
        same(rt, gate.entered(), wanted);
    }
    Ok(())
}

// Run by run, the leaves with a count are those that the gate was told of: 10 leaves and then 3 where nothing is cut, 2 of 4 and then 1 where
// one worker is cut.
#[test]
fn a_report_is_that_of_the_runs_that_the_gate_saw(rt: HostRuntime) -> Result<(), StreamError> {
    run_test(&rt, Case::SeenByGate)
}
