//! Workers that a gate holds: what is found right of a held leaf takes nobody's place.
ghost use Rattle.std.specs.Prelude.{pos, int_lt};

use super::answers::{check, check_items, check_list, list_of, same, sum_of};
use super::gates::Watch;
use super::reports::{Entry, check_report};
use super::rows::{first_that, front};
use super::streams::{Streams, numbers};
use super::{Case, at, run_test};
use parallel_streams::{Run, Stream, StreamError, of};
use sources::SliceSplit;
use stages::Test;
use std::alloc::Global;
use std::fmt::Debug;
use std::process::Abort;
use std::sync::atomic::Ordering;
use std::thread::Threads;
use std::time::Clock;
use stream_functions::{Above, Not};

/// A run by two workers.
fn by_two(target: u64, gate: &Watch) -> Run<'_, Watch> {
    Run {
        workers: 2,
        target,
        gate,
    }
}

/// A leaf that is held until all others have ended.
pub fn check_place<R: Threads + Clock + Abort + Alloc<A = Global> + Sync, S: Streams>(
    rt: &R,
    streams: &S,
) -> Result<(), StreamError> {
    let gate = Watch::until(0, 99);
    let items = list_of(rt, &by_two(1, &gate), streams, 0, 100);
    let items = gate.all_came().and(items)?;
    same(rt, items.iter().copied().eq(0..100), true);
    Ok(())
}

#[test]
fn a_held_leaf_keeps_its_place(rt: HostRuntime) -> Result<(), StreamError> {
    run_test(&rt, Case::HeldLeaf)
}

static OF_A_MILLION: [Entry<'_>; 2] = [
    (1024, Some(0), &[(0, 1), (1, 1), (512, 1)]),
    (1, None, &[(0, 0)]),
];

/// The first of a million, where the first leaf is held.
pub fn check_million<R: Threads + Clock + Abort + Alloc<A = Global> + Sync, S: Streams>(
    rt: &R,
    streams: &S,
) -> Result<(), StreamError> {
    let gate = Watch::until(0, 2);
    let million = numbers(rt, streams, 0, 1_000_000);
    let found = first_that(rt, &by_two(1000, &gate), million, Above(100));
    check_report(rt, gate.all_came().and(found), &[101], &OF_A_MILLION)
}

// Leaf 0 is held until the other worker has run leaf 512, where its share begins, and leaf 1. It stops at the first item of each.
#[test]
fn a_held_first_leaf_of_a_million_items(rt: HostRuntime) -> Result<(), StreamError> {
    run_test(&rt, Case::HeldFirstLeafOfMillion)
}

/// The numbers below 1. It counts how often it was asked of a number from 4096 on, and at 4096 it turns until leaf 0 has ended.
#[derive(Drop)]
struct Watched<'a> {
    gate: &'a Watch,
}

impl Test<i64> for Watched<'_> {
    ghost holds = { λ _ x. int_lt x (pos 1) };

    fn holds(&self, x: &i64) -> bool {
        if *x >= 4096 {
            self.gate.asked.fetch_add(1, Ordering::SeqCst);
        }
        if *x == 4096 {
            self.gate.wait_for_first();
        }
        *x < 1
    }
}

static OF_A_CUT_LEAF: [Entry<'_>; 2] = [(2, Some(0), &[(0, 1)]), (1, None, &[(0, 0)])];

/// A leaf that is cut while it is read one by one.
pub fn check_cut_leaf<R: Threads + Clock + Abort + Alloc<A = Global> + Sync, S: Streams>(
    rt: &R,
    streams: &S,
) -> Result<(), StreamError> {
    let gate = Watch::until(2, 0);
    let all = numbers(rt, streams, 0, 8192);
    let found = first_that(rt, &by_two(4096, &gate), all, Watched { gate: &gate });
    let told = check_report(rt, gate.all_came().and(found), &[0], &OF_A_CUT_LEAF);
    let asked = gate.asked.load(Ordering::SeqCst);
    check(rt, told.and(Ok(asked)), 1024)
}

// Leaf 0 is held until the other leaf was entered.
#[test]
fn a_leaf_asks_each_1024_items_whether_it_was_cut(rt: HostRuntime) -> Result<(), StreamError> {
    run_test(&rt, Case::CutLeaf)
}

/// Checks that a leaf of 4,096 numbers that is cut at its first was asked of 1,024.
fn check_cut<T: Copy + PartialEq + Debug>(
    rt: &impl Abort,
    gate: &Watch,
    found: Result<T, StreamError>,
    wanted: T,
) -> Result<(), StreamError> {
    let told = check(rt, gate.all_came().and(found), wanted);
    told.and(check(rt, Ok(gate.asked.load(Ordering::SeqCst)), 1024))
}

/// .. and while it is lent.
pub fn check_cut_lent<R: Threads + Clock + Abort + Alloc<A = Global> + Sync, S: Streams>(
    rt: &R,
    streams: &S,
) -> Result<(), StreamError> {
    let gate = Watch::until(2, 0);
    let list = list_of(rt, &at((1, 0)), streams, 0, 8192)?;
    let lent = of(SliceSplit::new(&list));
    let watched = Watched { gate: &gate };
    let met = lent.any_match(rt, rt.alloc(), &by_two(4096, &gate), &watched);
    check_cut(rt, &gate, met, true)
}

// The same of a leaf that is lent.
#[test]
fn a_lent_leaf_asks_each_1024_items_whether_it_was_cut(rt: HostRuntime) -> Result<(), StreamError> {
    run_test(&rt, Case::CutLentLeaf)
}

/// .. and while it is read in blocks.
pub fn check_cut_blocks<R: Threads + Clock + Abort + Alloc<A = Global> + Sync, S: Streams>(
    rt: &R,
    streams: &S,
) -> Result<(), StreamError> {
    let gate = Watch::until(2, 0);
    let all = numbers(rt, streams, 0, 8192);
    let found = front(rt, &by_two(4096, &gate), all, Not(Watched { gate: &gate }));
    let told = check_items(rt, gate.all_came().and(found), &[]);
    told.and(check(rt, Ok(gate.asked.load(Ordering::SeqCst)), 1024))
}

// The same of a leaf that is read in blocks, as before a while.
#[test]
fn a_leaf_in_blocks_asks_each_1024_items_whether_it_was_cut(
    rt: HostRuntime,
) -> Result<(), StreamError> {
    run_test(&rt, Case::CutLeafInBlocks)
}

/// One item of 64 workers.
pub fn check_one<R: Threads + Clock + Abort + Alloc<A = Global> + Sync, S: Streams>(
    rt: &R,
    streams: &S,
) -> Result<(), StreamError> {
    let one = list_of(rt, &at((64, 1)), streams, 0, 1);
    check_list(rt, one, &[0])
}

#[test]
fn sixty_four_workers_share_one_item(rt: HostRuntime) -> Result<(), StreamError> {
    run_test(&rt, Case::OneItem)
}

/// A sum by seven workers.
pub fn check_sum<R: Threads + Clock + Abort + Alloc<A = Global> + Sync, S: Streams>(
    rt: &R,
    streams: &S,
) -> Result<(), StreamError> {
    let sum = sum_of(rt, &at((7, 10)), &numbers(rt, streams, 0, 100));
    check(rt, sum, 4950)
}

// Where a request for memory is refused, that of a thread too, the sum is exact or memory is wanted (checks/refused_tests.py).
#[test]
fn seven_workers_sum_or_want_memory(rt: HostRuntime) -> Result<(), StreamError> {
    run_test(&rt, Case::SumBySeven)
}
