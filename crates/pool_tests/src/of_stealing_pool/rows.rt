//! What runs answer and report.
ghost use Rattle.std.specs.Prelude.{◌≤◌};

use super::gates::{Between, HoldsFirst, Meeting};
use super::watched::{MeetingLists, Met, Times, Watched};
use barriers::{Demand, FirstHit, Total, Whole};
use collectors::{Collector, SummingLong, ToList};
use sources::RangeSplit;
use split_tree::Plan;
use spliterator::NoMemory;
use stages::{Filter, Map, Nothing, Stage, Then};
use std::alloc::Global;
use std::process::Abort;
use std::sync::atomic::{AtomicU64, Ordering};
use std::test::Fail;
use std::thread::Threads;
use std::time::Clock;
use stealing_pool::{Gate, Gathered, NoGate, RunEntry, RunReport, run_leaves};
use stream_functions::{Above, Itself};

/// Whether nobody waited in vain. Where one did, no second thread came: its start wanted memory.
pub fn all_came(missed: &AtomicU64) -> Result<(), NoMemory> {
    if missed.load(Ordering::SeqCst) == 0 {
        Ok(())
    } else {
        Err(NoMemory)
    }
}

/// The numbers from 0 up to an end, the greatest size of a leaf, and how many workers run them.
#[derive(Clone, Copy, Drop)]
pub struct Shape {
    pub end: i64,
    pub target: u64,
    pub workers: u32,
}

/// A run of the numbers of a shape. A plan that finds no memory is a want of memory too.
pub fn run<
    R: Threads + Clock + Sync,
    G: Stage<In = i64> + Sync,
    D: Demand<G::Out> + Sync,
    C: Collector<Item = G::Out> + Sync,
    H: Gate + Sync,
>(
    rt: &R,
    alloc: Global,
    shape: Shape,
    stage: &G,
    demand: &D,
    collector: &C,
    gate: &H,
) -> Result<Gathered<C::Acc>, NoMemory>
where
    G::Out: Send,
    C::Acc: Send,
    C::Out: Send,
    requires stage { G.ready stage.now }
    requires demand { D.ready demand.now }
    requires collector { C.ready collector.now }
    requires workers { (1 ≤ shape.workers) × (shape.workers ≤ 64) }
{
    let Ok(numbers) = RangeSplit::range(0, shape.end) else {
        return Err(NoMemory);
    };
    let Ok(plan) = Plan::make(alloc, numbers, shape.workers, shape.target) else {
        return Err(NoMemory);
    };
    run_leaves(
        rt,
        alloc,
        &plan,
        stage,
        demand,
        collector,
        shape.workers,
        gate,
    )
}

/// The count that is told of a leaf.
fn told(counts: &[(usize, u64)], leaf: usize) -> Option<u64> {
    for (at, count) in counts {
        if *at == leaf {
            return Some(*count);
        }
    }
    None
}

/// Whether there were so many leaves and this cut, these leaves have these counts, and all others were skipped.
fn reports(entry: &RunEntry, leaves: usize, cut: usize, counts: &[(usize, u64)]) -> bool {
    if entry.leaves() != leaves || entry.cut() != Some(cut) {
        return false;
    }
    for leaf in 0..leaves {
        let count = told(counts, leaf);
        if entry.count(leaf) != count || entry.was_skipped(leaf) != count.is_none() {
            return false;
        }
    }
    true
}

/// A run that sums the numbers of a range.
fn sum<R: Threads + Clock + Sync>(
    rt: &R,
    alloc: Global,
    range: RangeSplit,
    workers: u32,
    target: u64,
) -> Result<Gathered<i64>, NoMemory>
    requires { (1 ≤ workers) × (workers ≤ 64) }
{
    let Ok(plan) = Plan::make(alloc, range, workers, target) else {
        return Err(NoMemory);
    };
    let collector = SummingLong::new(Itself);
    run_leaves(
        rt,
        alloc,
        &plan,
        &Nothing::new(),
        &Whole,
        &collector,
        workers,
        &NoGate,
    )
}

/// Whether 1, 2, 7 and 64 workers all find this sum, at a target of 1 and at the default.
fn all_find_sum<R: Threads + Clock + Abort + Sync>(
    rt: &R,
    alloc: Global,
    numbers: RangeSplit,
    wanted: i64,
) -> Result<bool, NoMemory> {
    for target in [1, 0] {
        for workers in [1u32, 2, 7, 64] {
            assert!(rt; workers >= 1 && workers <= 64);
            if sum(rt, alloc, numbers, workers, target)?.acc != wanted {
                return Ok(false);
            }
        }
    }
    Ok(true)
}

#[test]
fn sums_are_those_of_one_thread(rt: HostRuntime) -> Result<(), Fail> {
    for (numbers, wanted) in [
        (RangeSplit::range(1, 6), 15),
        (RangeSplit::range(5, 5), 0),
        (RangeSplit::closed(i64::MAX - 1, i64::MAX), -3),
        (RangeSplit::range(0, 100), 4950),
    ] {
        let is_found = all_find_sum(&rt, rt.alloc(), numbers?, wanted)?;
        assert!(rt; is_found, "the sum {wanted}");
    }
    Ok(())
}

#[test]
fn a_report_tells_the_leaves_of_a_whole_run(rt: HostRuntime) -> Result<(), Fail> {
    let run = sum(&rt, rt.alloc(), RangeSplit::range(0, 100_000)?, 4, 0)?;
    let is_whole = run.entry.leaves() == 16 && run.entry.cut().is_none();
    assert!(rt; run.acc == 4_999_950_000 && is_whole && run.entry.count(15) == Some(0));
    Ok(())
}

#[test]
fn sixty_four_workers_share_one_item(rt: HostRuntime) -> Result<(), Fail> {
    assert!(rt; sum(&rt, rt.alloc(), RangeSplit::range(7, 8)?, 64, 1)?.acc == 7);
    Ok(())
}

/// How often a worker waited in vain for another one at a leaf, where so many sum 100 numbers.
fn misses<R: Threads + Clock + Abort + Sync>(
    rt: &R,
    alloc: Global,
    workers: u32,
) -> Result<AtomicU64, NoMemory>
    requires { (1 ≤ workers) × (workers ≤ 64) }
{
    let shape = Shape {
        end: 100,
        target: 1,
        workers,
    };
    let gate = Meeting::new();
    let collector = SummingLong::new(Itself);
    let run = run(rt, alloc, shape, &Nothing::new(), &Whole, &collector, &gate)?;
    assert!(rt; run.acc == 4950);
    Ok(gate.missed)
}

#[test]
fn two_workers_are_at_work_at_once(rt: HostRuntime) -> Result<(), Fail> {
    all_came(&misses(&rt, rt.alloc(), 2)?)?;
    Ok(())
}

// With all leaves on the caller's thread the gate waits in vain: it tells the one from the other.
#[test]
fn one_worker_meets_no_other(rt: HostRuntime) -> Result<(), Fail> {
    let missed = misses(&rt, rt.alloc(), 1)?;
    assert!(rt; missed.load(Ordering::SeqCst) == 1);
    Ok(())
}

/// How often a call of `combine` waited in vain for others, where so many workers list so many numbers. By its gate all of them start at once.
fn misses_in_combining<R: Threads + Clock + Abort + Sync>(
    rt: &R,
    alloc: Global,
    workers: u32,
    numbers: u32,
    lists: MeetingLists,
) -> Result<AtomicU64, NoMemory>
    requires { (1 ≤ workers) × (workers ≤ 64) }
{
    let shape = Shape {
        end: i64::from(numbers),
        target: 1,
        workers,
    };
    let gate = Between::new();
    let run = run(rt, alloc, shape, &Nothing::new(), &Whole, &lists, &gate)?;
    assert!(rt; are_from_zero(run.acc.as_slice(), numbers as usize));
    Ok(lists.missed)
}

#[test]
fn two_children_are_combined_at_once(rt: HostRuntime) -> Result<(), Fail> {
    let lists = MeetingLists::new(rt.alloc(), 2, false);
    all_came(&misses_in_combining(&rt, rt.alloc(), 2, 4, lists)?)?;
    Ok(())
}

// Two workers combine the children of the first node alone, each by one thread, so the first of three calls waits in vain.
#[test]
fn two_workers_combine_no_three_at_once(rt: HostRuntime) -> Result<(), Fail> {
    let lists = MeetingLists::new(rt.alloc(), 3, false);
    let missed = misses_in_combining(&rt, rt.alloc(), 2, 8, lists)?;
    assert!(rt; missed.load(Ordering::SeqCst) > 0);
    Ok(())
}

// Light containers are combined by one thread, and one worker combines alone, so the first call of `combine` waits in vain.
#[test]
fn light_containers_and_one_worker_start_no_thread(rt: HostRuntime) -> Result<(), Fail> {
    let light = MeetingLists::new(rt.alloc(), 2, true);
    let light = misses_in_combining(&rt, rt.alloc(), 2, 4, light)?;
    let alone = MeetingLists::new(rt.alloc(), 2, false);
    let alone = misses_in_combining(&rt, rt.alloc(), 1, 4, alone)?;
    assert!(rt; light.load(Ordering::SeqCst) == 1 && alone.load(Ordering::SeqCst) == 1);
    Ok(())
}

/// The multiples of the numbers of a shape that are above a limit, as many as are needed.
fn listed<R: Threads + Clock + Sync>(
    rt: &R,
    alloc: Global,
    shape: Shape,
    times: Times,
    limit: i64,
    needed: u32,
    gate: &HoldsFirst,
) -> Result<Gathered<Vec<i64>>, NoMemory>
    requires { (1 ≤ shape.workers) × (shape.workers ≤ 64) }
{
    let stage = Then::new(Map::new(times), Filter::new(Watched { limit, gate }));
    let demand = Total::new(u64::from(needed));
    let run = run(rt, alloc, shape, &stage, &demand, &ToList::new(alloc), gate)?;
    all_came(&gate.missed)?;
    let Gathered { acc, entry } = run;
    Ok(Gathered {
        acc: acc.into_list()?,
        entry,
    })
}

#[test]
fn a_held_leaf_keeps_its_place(rt: HostRuntime) -> Result<(), Fail> {
    let shape = Shape {
        end: 100,
        target: 1,
        workers: 2,
    };
    // A hundred numbers are not enough, so that all are listed.
    let gate = HoldsFirst::until(0, 99);
    let run = listed(&rt, rt.alloc(), shape, Times::new(1), -1, 101, &gate)?;
    assert!(rt; are_from_zero(run.acc.as_slice(), 100));
    Ok(())
}

/// Whether these are so many numbers from 0 on.
fn are_from_zero(numbers: &[i64], count: usize) -> bool {
    let mut next = 0i64;
    for x in numbers {
        if *x != next {
            return false;
        }
        next = next.wrapping_add(1);
    }
    numbers.len() == count
}

#[test]
fn one_worker_stops_where_enough_is_kept(rt: HostRuntime) -> Result<(), Fail> {
    let shape = Shape {
        end: 10,
        target: 4,
        workers: 1,
    };
    let gate = HoldsFirst::until(0, 0);
    let run = listed(&rt, rt.alloc(), shape, Times::new(1), -1, 3, &gate)?;
    let report = RunReport::of(Vec::from_array(rt.alloc(), [run.entry])?);
    let is_told = matches!(report.entries(), [entry] if reports(entry, 4, 1, &[(0, 2), (1, 3)]));
    assert!(rt; are_from_zero(run.acc.as_slice(), 5) && is_told);
    Ok(())
}

#[test]
fn one_hit_skips_all_that_follows(rt: HostRuntime) -> Result<(), Fail> {
    let shape = Shape {
        end: 100,
        target: 10,
        workers: 1,
    };
    let demand = FirstHit::new(Above(2));
    let lists = ToList::new(rt.alloc());
    let run = run(
        &rt,
        rt.alloc(),
        shape,
        &Nothing::new(),
        &demand,
        &lists,
        &NoGate,
    )?;
    let list = run.acc.into_list()?;
    assert!(rt; are_from_zero(list.as_slice(), 4) && reports(&run.entry, 16, 0, &[(0, 1)]));
    Ok(())
}

// Leaf 0 is held until the other leaf has begun, which turns at its first number until leaf 0 has ended.
#[test]
fn a_leaf_asks_each_1024_items_whether_it_was_cut(rt: HostRuntime) -> Result<(), Fail> {
    let shape = Shape {
        end: 8192,
        target: 4096,
        workers: 2,
    };
    let gate = HoldsFirst::until(1, 0);
    let run = listed(&rt, rt.alloc(), shape, Times::new(-1), -1, 1, &gate)?;
    assert!(rt; are_from_zero(run.acc.as_slice(), 1) && reports(&run.entry, 2, 0, &[(0, 1)]));
    assert!(rt; gate.asked.load(Ordering::SeqCst) == 1024);
    assert!(rt; gate.all_ended(), "the leaf that was cut while it ran");
    Ok(())
}

// Leaf 0 is held until the other worker has run leaf 512, where its share begins, and leaf 1, which lies left of that hit.
#[test]
fn the_first_of_a_million_is_found(rt: HostRuntime) -> Result<(), Fail> {
    let shape = Shape {
        end: 1_000_000,
        target: 1000,
        workers: 2,
    };
    let gate = HoldsFirst::until(0, 2);
    let run = listed(&rt, rt.alloc(), shape, Times::new(3), 100, 1, &gate)?;
    let is_told = reports(&run.entry, 1024, 0, &[(0, 1), (1, 1), (512, 1)]);
    assert!(rt; run.acc.as_slice() == [102].as_slice() && is_told);
    Ok(())
}

/// A run of ten numbers, at the 7 of which memory is refused.
fn of_ten<R: Threads + Clock + Sync>(
    rt: &R,
    alloc: Global,
    needed: u32,
    target: u64,
    workers: u32,
    gate: &HoldsFirst,
) -> Result<Gathered<Vec<i64>>, NoMemory>
    requires { (1 ≤ workers) × (workers ≤ 64) }
{
    let shape = Shape {
        end: 10,
        target,
        workers,
    };
    let refusing = Times {
        factor: 1,
        refused: 7,
    };
    listed(rt, alloc, shape, refusing, -1, needed, gate)
}

#[test]
fn one_worker_meets_no_refusal_right_of_what_is_wanted(rt: HostRuntime) -> Result<(), Fail> {
    // In the second run all ten stand in one leaf, which reads none behind the item that is enough.
    for target in [1, 16] {
        let run = of_ten(&rt, rt.alloc(), 1, target, 1, &HoldsFirst::until(0, 0))?;
        assert!(rt; are_from_zero(run.acc.as_slice(), 1), "at {target}");
    }
    Ok(())
}

// Ten items are not eleven, so that all are wanted. The gate is told of the end of each leaf, that of the refused one too. Behind that none begins.
#[test]
fn a_refusal_is_met_where_all_is_wanted(rt: HostRuntime) -> Result<(), Fail> {
    let gate = HoldsFirst::until(0, 0);
    let is_refused = of_ten(&rt, rt.alloc(), 11, 1, 1, &gate).is_err();
    assert!(rt; is_refused && gate.all_ended() && gate.others_begun() <= 7);
    Ok(())
}

// With one worker, so that it is the leaf's own two calls that an item is met between.
#[test]
fn a_leaf_runs_between_the_calls_of_its_gate(rt: HostRuntime) -> Result<(), Fail> {
    let shape = Shape {
        end: 10,
        target: 1,
        workers: 1,
    };
    let gate = Between::new();
    let stage = Map::new(Met { gate: &gate });
    let sum = SummingLong::new(Itself);
    let run = run(&rt, rt.alloc(), shape, &stage, &Whole, &sum, &gate)?;
    assert!(rt; run.acc == 45 && gate.met_all());
    Ok(())
}

#[test]
fn seven_workers_may_meet_a_refusal(rt: HostRuntime) -> Result<(), Fail> {
    assert!(rt;
        match of_ten(&rt, rt.alloc(), 1, 1, 7, &HoldsFirst::until(0, 0)) {
            Ok(run) => are_from_zero(run.acc.as_slice(), 1),
            Err(NoMemory) => true,
        }
    );
    Ok(())
}

// Where a request for memory is refused, that of a thread too, the sum is exact or memory is wanted (checks/refused_tests.py).
#[test]
fn seven_workers_sum_or_want_memory(rt: HostRuntime) -> Result<(), Fail> {
    match sum(&rt, rt.alloc(), RangeSplit::range(0, 100)?, 7, 10) {
        Ok(run) => assert!(rt; run.acc == 4950),
        Err(NoMemory) => {}
    }
    Ok(())
}
