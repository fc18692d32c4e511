//! Which leaves a gate is told of.

use super::gates::Watch;
use super::rows::{ONE, Row, file_of, parts_of};
use super::{Case, run_with};
use std::alloc::{AllocError, Global};
use std::process::Abort;
use std::random::RandomSource;
use std::test::Fail;
use std::thread::Threads;
use std::time::Clock;

/// Runs a file, watched by the gate.
fn watch<R: Threads + Clock + RandomSource + Abort + Sync>(
    rt: &R,
    alloc: Global,
    case: &Case<'_>,
    gate: &Watch,
) -> Result<String, AllocError> {
    let (_, written) = run_with(rt, alloc, case, gate)?;
    // no second thread came: its start wanted memory
    if gate.was_missed() {
        return Err(AllocError);
    }
    Ok(written)
}

/// A file, how many workers and which target are wanted, and the leaves that are run.
type LeafRow<'a> = (&'a [u8], u32, u64, u64);

const TEN: &[u8] = b"pipeline 1\nrange 0 10\nsum\n";

static SUMS: [LeafRow<'_>; 10] = [
    (TEN, 1, 3, 4),
    (TEN, 1, 0, 6),
    // one worker runs them, and they are those of the workers that are wanted
    (TEN, 2, 0, 10),
    (TEN, 64, 0, 10),
    (b"pipeline 1\nrange 0 100\nsum\n", 2, 0, 12),
    (TEN, 1, 10, 1),
    (b"pipeline 1\nrange 0 5\nsum\n", 4, 1, 5),
    (b"pipeline 1\nrange 5 5\nsum\n", 64, 1, 1),
    (b"pipeline 1\nrange 0 70000\nsum\n", 4, 1, 65536),
    // a fault
    (b"pipeline 1\nrange 0 10\nsum\nsum\n", 4, 1, 0),
];

/// A count of a known size runs no leaf, whether the user has a target or not.
static COUNTS: [&[u8]; 6] = [
    b"pipeline 1\nrange 0 4611686018427387904\ncount\n",
    b"pipeline 1\nrange 0 4611686018427387904\nskip 1\ncount\n",
    b"pipeline 1\nnumbers 1 2 3\nskip 10\ncount\n",
    b"pipeline 1\nrange 0 4611686018427387904\nmap add 1\nmap mod 7\ncount\n",
    b"pipeline 1\nrange 0 4611686018427387904\nskip 3\nlimit 100\nmap add 1\ncount\n",
    b"pipeline 1\nlines 2\na\nb\nmap self\nmap length\ncount\n",
];

const SUM: &[u8] = b"pipeline 1\nrange 0 262145\nmap mul 3\nsum\n";

/// The sum of many numbers by one step runs no leaf, unless the user has a target.
static SUMS_BY_STEPS: [LeafRow<'_>; 2] = [(SUM, 4, 0, 0), (SUM, 4, 65537, 4)];

/// What the second of eight leaves of 5 items decides.
static DECIDED: [&[u8]; 4] = [
    b"pipeline 1\nrange 0 40\nfilter equals 9\nfindfirst\n",
    b"pipeline 1\nrange 0 40\nanymatch equals 9\n",
    b"pipeline 1\nrange 0 40\nallmatch less 9\n",
    b"pipeline 1\nrange 0 40\nnonematch equals 9\n",
];

/// A run of the file has so many leaves.
fn has_leaves<R: Threads + Clock + RandomSource + Abort + Sync>(
    rt: &R,
    alloc: Global,
    (file, workers, target, leaves): LeafRow<'_>,
) -> Result<(), Fail> {
    let gate = Watch::new(false);
    watch(rt, alloc, &Case::of(file, workers, target), &gate)?;
    assert!(rt; gate.calls() == (leaves, leaves, 0), "{:?}", gate.calls());
    Ok(())
}

#[test]
fn are_those_of_the_split_rule(rt: HostRuntime) -> Result<(), Fail> {
    for rows in [SUMS.as_slice(), SUMS_BY_STEPS.as_slice()] {
        for &row in rows {
            has_leaves(&rt, rt.alloc(), row)?;
        }
    }
    for &file in &COUNTS {
        has_leaves(&rt, rt.alloc(), (file, 4, 0, 0))?;
        has_leaves(&rt, rt.alloc(), (file, 4, 1, 0))?;
    }
    for &file in &DECIDED {
        has_leaves(&rt, rt.alloc(), (file, 1, 5, 2))?;
    }
    Ok(())
}

/// A small run takes one worker, of the 64 that are wanted.
static SMALL: [Row<'_>; 6] = [
    "range 0 10\nsum\n-> 45\n",
    "range 10 0\nsum\n-> 0\n",
    "numbers 1 2 3\ntolist\n-> [1, 2, 3]\n",
    "lines 2\na\nb\nmap length\nsum\n-> 2\n",
    // 262,144 steps
    "closed 1 262144\nsum\n-> 34359869440\n",
    "range 0 131072\nmap add 1\nsum\n-> 8590000128\n",
];

/// Other runs take the two workers that are wanted.
static LARGE: [Row<'_>; 5] = [
    // one step more than a small run has
    "closed 0 262144\nproduct\n-> 0\n",
    "range 0 131073\nmap mod 1000\nsum\n-> 65437128\n",
    // items may become many
    "range 0 10\nflatmap repeat 2\nsum\n-> 90\n",
    "lines 2\na b\nc\nflatmap words\ntolist\n-> [a, b, c]\n",
    "lines 2\na\nb\nmap length\nflatmap repeat 2\nsum\n-> 4\n",
];

/// So many workers are wanted, at this target, and so many enter a leaf. Where several come, the first is held until another comes.
fn takes_workers<R: Threads + Clock + RandomSource + Abort + Sync>(
    rt: &R,
    alloc: Global,
    row: Row<'_>,
    (wanted, target, workers): (u32, u64, u32),
) -> Result<(), Fail> {
    let (lines, text) = parts_of(row);
    let file = file_of(alloc, ONE, lines)?;
    let gate = Watch::new(workers > 1);
    let written = watch(rt, alloc, &Case::of(file.as_slice(), wanted, target), &gate)?;
    assert!(rt;
        gate.worker_count() == workers && written.as_str() == text,
        "{written}"
    );
    Ok(())
}

#[test]
fn are_run_by_as_many_workers(rt: HostRuntime) -> Result<(), Fail> {
    for row in &SMALL {
        takes_workers(&rt, rt.alloc(), row, (64, 0, 1))?;
    }
    for row in &LARGE {
        takes_workers(&rt, rt.alloc(), row, (2, 0, 2))?;
    }
    // the target is not chosen
    takes_workers(&rt, rt.alloc(), "range 0 100\nsum\n-> 4950\n", (2, 1, 2))
}

// The segments have 3,125, 3,125, 6,250 and so on up to 100,000 numbers, and two runs each: that of the skip, and the sum's over what it left. The thirteenth run
// is the skip's over the last one, in two leaves; each run before it has one leaf.
const FAR: &[u8] = b"pipeline 1\nrange 0 200000\nfilter divisible 2\nskip 99999\nsum\n";

#[test]
fn are_run_by_two_workers_in_a_long_segment(rt: HostRuntime) -> Result<(), Fail> {
    let gate = Watch::of_run(13);
    let written = watch(&rt, rt.alloc(), &Case::of(FAR, 2, 65_536), &gate)?;
    assert!(rt;
        gate.worker_count() == 2 && gate.calls() == (15, 15, 0) && written.as_str() == "199998\n",
        "{:?} {written}",
        gate.calls()
    );
    Ok(())
}
