//! Lists put in order, by one thread or by several.
ghost use Rattle.std.specs.Prelude.{◌≡◌, OnOk, List, map};
ghost use Rattle.std.specs.Cmp.{IsTotalOrder};
ghost use Rattle.std.specs.List.Sorted.{IsPermutation, IsSorted};
ghost use Rattle.terminals.specs.Sorted.{IsSortedList, by_key};

use rayon::slice::{par_sort, par_sort_by, par_sort_unstable};
use spliterator::SortedValue;
use std::alloc::{AllocError, Global};
use std::cmp::Ordering;
use std::thread::Threads;
use std::time::Clock;

/// How many items tell whether a list begins with a run.
const FRONT: usize = 64;

/// Promises that values in ascending order are the sorted list of their contents: those that are equal have one content.
pub fn promise_contents<T: SortedValue>(_sorted: &Vec<T>)
    ensures { (list : List T) → IsPermutation list _sorted.now.items → IsSorted T.cmp _sorted.now.items
        → IsSortedList T.order (map T.content list) (map T.content _sorted.now.items) }
{}

fn falls<T: Ord>(a: &T, b: &T) -> bool {
    b < a
}

/// Whether the items ascend, or fall with no two equal.
fn is_run<T: Ord>(items: &[T]) -> bool {
    items.is_sorted() || items.is_sorted_by(falls)
}

/// Whether a list begins with a run: then a sort that merges runs is the faster one.
fn begins_with_run<T: Ord>(items: &[T]) -> bool {
    is_run(&items[..FRONT.min(items.len())])
}

/// Sorts a list by the order of its members, in the caller's thread. Those that are equal may change places.
pub fn sort_list_here<T: Ord>(list: &mut Vec<T>) -> Result<(), AllocError>
    ensures moved { IsPermutation list.old.items list.new.items }
    ensures ascending { OnOk result (IsSorted T.cmp list.new.items) }
{
    if begins_with_run(list.as_slice()) {
        list.sort()
    } else {
        list.sort_unstable();
        Ok(())
    }
}

/// Sorts a list by the order of its members. Those that are equal may change places. Where one worker is wanted, no thread starts.
pub fn sort_list<T: Ord + Send, R: Threads + Clock + Sync>(
    rt: &R,
    alloc: Global,
    workers: u32,
    list: &mut Vec<T>,
) -> Result<(), AllocError>
    ensures moved { IsPermutation list.old.items list.new.items }
    ensures ascending { OnOk result (IsSorted T.cmp list.new.items) }
{
    if workers == 1 || is_run(list.as_slice()) {
        sort_list_here(list)
    } else if begins_with_run(list.as_slice()) {
        par_sort(rt, alloc, list.as_mut_slice())
    } else {
        par_sort_unstable(rt, list.as_mut_slice());
        Ok(())
    }
}

// Two pairs by their first parts.
fn by_first<K: Ord, T>(a: &(K, T), b: &(K, T)) -> Ordering
    ensures { result ≡ K.cmp a.now.0 b.now.0 }
{
    a.0.cmp(&b.0)
}

/// Sorts pairs by their first parts, in the caller's thread.
pub fn sort_pairs_here<K: Ord, T>(pairs: &mut Vec<(K, T)>) -> Result<(), AllocError>
    ensures { IsTotalOrder K.cmp → OnOk result (IsSortedList (by_key (λ p. p.0) K.cmp) pairs.old.items pairs.new.items) }
{
    pairs.sort_by(by_first)
}

/// Sorts pairs by their first parts. Where one worker is wanted, no thread starts.
pub fn sort_pairs<K: Ord + Send, T: Send, R: Threads + Clock + Sync>(
    rt: &R,
    alloc: Global,
    workers: u32,
    pairs: &mut Vec<(K, T)>,
) -> Result<(), AllocError>
    ensures { IsTotalOrder K.cmp → OnOk result (IsSortedList (by_key (λ p. p.0) K.cmp) pairs.old.items pairs.new.items) }
{
    if workers == 1 {
        sort_pairs_here(pairs)
    } else {
        par_sort_by(rt, alloc, pairs.as_mut_slice(), by_first)
    }
}
