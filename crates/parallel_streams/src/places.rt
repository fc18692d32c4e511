//! The places of a list, cut into leaves.
ghost use Rattle.std.specs.Prelude.{◌≡◌, ◌<◌, ◌≤◌, ◌^◌, IfOk, length, map, min};
ghost use Rattle.split_tree.specs.SplitTree.{leaf_numbers, numbers_from};
ghost use Rattle.split_tree.specs.Plan.{leaves_of};
ghost use Rattle.parallel_streams.specs.Cuts.{Ascends, cut_at, start_at};
ghost use Rattle.parallel_streams.specs.Leaves.{AreLeafEnds, AreSizes, ends_by};

use sources::RangeSplit;
use split_tree::{Plan, PlanError, Tree};
use spliterator::{NoMemory, Spliterator};
use std::alloc::Global;

// The most places that a range can count.
const MAX_RANGE: u64 = 1 << 62;

/// The places of a list, cut into leaves as a slice of that length is.
#[derive(Drop)]
pub struct Places {
    plan: Plan<RangeSplit>,
    ends: Vec<usize>,
    ghost counted: { length ends.items ≡ length (leaves_of plan) },
}

// The plan of so many places. A list of more than 2^62 items, of no size then, is cut like one of 2^62.
fn plan_places(
    alloc: Global,
    len: usize,
    workers: u32,
    target: u64,
) -> Result<Plan<RangeSplit>, NoMemory>
    requires some_worker { 1 ≤ workers }
    requires few_workers { workers ≤ 64 }
    requires target { target ≤ 2 ^ 62 }
    ensures { let sizes = map ⟦<RangeSplit as Spliterator>⟧.estimate in
        IfOk result (λ plan. AreSizes workers target len (sizes (leaves_of plan))) }
{
    let counted = (len as u64).min(MAX_RANGE);
    let Ok(range) = RangeSplit::range(0, counted as i64) else {
        unreachable!()
    };
    match Plan::make(alloc, range, workers, target) {
        Ok(plan) => Ok(plan),
        Err(PlanError::NoMemory) => Err(NoMemory),
        Err(PlanError::BadTarget) => unreachable!(),
    }
}

// Where each leaf ends; the last one ends with the list.
fn leaf_ends(alloc: Global, plan: &Plan<RangeSplit>, len: usize) -> Result<Vec<usize>, NoMemory>
    ensures count { IfOk result (λ ends. length ends.items ≡ length (leaves_of plan.now)) }
    ensures ends { let sizes = map ⟦<RangeSplit as Spliterator>⟧.estimate (leaves_of plan.now) in
        IfOk result (λ ends. ends.items ≡ ends_by len 0 sizes) }
{
    let last = plan.leaves() - 1;
    let mut ends = Vec::new(alloc);
    let mut end: usize = 0;
    for leaf in 0..last {
        let size = plan.leaf(leaf).estimate_size() as usize;
        end = len.min(end.saturating_add(size));
        ends.push(end)?;
    }
    ends.push(len)?;
    Ok(ends)
}

impl Places {
    ghost use Rattle.parallel_streams.specs.Ends.{ends_of};
    ghost use Rattle.std.specs.Prelude.{slice_get, slice_index, Some};

    /// Cuts the places of a list.
    pub fn cut<T>(alloc: Global, items: &[T], workers: u32, target: u64) -> Result<Places, NoMemory>
        requires some_worker { 1 ≤ workers }
        requires few_workers { workers ≤ 64 }
        requires target { target ≤ 2 ^ 62 }
        ensures order { IfOk result (λ places. Ascends 0 (length items.now) (ends_of places)) }
        ensures leaves { let len = length items.now in
            IfOk result (λ places. AreLeafEnds workers target len (ends_of places)) }
    {
        let plan = plan_places(alloc, items.len(), workers, target)?;
        let ends = leaf_ends(alloc, &plan, items.len())?;
        Ok(Places { plan, ends })
    }

    /// The number of leaves.
    pub fn leaves(&self) -> usize
        ensures count { result ≡ length (ends_of self.now) }
        ensures some_leaf { 1 ≤ result }
        ensures few_leaves { result ≤ 65536 }
    {
        self.plan.leaves()
    }

    /// How the places were cut.
    pub fn tree(&self) -> &Tree
        ensures numbered { leaf_numbers result.now ≡ numbers_from 0 (length (ends_of self.now)) }
        ensures few { length (ends_of self.now) ≤ 65536 }
    {
        // The number promises that the leaves are few.
        let _few = self.plan.leaves();
        self.plan.tree()
    }

    // Where a leaf begins.
    fn start(&self, leaf: usize) -> usize
        requires { leaf < length (ends_of self.now) }
        ensures { result ≡ start_at 0 (ends_of self.now) leaf }
    {
        if leaf == 0 { 0 } else { self.ends[leaf - 1] }
    }

    // Where a leaf begins and ends in a list of this length.
    fn bounds(&self, len: usize, leaf: usize) -> (usize, usize)
        requires cut { Ascends 0 len (ends_of self.now) }
        requires within { leaf < length (ends_of self.now) }
        ensures start { result.0 ≡ start_at 0 (ends_of self.now) leaf }
        ensures end { result.1 ≡ slice_index (ends_of self.now) leaf }
        ensures order { result.0 ≤ result.1 }
        ensures fits { result.1 ≤ len }
    {
        (self.start(leaf), self.ends[leaf])
    }

    /// The items of a leaf.
    pub fn part<'a, T>(&self, items: &'a [T], leaf: usize) -> &'a [T]
        requires cut { Ascends 0 (length items.now) (ends_of self.now) }
        requires within { leaf < length (ends_of self.now) }
        ensures { slice_get (cut_at 0 (ends_of self.now) items.now) leaf ≡ Some result.now }
    {
        let (start, end) = self.bounds(items.len(), leaf);
        &items[start..end]
    }
}
