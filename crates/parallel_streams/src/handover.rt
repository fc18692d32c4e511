//! A barrier's list that a collector keeps as it stands.
ghost use Rattle.std.specs.Prelude.{◌≡◌, ◌≤◌, [], true, None, IfOk, length, map};
ghost use Rattle.split_tree.specs.SplitTree.{leaf_numbers, numbers_from};
ghost use Rattle.stealing_pool.specs.Spans.{joined};
ghost use Rattle.collectors.specs.Laws.{IsContainerOf};
ghost use Rattle.leaf_board.specs.Closing.{count_of, cut_of};
ghost use Rattle.stealing_pool.specs.Reports.{Reports};
ghost use Rattle.parallel_streams.specs.Ends.{ends_of};
ghost use Rattle.parallel_streams.specs.Sources.{idle_work};

use crate::kept::Listed;
use crate::places::Places;
use crate::{Engine, Plumbing};
use barriers::Need;
use collectors::{Collector, fold_owned};
use leaf_board::Handout;
use leaf_reading::{LeafEnd, Pause, Portion};
use split_tree::Tree;
use spliterator::NoMemory;
use stages::Nothing;
use std::alloc::Global;
use std::thread::Threads;
use std::time::Clock;
use stealing_pool::{Gate, LeafJob, NoGate, RunEntry, run_job};

// The run of so many leaves that read nothing.
#[derive(Drop)]
struct IdleRun {
    leaves: usize,
}

impl LeafJob for IdleRun {
    type Kept = ();

    ghost work = { λ j. idle_work j.leaves };

    fn leaves(&self) -> usize {
        self.leaves
    }

    fn need(&self) -> Need {
        Need::Never
    }

    fn run_leaf<B: Handout>(
        &self,
        _board: &B,
        _seat: &mut B::Seat,
        _leaf: usize,
    ) -> Result<LeafEnd<()>, NoMemory> {
        Ok(LeafEnd::Done(Portion { count: 0, kept: () }))
    }

    fn combine(&self, _left: &mut (), _right: ()) -> Result<(), NoMemory> {
        Ok(())
    }
}

// The entry of a run whose leaves read nothing, in this thread.
fn run_idle<R: Threads + Clock + Sync, H: Gate + Sync>(
    rt: &R,
    alloc: Global,
    tree: &Tree,
    leaves: usize,
    gate: &H,
) -> Result<RunEntry, NoMemory>
    requires tree { leaf_numbers tree.now ≡ numbers_from 0 leaves }
    requires few { leaves ≤ 65536 }
    ensures { IfOk result (λ entry. Reports None leaves (λ _. 0) entry.leaves (count_of entry) (cut_of entry)) }
{
    let idle = IdleRun { leaves };
    let run = run_job(rt, alloc, tree, &idle, 1, gate)?;
    Ok(run.entry)
}

/// Hands a barrier's list over to a collector. Its leaves are run in this thread, and none of them reads an item.
pub fn hand_over<R: Threads + Clock + Sync, C: Collector, H: Gate + Sync>(
    engine: &Engine<'_, R, H>,
    listed: Listed<C::Item>,
    collector: &C,
) -> Result<(C::Acc, RunEntry), NoMemory>
where
    C::Item: Drop,
    requires { C.ready collector.now }
    ensures acc { let made = IsContainerOf C.Item.is_value (C.content collector.now) (C.empty collector.now) (C.add collector.now) in
        IfOk result (λ r. made (map C.Item.content listed.items.items) r.0) }
    ensures entry { let leaves = length (ends_of listed.places) in
        IfOk result (λ r. Reports None leaves (λ _. 0) r.1.leaves (count_of r.1) (cut_of r.1)) }
{
    let Listed { items, places } = listed;
    let gate = engine.run.gate;
    let entry = run_idle(
        engine.rt,
        engine.alloc,
        places.tree(),
        places.leaves(),
        gate,
    )?;
    let acc = fold_owned(collector, items)?;
    Ok((acc, entry))
}

// A list with room for so many items, if it is there.
fn list_for<T: Drop>(alloc: Global, size: Option<u64>) -> Vec<T>
    ensures { result.items ≡ [] }
{
    let mut list = Vec::new(alloc);
    if let Some(number) = size {
        let _refused = list.reserve_exact(number as usize);
    }
    list
}

// A gate that is told of each stretch of a leaf, and asked behind it.
#[derive(Drop)]
struct Stretches<'g, H> {
    gate: &'g H,
}

impl<H: Gate> Pause for Stretches<'_, H> {
    fn goes_on(&self) -> Result<(), NoMemory> {
        self.gate.after_stretch();
        self.gate.goes_on()
    }
}

// Lists all that the leaves of the last run give, one leaf after another in this thread.
fn list_leaves<R, X: Plumbing, H: Gate>(
    engine: &Engine<'_, R, H>,
    stream: &X,
    progress: &X::Progress,
) -> Result<Vec<X::Item>, NoMemory>
    requires stream { X.ready stream.now }
    requires holds { X.holds stream.now progress.now }
    requires done { X.done stream.now progress.now ≡ true }
    ensures listed { IfOk result (λ list. map X.Item.content list.items ≡ joined (X.parts stream.now progress.now)) }
    ensures leaves { X.leaves_next stream.now progress.now ≡ length (X.parts stream.now progress.now) }
{
    let nothing = Nothing::new();
    let gate = engine.run.gate;
    let mut list = list_for::<X::Item>(engine.alloc, stream.known_size());
    let stretches = Stretches { gate };
    gate.goes_on()?;
    gate.before_run(stream.leaves(progress));
    for leaf in 0..stream.leaves(progress) {
        gate.goes_on()?;
        gate.before_leaf(0, leaf);
        let fed = stream.feed_last_leaf(
            engine.alloc,
            &stretches,
            progress,
            &nothing,
            leaf,
            &mut list,
        );
        gate.after_leaf(0, leaf);
        fed?;
    }
    Ok(list)
}

/// Lists all the rest of the stream in this thread, and hands the list over to a collector. The gate is told of each leaf.
pub fn list_over<R: Threads + Clock + Sync, X: Plumbing, C: Collector<Item = X::Item>, H: Gate>(
    engine: &Engine<'_, R, H>,
    stream: &X,
    progress: &X::Progress,
    collector: &C,
) -> Result<(C::Acc, RunEntry), NoMemory>
    requires stream { X.ready stream.now }
    requires collector { C.ready collector.now }
    requires holds { X.holds stream.now progress.now }
    requires done { X.done stream.now progress.now ≡ true }
    ensures acc { let made = IsContainerOf X.Item.is_value (C.content collector.now) (C.empty collector.now) (C.add collector.now) in
        IfOk result (λ r. made (joined (X.parts stream.now progress.now)) r.0) }
    ensures entry { let leaves = length (X.parts stream.now progress.now) in
        IfOk result (λ r. Reports None leaves (λ _. 0) r.1.leaves (count_of r.1) (cut_of r.1)) }
{
    let list = list_leaves(engine, stream, progress)?;
    let tree = stream.tree(progress);
    let entry = run_idle(
        engine.rt,
        engine.alloc,
        tree,
        stream.leaves(progress),
        &NoGate,
    )?;
    let acc = fold_owned(collector, list)?;
    Ok((acc, entry))
}
