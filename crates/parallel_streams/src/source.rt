//! A stream over a source.
ghost use Rattle.std.specs.Prelude.{◌≡◌, ◌≢◌, ◌≤◌, ◌+◌, ◌*◌, ◌++◌, ◌^◌, true, false, map, max, length, flat_map, take, IfOk, Option, None, Some, IsTrue, [], ℕ, ◌<◌, refl, ⊤};
ghost use Rattle.spliterator.specs.Characteristics.{tells_sized};
ghost use Rattle.split_tree.specs.Plan.{leaves_of, tree_of};
ghost use Rattle.parallel_streams.specs.Leaves.{ArePlanned};
ghost use Rattle.parallel_streams.specs.Reading.{Each, SplitsFinely, first_segment};
ghost use Rattle.parallel_streams.specs.Runs.{IsLawfulRun};
ghost use Rattle.parallel_streams.specs.Sources.{items_behind, weight_behind};

use crate::{Engine, Plumbing};
use barriers::{Demand, Need};
use collectors::Collector;
use leaf_board::Handout;
use leaf_reading::{LeafEnd, Patience, Pause, Portion, Reading, feed_front, feed_whole, read_leaf};
use sources::RowsSplit;
use split_tree::{Plan, PlanError, Tree};
use spliterator::{NoMemory, Spliterator};
use stages::{Sink, Stage, StreamFlags};
use std::alloc::Global;
use stealing_pool::{Gate, RunEntry};

/// The items of a source.
#[derive(Clone, Copy, Drop)]
pub struct Source<S> {
    split: S,
}

/// The stream of a source's items. Nothing is read before a terminal operation.
///
/// ```text
/// let numbers = of(RangeSplit::range(0, 10)?);
/// ```
// java.util.stream.StreamSupport, stream
pub fn of<S: Spliterator>(split: S) -> Source<S>
    ensures { result.split ≡ split }
{
    Source { split }
}

/// The stream of a slice's items of any type, each lent as a row. Nothing is asked of the type, and nothing is cloned.
///
/// ```text
/// let dear = rows(&orders).filter(such(CostsMore(1000), |o: &Row<Order>| o.0.cents > 1000));
/// ```
// java.util.Arrays, stream
pub fn rows<'a, T>(items: &'a [T]) -> Source<RowsSplit<'a, T>>
    ensures { ⟦<RowsSplit<'a, T> as Spliterator>⟧.items result.split ≡ items.now }
{
    of(RowsSplit::new(items))
}

/// The most items of the first segment. Those behind it grow by what was read.
pub const FIRST: u64 = 1 << 12;

/// How far a source has come: the present segment, cut into leaves, and the parts of the source behind it, of which the last stands
/// next. And how many items the segments up to the present one have, where that is known.
#[derive(Drop)]
pub struct SourceProgress<S> {
    plan: Plan<S>,
    rest: Vec<S>,
    read: Option<u64>,
}

// How many items were read with a segment, where that is known.
fn read_with<S: Spliterator>(read: Option<u64>, segment: &S) -> Option<u64>
    ensures { let size = S.estimate segment.now in
        (n : ℕ) → IsTrue (tells_sized (S.told segment.now)) → read ≡ Some n → n + size < 2 ^ 64
        → result ≡ Some (n + size) }
{
    Some(read?.saturating_add(segment.exact_size()?))
}

// The most items of a segment, where so many were read: at most twice as many, or as many as the first may have.
fn most_behind(read: Option<u64>, most: u64) -> u64
    ensures { (n : ℕ) → read ≡ Some n → result ≤ max (2 * n) first_segment }
{
    match read {
        Some(number) => most.min(number.saturating_mul(2).max(FIRST)),
        None => most,
    }
}

// Splits a source until its front is estimated at most `most` items, or doesn't split. What stands behind that front is put on the parts.
fn split_front<S: Spliterator>(source: S, most: u64, rest: &mut Vec<S>) -> Result<S, NoMemory>
    ensures items { let behind = items_behind S.items in
        IfOk result (λ front. S.items front ++ behind rest.new.items ≡ S.items source ++ behind rest.old.items) }
    ensures weight { let behind = weight_behind S.weight in
        IfOk result (λ front. 2 ^ S.weight front + behind rest.new.items ≤ 2 ^ S.weight source + behind rest.old.items) }
    ensures fine { let fine = SplitsFinely S.estimate S.told S.split_gives in
        fine source → Each fine rest.old.items → IfOk result (λ front. fine front × Each fine rest.new.items) }
    ensures short { let fine = SplitsFinely S.estimate S.told S.split_gives in
        fine source → IfOk result (λ front. S.estimate front ≤ max most first_segment) }
{
    let mut front = source;
    while front.estimate_size() > most {
        let mut behind = front;
        let Some(part) = behind.try_split() else {
            return Ok(front);
        };
        rest.push(behind)?;
        front = part;
    }
    Ok(front)
}

// The first segment: all of the source, where no number bounds it.
fn first_of<S: Spliterator>(source: S, most: Option<u64>, rest: &mut Vec<S>) -> Result<S, NoMemory>
    ensures items { let behind = items_behind S.items in
        IfOk result (λ front. S.items front ++ behind rest.new.items ≡ S.items source ++ behind rest.old.items) }
    ensures whole { most ≡ None → IfOk result (λ front. front ≡ source) }
    ensures alone { most ≡ None → rest.new ≡ rest.old }
    ensures fine { let fine = SplitsFinely S.estimate S.told S.split_gives in
        fine source → Each fine rest.old.items → IfOk result (λ front. fine front × Each fine rest.new.items) }
    ensures short { let fine = SplitsFinely S.estimate S.told S.split_gives in
        fine source → most ≢ None → IfOk result (λ front. S.estimate front ≤ first_segment) }
{
    let Some(most) = most else {
        return Ok(source);
    };
    split_front(source, most.min(FIRST), rest)
}

// A segment cut into leaves.
fn plan_segment<S: Spliterator>(
    alloc: Global,
    segment: S,
    workers: u32,
    target: u64,
) -> Result<Plan<S>, NoMemory>
    requires { IsLawfulRun workers target }
    ensures items { IfOk result (λ plan. flat_map S.items (leaves_of plan) ≡ S.items segment) }
    ensures planned { let are = ArePlanned S.estimate S.split_gives segment workers target in
        IfOk result (λ plan. are (tree_of plan) (leaves_of plan)) }
{
    match Plan::make(alloc, segment, workers, target) {
        Ok(plan) => Ok(plan),
        Err(PlanError::NoMemory) => Err(NoMemory),
        Err(PlanError::BadTarget) => unreachable!(),
    }
}

impl<S: Spliterator + Drop + Send + Sync> Plumbing for Source<S>
where
    S::Item: Clone + Send + Sync,
{
    ghost use Rattle.parallel_streams.specs.Leaves.{IsCutSource};
    ghost use Rattle.parallel_streams.specs.LeafCutLaws.{cut-leaves};
    ghost use Rattle.parallel_streams.specs.Sources.{source_size, source_flags, idle_work, IsSound-source};
    ghost use Rattle.parallel_streams.specs.LeafLaws.{joined-leaves, leaves-behind, count-leaves};
    ghost use Rattle.parallel_streams.specs.Reading.{HasRead, HasReadFrom};
    ghost use Rattle.parallel_streams.specs.ReadingLaws.{leaves-read};

    type Item = S::Item;

    type Progress = SourceProgress<S>;

    type Kept = ();

    ghost value = { λ s. S.items s.split };

    ghost size = { λ s. source_size (S.told s.split) (S.estimate s.split) };

    ghost told = { λ s. source_flags (S.told s.split) };

    ghost holds = { λ _ _. ⊤ };

    ghost left = { λ _ p. flat_map S.items (leaves_of p.plan) ++ items_behind S.items p.rest.items };

    ghost behind = { λ _ p. items_behind S.items p.rest.items };

    ghost still = { λ _ p. weight_behind S.weight p.rest.items };

    ghost done = { λ _ _. true };

    ghost waiting = { λ _ _. 0 };

    ghost front = { λ s n. take n (S.items s.split) };

    ghost decided = { λ _ _. ⊥ };

    ghost barred = { λ _. false };

    ghost fine = { λ s. SplitsFinely S.estimate S.told S.split_gives s.split };

    ghost read = { λ s p. let fine = SplitsFinely S.estimate S.told S.split_gives in
        HasRead fine s.split (S.items s.split) (items_behind S.items p.rest.items) p.rest.items p.read };

    ghost reads = { λ s p. let fine = SplitsFinely S.estimate S.told S.split_gives in
        let segment = flat_map S.items (leaves_of p.plan) in
        HasReadFrom fine s.split (S.items s.split) segment (items_behind S.items p.rest.items) p.rest.items p.read };

    ghost leaves_next = { λ _ p. length (leaves_of p.plan) };

    ghost work = { λ _ p. idle_work (length (leaves_of p.plan)) };

    ghost parts = { λ _ p. map S.items (leaves_of p.plan) };

    ghost leaf_lists = { λ s. IsCutSource S.items S.estimate S.split_gives s.split };

    ghost planned = { λ s workers target p. ArePlanned S.estimate S.split_gives s.split workers target (tree_of p.plan) (leaves_of p.plan)
        × (flat_map S.items (leaves_of p.plan) ≡ S.items s.split) };

    ghost reported = { λ _ _ _ entries. entries ≡ [] };

    ghost told_so_far = { λ _ _ _ _ entries. entries ≡ [] };

    ghost flag_law = { λ s. IsSound-source S.Item.order (S.told s.split) (S.estimate s.split) (S.items s.split) (S.size_law s.split) (S.flag_law s.split) };

    ghost work_law = { λ s p h. refl };

    ghost reported_law = { λ s workers target p entries done told. told };

    ghost parts_law = { λ s p held done. leaves-behind S.items (leaves_of p.plan) (items_behind S.items p.rest.items) };

    ghost read_law = { λ s p from to held done reads.
        let fine = SplitsFinely S.estimate S.told S.split_gives in
        leaves-read fine s.split S.items (leaves_of p.plan) (items_behind S.items p.rest.items) p.rest.items p.read from to reads };

    ghost whole_law = { λ s workers target p held planned done. joined-leaves S.items (S.items s.split) (leaves_of p.plan) planned.1 };

    ghost cut_law = { λ s workers target p held planned done. cut-leaves S.items S.estimate S.split_gives s.split workers target (tree_of p.plan) (leaves_of p.plan) planned.0 };

    ghost parts_count = { λ s p done. count-leaves S.items (leaves_of p.plan) };

    fn known_size(&self) -> Option<u64> {
        self.split.exact_size()
    }

    fn flags(&self) -> StreamFlags {
        StreamFlags::of(self.split.characteristics())
    }

    fn has_barrier(&self) -> bool {
        false
    }

    fn start(
        &self,
        alloc: Global,
        workers: u32,
        target: u64,
        most: Option<u64>,
    ) -> Result<SourceProgress<S>, NoMemory> {
        let mut rest = Vec::new(alloc);
        let first = first_of(self.split, most, &mut rest)?;
        let read = read_with(Some(0), &first);
        let plan = plan_segment(alloc, first, workers, target)?;
        Ok(SourceProgress { plan, rest, read })
    }

    fn source_estimate(&self) -> u64 {
        self.split.estimate_size()
    }

    fn feed_front<R, H, P: Patience, G: Stage<In = S::Item>, K: Sink<G::Out>>(
        &self,
        engine: &Engine<'_, R, H>,
        patience: &P,
        stage: &G,
        sink: &mut K,
    ) -> Result<Option<SourceProgress<S>>, NoMemory> {
        let mut source = self.split;
        if !feed_front(engine.alloc, patience, stage, &mut source, sink)? {
            return Ok(None);
        }
        let plan = plan_segment(engine.alloc, source, engine.run.workers, engine.run.target)?;
        Ok(Some(SourceProgress {
            plan,
            rest: Vec::new(engine.alloc),
            read: None,
        }))
    }

    fn is_last(&self, progress: &SourceProgress<S>) -> bool {
        progress.rest.is_empty()
    }

    fn go_on(
        &self,
        alloc: Global,
        progress: SourceProgress<S>,
        workers: u32,
        target: u64,
        most: u64,
    ) -> Result<SourceProgress<S>, NoMemory> {
        let mut rest = progress.rest;
        let Some(next) = rest.pop() else {
            unreachable!()
        };
        let first = split_front(next, most_behind(progress.read, most), &mut rest)?;
        let read = read_with(progress.read, &first);
        let plan = plan_segment(alloc, first, workers, target)?;
        Ok(SourceProgress { plan, rest, read })
    }

    fn is_through(&self, _progress: &SourceProgress<S>) -> bool {
        true
    }

    fn leaves(&self, progress: &SourceProgress<S>) -> usize {
        progress.plan.leaves()
    }

    fn tree<'p>(&self, progress: &'p SourceProgress<S>) -> &'p Tree {
        // The number promises that the leaves are few.
        let _few = progress.plan.leaves();
        progress.plan.tree()
    }

    // No barrier needs anything, no leaf is run for one, and there is nothing to gather.
    fn need(&self, _progress: &SourceProgress<S>) -> Need {
        Need::Never
    }

    fn run_barrier_leaf<L: Handout>(
        &self,
        _alloc: Global,
        _progress: &SourceProgress<S>,
        _board: &L,
        _seat: &mut L::Seat,
        _leaf: usize,
    ) -> Result<LeafEnd<()>, NoMemory> {
        Ok(LeafEnd::Done(Portion { count: 0, kept: () }))
    }

    fn combine(
        &self,
        _alloc: Global,
        _progress: &SourceProgress<S>,
        _kept: &mut (),
        _following: (),
    ) -> Result<(), NoMemory> {
        Ok(())
    }

    fn make_list<R, H: Gate>(
        &self,
        _engine: &Engine<'_, R, H>,
        progress: SourceProgress<S>,
        _part: (),
        _entry: &RunEntry,
    ) -> Result<SourceProgress<S>, NoMemory> {
        Ok(progress)
    }

    fn feed_last_leaf<P: Pause, G: Stage<In = S::Item>, K: Sink<G::Out>>(
        &self,
        alloc: Global,
        pause: &P,
        progress: &SourceProgress<S>,
        stage: &G,
        leaf: usize,
        sink: &mut K,
    ) -> Result<(), NoMemory> {
        feed_whole(alloc, pause, stage, progress.plan.leaf(leaf), sink)
    }

    fn run_last_leaf<
        G: Stage<In = S::Item>,
        D: Demand<G::Out>,
        C: Collector<Item = G::Out>,
        L: Handout,
    >(
        &self,
        alloc: Global,
        progress: &SourceProgress<S>,
        reading: &Reading<'_, G, D, C>,
        board: &L,
        seat: &mut L::Seat,
        leaf: usize,
    ) -> Result<LeafEnd<C::Acc>, NoMemory> {
        read_leaf(alloc, progress.plan.leaf(leaf), reading, board, seat, leaf)
    }
}
