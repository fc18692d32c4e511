//! A stateless stage behind a stream.
ghost use Rattle.std.specs.Prelude.{flat_map, map, refl};
ghost use Rattle.parallel_streams.specs.Leaves.{AreThrough};
ghost use Rattle.parallel_streams.specs.LeafLaws.{joined-through, left-through, count-through};
ghost use Rattle.parallel_streams.specs.ReadingLaws.{front-through};
ghost use Rattle.stages.specs.Flags.{after};

use crate::{Engine, Plumbing};
use barriers::{Demand, Need};
use collectors::Collector;
use leaf_board::Handout;
use leaf_reading::{LeafEnd, Patience, Pause, Reading};
use split_tree::Tree;
use spliterator::NoMemory;
use stages::{Sink, Stage, StreamFlags, Then};
use std::alloc::Global;
use stealing_pool::{Gate, RunEntry};

/// A stream's items through a stateless stage.
#[derive(Clone, Copy, Drop)]
pub struct Staged<U, A> {
    pub upstream: U,
    pub stage: A,
}

impl<U: Plumbing, A: Stage<In = U::Item> + Sync> Plumbing for Staged<U, A>
where
    A::Out: Clone + Send + Sync,
{
    type Item = A::Out;

    type Progress = U::Progress;

    type Kept = U::Kept;

    ghost ready = { λ s. U.ready s.upstream × A.ready s.stage };

    ghost value = { λ s. flat_map (A.expand s.stage) (U.value s.upstream) };

    ghost size = { λ s. A.size_after s.stage (U.size s.upstream) };

    ghost told = { λ s. after (U.told s.upstream) (A.operation s.stage) };

    ghost holds = { λ s. U.holds s.upstream };

    ghost left = { λ s p. flat_map (A.expand s.stage) (U.left s.upstream p) };

    ghost behind = { λ s p. flat_map (A.expand s.stage) (U.behind s.upstream p) };

    ghost still = { λ s. U.still s.upstream };

    ghost done = { λ s. U.done s.upstream };

    ghost waiting = { λ s. U.waiting s.upstream };

    ghost front = { λ s n. flat_map (A.expand s.stage) (U.front s.upstream n) };

    ghost decided = { λ s. U.decided s.upstream };

    ghost barred = { λ s. U.barred s.upstream };

    ghost fine = { λ s. U.fine s.upstream };

    ghost read = { λ s. U.read s.upstream };

    ghost reads = { λ s. U.reads s.upstream };

    ghost leaves_next = { λ s. U.leaves_next s.upstream };

    ghost work = { λ s. U.work s.upstream };

    ghost parts = { λ s p. map (flat_map (A.expand s.stage)) (U.parts s.upstream p) };

    ghost leaf_lists = { λ s workers target. AreThrough (U.leaf_lists s.upstream workers target) (A.expand s.stage) };

    ghost planned = { λ s. U.planned s.upstream };

    ghost reported = { λ s. U.reported s.upstream };

    ghost told_so_far = { λ s. U.told_so_far s.upstream };

    ghost flag_law = { λ s. A.flag_law s.stage (U.told s.upstream) (U.size s.upstream) (U.value s.upstream) (U.flag_law s.upstream) };

    ghost work_law = { λ s. U.work_law s.upstream };

    ghost reported_law = { λ s. U.reported_law s.upstream };

    ghost parts_law = { λ s p held done. left-through (A.expand s.stage) (U.parts s.upstream p) (U.left s.upstream p) (U.behind s.upstream p) (U.parts_law s.upstream p held done) };

    ghost read_law = { λ s p from to held done reads. let read = U.read_law s.upstream p from to held done reads in
        (read.0, front-through (A.expand s.stage) (U.parts s.upstream p) (U.front s.upstream from) (U.front s.upstream to) read.1) };

    ghost whole_law = { λ s workers target p held planned done. joined-through (A.expand s.stage) (U.parts s.upstream p) (U.value s.upstream) (U.whole_law s.upstream workers target p held planned done) };

    ghost cut_law = { λ s workers target p held planned done. (U.parts s.upstream p, U.cut_law s.upstream workers target p held planned done, refl) };

    ghost parts_count = { λ s p done. count-through (A.expand s.stage) (U.parts s.upstream p) (U.leaves_next s.upstream p) (U.parts_count s.upstream p done) };

    fn known_size(&self) -> Option<u64> {
        self.stage.size_after(self.upstream.known_size())
    }

    fn flags(&self) -> StreamFlags {
        self.upstream.flags().after(self.stage.operation())
    }

    fn has_barrier(&self) -> bool {
        self.upstream.has_barrier()
    }

    fn growth(&self) -> u64 {
        let growth = self.upstream.growth();
        growth.saturating_mul(self.stage.growth())
    }

    fn start(
        &self,
        alloc: Global,
        workers: u32,
        target: u64,
        most: Option<u64>,
    ) -> Result<U::Progress, NoMemory> {
        self.upstream.start(alloc, workers, target, most)
    }

    fn source_estimate(&self) -> u64 {
        self.upstream.source_estimate()
    }

    fn feed_front<R, H, P: Patience, G: Stage<In = A::Out>, K: Sink<G::Out>>(
        &self,
        engine: &Engine<'_, R, H>,
        patience: &P,
        stage: &G,
        sink: &mut K,
    ) -> Result<Option<U::Progress>, NoMemory> {
        let fused = Then::new(&self.stage, stage);
        self.upstream.feed_front(engine, patience, &fused, sink)
    }

    fn is_last(&self, progress: &U::Progress) -> bool {
        self.upstream.is_last(progress)
    }

    fn go_on(
        &self,
        alloc: Global,
        progress: U::Progress,
        workers: u32,
        target: u64,
        most: u64,
    ) -> Result<U::Progress, NoMemory> {
        self.upstream.go_on(alloc, progress, workers, target, most)
    }

    fn longest_list(&self, progress: &U::Progress) -> u64 {
        self.upstream.longest_list(progress)
    }

    fn is_through(&self, progress: &U::Progress) -> bool {
        self.upstream.is_through(progress)
    }

    fn leaves(&self, progress: &U::Progress) -> usize {
        self.upstream.leaves(progress)
    }

    fn tree<'p>(&self, progress: &'p U::Progress) -> &'p Tree {
        self.upstream.tree(progress)
    }

    fn need(&self, progress: &U::Progress) -> Need {
        self.upstream.need(progress)
    }

    fn run_barrier_leaf<L: Handout>(
        &self,
        alloc: Global,
        progress: &U::Progress,
        board: &L,
        seat: &mut L::Seat,
        leaf: usize,
    ) -> Result<LeafEnd<U::Kept>, NoMemory> {
        self.upstream
            .run_barrier_leaf(alloc, progress, board, seat, leaf)
    }

    fn combine(
        &self,
        alloc: Global,
        progress: &U::Progress,
        kept: &mut U::Kept,
        following: U::Kept,
    ) -> Result<(), NoMemory> {
        self.upstream.combine(alloc, progress, kept, following)
    }

    fn make_list<R, H: Gate>(
        &self,
        engine: &Engine<'_, R, H>,
        progress: U::Progress,
        part: U::Kept,
        entry: &RunEntry,
    ) -> Result<U::Progress, NoMemory> {
        self.upstream.make_list(engine, progress, part, entry)
    }

    fn feed_last_leaf<P: Pause, G: Stage<In = A::Out>, K: Sink<G::Out>>(
        &self,
        alloc: Global,
        pause: &P,
        progress: &U::Progress,
        stage: &G,
        leaf: usize,
        sink: &mut K,
    ) -> Result<(), NoMemory> {
        let fused = Then::new(&self.stage, stage);
        self.upstream
            .feed_last_leaf(alloc, pause, progress, &fused, leaf, sink)
    }

    fn run_last_leaf<
        G: Stage<In = A::Out>,
        D: Demand<G::Out>,
        C: Collector<Item = G::Out>,
        L: Handout,
    >(
        &self,
        alloc: Global,
        progress: &U::Progress,
        reading: &Reading<'_, G, D, C>,
        board: &L,
        seat: &mut L::Seat,
        leaf: usize,
    ) -> Result<LeafEnd<C::Acc>, NoMemory> {
        let fused = Then::new(&self.stage, reading.stage);
        let reading = Reading {
            stage: &fused,
            demand: reading.demand,
            collector: reading.collector,
        };
        self.upstream
            .run_last_leaf(alloc, progress, &reading, board, seat, leaf)
    }
}
