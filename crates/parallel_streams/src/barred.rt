//! A barrier behind a stream.
ghost use Rattle.spliterator.specs.Clones.{ClonesAlike};
ghost use Rattle.parallel_streams.specs.Leaves.{IsCutList};
ghost use Rattle.parallel_streams.specs.Reports.{IsBarrierReport};
ghost use Rattle.stages.specs.Flags.{after};

use crate::carry::list_kept;
use crate::kept::{BarredProgress, Kept, Listed, end_before, end_own};
use crate::{Engine, Plumbing};
use barriers::{Barrier, Behind, Demand, Need};
use collectors::{Collector, ToList};
use leaf_board::Handout;
use leaf_reading::{LeafEnd, Pause, Reading, feed_whole, read_leaf};
use sources::SliceSplit;
use split_tree::Tree;
use spliterator::{NoMemory, OrderedValue};
use stages::{Nothing, Sink, Stage, StreamFlags};
use std::alloc::Global;
use stealing_pool::{Gate, RunEntry};

/// A stream's items through a barrier. A clone of an item must have the item's content: that is part of what the stream relies on.
///
/// The type asks nothing of the stream before it, since a bound here would bind that stream's lifetimes in every call of a stream that borrows.
#[derive(Clone, Copy, Drop)]
pub struct Barred<U, B> {
    pub upstream: U,
    pub barrier: B,
}

impl<U: Plumbing, B: Barrier<U::Item> + Sync> Plumbing for Barred<U, B>
where
    B::State: Send + Sync,
{
    ghost use Rattle.std.specs.Prelude.{◌⊎◌, true};
    ghost use Rattle.barriers.specs.Needs.{IsEnough};
    ghost use Rattle.parallel_streams.specs.Reading.{ReadsBarred, StandsBehind};
    ghost use Rattle.parallel_streams.specs.ReadingLaws.{read-barred};
    ghost use Rattle.parallel_streams.specs.Progress.{HoldsBarred, IsPlannedBarred, ToldSoFar, is_ready, left_of, waiting_of, next_leaves, parts_of, own_work, barred_work};
    ghost use Rattle.parallel_streams.specs.ProgressLaws.{barred-leaves, left-parts_of, joined-parts_of, cut-parts_of, count-parts_of, told-all};

    type Item = U::Item;

    type Progress = BarredProgress<U::Progress, B::State, U::Item>;

    type Kept = Kept<U::Kept, U::Item>;

    ghost ready = { λ s. U.ready s.upstream × B.Demand.ready s.barrier × B.can_carry s.barrier × ClonesAlike U.Item.is_clone U.Item.content };

    ghost value = { λ s. B.value s.barrier (U.value s.upstream) };

    ghost size = { λ s. B.size_after s.barrier (U.size s.upstream) };

    ghost told = { λ s. after (U.told s.upstream) (B.operation s.barrier) };

    ghost holds = { λ s. HoldsBarred (U.holds s.upstream) (B.value_behind s.barrier) };

    ghost left = { λ s p. left_of U.Item.content (B.value_behind s.barrier p.state) (U.left s.upstream p.before) (U.behind s.upstream p.before) p.listed };

    ghost behind = { λ s p. B.value_behind s.barrier p.state (U.behind s.upstream p.before) };

    ghost still = { λ s p. U.still s.upstream p.before };

    ghost done = { λ s p. is_ready p.passes (U.done s.upstream p.before) p.listed };

    ghost waiting = { λ s p. waiting_of (U.waiting s.upstream p.before) p.listed };

    ghost front = { λ s n. B.value s.barrier (U.front s.upstream n) };

    ghost decided = { λ s n. U.decided s.upstream n ⊎ IsEnough (B.Demand.needed s.barrier) (B.Demand.counted s.barrier) (U.front s.upstream n) };

    ghost barred = { λ _. true };

    ghost fine = { λ s. U.fine s.upstream };

    ghost read = { λ s p n. let stands = StandsBehind (B.Demand.needed s.barrier) (B.Demand.counted s.barrier) (B.value s.barrier) in
        U.read s.upstream p.before n
        × stands (B.needed_behind s.barrier p.state) (B.value_behind s.barrier p.state) (U.front s.upstream n) };

    ghost reads = { λ s p from to. let stands = StandsBehind (B.Demand.needed s.barrier) (B.Demand.counted s.barrier) (B.value s.barrier) in
        let behind = stands (B.needed_behind s.barrier p.state) (B.value_behind s.barrier p.state) in
        let reads = ReadsBarred (U.reads s.upstream p.before from to) (U.read s.upstream p.before to) behind (B.value s.barrier) in
        reads (U.front s.upstream from) (U.front s.upstream to) U.Item.content (B.needed_behind s.barrier p.state) p.passes p.listed };

    ghost leaves_next = { λ s p. next_leaves (U.leaves_next s.upstream p.before) p.listed };

    ghost work = { λ s p. let own = own_work (B.needed_behind s.barrier p.state) (B.Demand.counted s.barrier) U.Item.is_value U.Item.content (B.value_behind s.barrier p.state) in
        barred_work (U.done s.upstream p.before) (U.work s.upstream p.before) (own (U.parts s.upstream p.before)) };

    ghost parts = { λ s p. parts_of U.Item.content (U.parts s.upstream p.before) p.listed };

    ghost leaf_lists = { λ s. IsCutList (B.value s.barrier (U.value s.upstream)) };

    ghost planned = { λ s workers target p.
        let before = IsPlannedBarred (U.planned s.upstream workers target) U.Item.content in
        let fresh = before (B.Demand.needed s.barrier) (B.needed_behind s.barrier) (B.value s.barrier) (B.value_behind s.barrier) in
        fresh (U.value s.upstream) workers target p };

    ghost reported = { λ s. let until = IsBarrierReport (U.leaf_lists s.upstream) (U.value s.upstream) (U.reported s.upstream) in
        until (B.Demand.needed s.barrier) (B.Demand.counted s.barrier) (B.value s.barrier) };

    ghost told_so_far = { λ s workers target p.
        let until = IsBarrierReport (U.leaf_lists s.upstream) (U.value s.upstream) (U.reported s.upstream) in
        let all = until (B.Demand.needed s.barrier) (B.Demand.counted s.barrier) (B.value s.barrier) workers target in
        ToldSoFar p.passes (U.told_so_far s.upstream workers target p.before) all p.listed };

    ghost flag_law = { λ s. B.flag_law s.barrier (U.told s.upstream) (U.size s.upstream) (U.value s.upstream) (U.flag_law s.upstream) };

    ghost work_law = { λ s p unrun.
        let own = own_work (B.needed_behind s.barrier p.state) (B.Demand.counted s.barrier) U.Item.is_value U.Item.content (B.value_behind s.barrier p.state) in
        let leaves = barred-leaves p.passes (U.done s.upstream p.before) (U.work s.upstream p.before) (own (U.parts s.upstream p.before)) in
        leaves (U.leaves_next s.upstream p.before) p.listed unrun (U.work_law s.upstream p.before) (U.parts_count s.upstream p.before) };

    ghost reported_law = { λ s workers target p entries done told.
        let until = IsBarrierReport (U.leaf_lists s.upstream) (U.value s.upstream) (U.reported s.upstream) in
        let all = until (B.Demand.needed s.barrier) (B.Demand.counted s.barrier) (B.value s.barrier) workers target in
        told-all p.passes (U.done s.upstream p.before) (U.told_so_far s.upstream workers target p.before) all p.listed entries done told };

    ghost parts_law = { λ s p held done.
        let left = left-parts_of U.Item.content (B.value_behind s.barrier p.state) (U.left s.upstream p.before) (U.behind s.upstream p.before) in
        left (U.parts s.upstream p.before) p.passes (U.done s.upstream p.before) p.listed held.1 held.2 done (U.parts_law s.upstream p.before held.0) };

    ghost read_law = { λ s p from to held done reads.
        let read = read-barred (B.Demand.needed s.barrier) (B.Demand.counted s.barrier) (B.value s.barrier) (U.reads s.upstream p.before from to) in
        let now = read (U.read s.upstream p.before to) U.Item.content (B.needed_behind s.barrier p.state) (B.value_behind s.barrier p.state) p.passes in
        let all = now (U.done s.upstream p.before) (U.front s.upstream from) (U.front s.upstream to) (U.parts s.upstream p.before) p.listed held.1 held.2 done reads in
        let is = all (U.read_law s.upstream p.before from to held.0) in
        ((is.0, is.1), is.2) };

    ghost whole_law = { λ s workers target p held planned done.
        let joined = joined-parts_of U.Item.content (B.Demand.needed s.barrier) (B.needed_behind s.barrier p.state) in
        let value = joined (B.value s.barrier) (B.value_behind s.barrier p.state) (U.value s.upstream) workers target p.passes in
        value (U.done s.upstream p.before) (U.parts s.upstream p.before) p.listed held.1 planned.1 done };

    ghost cut_law = { λ s workers target p held planned done.
        let cut = cut-parts_of U.Item.content (B.Demand.needed s.barrier) (B.needed_behind s.barrier p.state) in
        let value = cut (B.value s.barrier) (B.value_behind s.barrier p.state) (U.value s.upstream) workers target p.passes in
        value (U.done s.upstream p.before) (U.parts s.upstream p.before) p.listed held.1 planned.1 done };

    ghost parts_count = { λ s p done.
        let count = count-parts_of U.Item.content (U.leaves_next s.upstream p.before) (U.parts s.upstream p.before) in
        count p.passes (U.done s.upstream p.before) p.listed done (U.parts_count s.upstream p.before) };

    fn known_size(&self) -> Option<u64> {
        self.barrier.size_after(self.upstream.known_size())
    }

    fn flags(&self) -> StreamFlags {
        self.upstream.flags().after(self.barrier.operation())
    }

    fn has_barrier(&self) -> bool {
        true
    }

    fn growth(&self) -> u64 {
        self.upstream.growth()
    }

    // The first segment is listed, also where the barrier lets it pass: so all runs of a report are there.
    fn start(
        &self,
        alloc: Global,
        workers: u32,
        target: u64,
        most: Option<u64>,
    ) -> Result<BarredProgress<U::Progress, B::State, U::Item>, NoMemory> {
        let before = self.upstream.start(alloc, workers, target, most)?;
        let state = self.barrier.fresh(alloc);
        Ok(BarredProgress {
            before,
            state,
            listed: None,
            passes: false,
            longest_list: 0,
        })
    }

    fn source_estimate(&self) -> u64 {
        self.upstream.source_estimate()
    }

    fn is_last(&self, progress: &BarredProgress<U::Progress, B::State, U::Item>) -> bool {
        self.upstream.is_last(&progress.before) || self.barrier.is_over(&progress.state)
    }

    fn go_on(
        &self,
        alloc: Global,
        progress: BarredProgress<U::Progress, B::State, U::Item>,
        workers: u32,
        target: u64,
        most: u64,
    ) -> Result<BarredProgress<U::Progress, B::State, U::Item>, NoMemory> {
        let BarredProgress { before, state, .. } = progress;
        let before = self.upstream.go_on(alloc, before, workers, target, most)?;
        let passes = self.barrier.lets_pass(&state);
        Ok(BarredProgress {
            before,
            state,
            listed: None,
            passes,
            longest_list: 0,
        })
    }

    fn longest_list(&self, progress: &BarredProgress<U::Progress, B::State, U::Item>) -> u64 {
        self.upstream
            .longest_list(&progress.before)
            .max(progress.longest_list)
    }

    fn is_through(&self, progress: &BarredProgress<U::Progress, B::State, U::Item>) -> bool {
        match &progress.listed {
            Some(_) => true,
            None => progress.passes && self.upstream.is_through(&progress.before),
        }
    }

    fn leaves(&self, progress: &BarredProgress<U::Progress, B::State, U::Item>) -> usize {
        match &progress.listed {
            Some(listed) => listed.places.leaves(),
            None => self.upstream.leaves(&progress.before),
        }
    }

    fn tree<'p>(&self, progress: &'p BarredProgress<U::Progress, B::State, U::Item>) -> &'p Tree {
        match &progress.listed {
            Some(listed) => listed.places.tree(),
            None => self.upstream.tree(&progress.before),
        }
    }

    fn need(&self, progress: &BarredProgress<U::Progress, B::State, U::Item>) -> Need {
        if self.upstream.is_through(&progress.before) {
            self.barrier.need_behind(&progress.state)
        } else {
            self.upstream.need(&progress.before)
        }
    }

    fn run_barrier_leaf<L: Handout>(
        &self,
        alloc: Global,
        progress: &BarredProgress<U::Progress, B::State, U::Item>,
        board: &L,
        seat: &mut L::Seat,
        leaf: usize,
    ) -> Result<LeafEnd<Kept<U::Kept, U::Item>>, NoMemory> {
        if self.upstream.is_through(&progress.before) {
            let demand = Behind {
                barrier: &self.barrier,
                state: &progress.state,
            };
            let reading = Reading {
                stage: &Nothing::in_blocks(),
                demand: &demand,
                collector: &ToList::new(alloc),
            };
            let end = self
                .upstream
                .run_last_leaf(alloc, &progress.before, &reading, board, seat, leaf);
            end_own(&self.barrier, &progress.state, end)
        } else {
            end_before(
                self.upstream
                    .run_barrier_leaf(alloc, &progress.before, board, seat, leaf),
            )
        }
    }

    // A run keeps parts of one kind, so that a mixture stands for no leaves.
    fn combine(
        &self,
        alloc: Global,
        progress: &BarredProgress<U::Progress, B::State, U::Item>,
        kept: &mut Kept<U::Kept, U::Item>,
        following: Kept<U::Kept, U::Item>,
    ) -> Result<(), NoMemory> {
        match kept {
            Kept::Before(kept) => match following {
                Kept::Before(following) => {
                    self.upstream
                        .combine(alloc, &progress.before, kept, following)
                }
                Kept::Own(_following) => Ok(()),
            },
            Kept::Own(kept) => match following {
                Kept::Before(_following) => Ok(()),
                Kept::Own(following) => Ok(kept.join(following)?),
            },
        }
    }

    fn make_list<R, H: Gate>(
        &self,
        engine: &Engine<'_, R, H>,
        progress: BarredProgress<U::Progress, B::State, U::Item>,
        part: Kept<U::Kept, U::Item>,
        entry: &RunEntry,
    ) -> Result<BarredProgress<U::Progress, B::State, U::Item>, NoMemory> {
        let BarredProgress {
            before,
            mut state,
            passes,
            longest_list,
            ..
        } = progress;
        match part {
            Kept::Before(part) => {
                let before = self.upstream.make_list(engine, before, part, entry)?;
                Ok(BarredProgress {
                    before,
                    state,
                    listed: None,
                    passes,
                    longest_list,
                })
            }
            Kept::Own(pieces) => {
                let is_cut = entry.cut().is_some();
                let (listed, longest_list) = list_kept(
                    engine,
                    &self.barrier,
                    &mut state,
                    pieces,
                    is_cut,
                )?;
                Ok(BarredProgress {
                    before,
                    state,
                    listed: Some(listed),
                    passes: false,
                    longest_list,
                })
            }
        }
    }

    fn take_listed(
        &self,
        progress: &mut BarredProgress<U::Progress, B::State, U::Item>,
    ) -> Option<Listed<U::Item>> {
        progress.listed.take()
    }

    fn feed_last_leaf<P: Pause, G: Stage<In = U::Item>, K: Sink<G::Out>>(
        &self,
        alloc: Global,
        pause: &P,
        progress: &BarredProgress<U::Progress, B::State, U::Item>,
        stage: &G,
        leaf: usize,
        sink: &mut K,
    ) -> Result<(), NoMemory> {
        match &progress.listed {
            Some(listed) => {
                let items = listed.places.part(&listed.items, leaf);
                feed_whole(alloc, pause, stage, SliceSplit::new(items), sink)
            }
            None => self
                .upstream
                .feed_last_leaf(alloc, pause, &progress.before, stage, leaf, sink),
        }
    }

    fn run_last_leaf<
        G: Stage<In = U::Item>,
        D: Demand<G::Out>,
        C: Collector<Item = G::Out>,
        L: Handout,
    >(
        &self,
        alloc: Global,
        progress: &BarredProgress<U::Progress, B::State, U::Item>,
        reading: &Reading<'_, G, D, C>,
        board: &L,
        seat: &mut L::Seat,
        leaf: usize,
    ) -> Result<LeafEnd<C::Acc>, NoMemory> {
        match &progress.listed {
            Some(listed) => {
                let items = listed.places.part(&listed.items, leaf);
                read_leaf(alloc, SliceSplit::new(items), reading, board, seat, leaf)
            }
            None => self
                .upstream
                .run_last_leaf(alloc, &progress.before, reading, board, seat, leaf),
        }
    }
}
