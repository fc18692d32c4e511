//! A run of a plan's leaves through a stage into a collector.
ghost use Rattle.std.specs.Prelude.{◌<◌, ◌≤◌, IfOk, flat_map, length};
ghost use Rattle.leaf_board.specs.Closing.{cut_of, count_of};
ghost use Rattle.split_tree.specs.Plan.{leaves_of};
ghost use Rattle.leaf_reading.specs.Fronts.{folding, IsFront};
ghost use Rattle.stealing_pool.specs.Spans.{lists_of, full_count, work_of};
ghost use Rattle.stealing_pool.specs.Reports.{Reports};

use crate::gate::Gate;
use crate::job::LeafJob;
use crate::job_run::{Gathered, run_job};
use barriers::{Demand, Need};
use collectors::{Collector, combine_containers};
use leaf_board::Handout;
use leaf_reading::{LeafEnd, Reading, read_leaf};
use split_tree::Plan;
use spliterator::{NoMemory, Spliterator};
use stages::Stage;
use std::alloc::Global;
use std::thread::Threads;

/// The job of a plan's leaves: each through the stage into a container of its own.
#[derive(Drop)]
struct PlanJob<'a, S, G, D, C> {
    alloc: Global,
    plan: &'a Plan<S>,
    reading: Reading<'a, G, D, C>,
}

impl<S: Spliterator, G: Stage<In = S::Item>, D: Demand<G::Out>, C: Collector<Item = G::Out>> LeafJob
    for PlanJob<'_, S, G, D, C> {
    type Kept = C::Acc;

    ghost ready = { λ j. G.ready j.reading.stage.now × D.ready j.reading.demand.now × C.ready j.reading.collector.now };

    ghost work = { λ j. let needs = folding (D.needed j.reading.demand.now) (D.counted j.reading.demand.now) G.Out.is_value in
        let fold = needs (C.empty j.reading.collector.now) (C.add j.reading.collector.now) in
        let lists = lists_of S.items (G.expand j.reading.stage.now) (leaves_of j.plan.now) in
        work_of fold (C.content j.reading.collector.now) lists };

    fn leaves(&self) -> usize {
        self.plan.leaves()
    }

    fn need(&self) -> Need {
        self.reading.demand.need()
    }

    fn run_leaf<B: Handout>(
        &self,
        board: &B,
        seat: &mut B::Seat,
        leaf: usize,
    ) -> Result<LeafEnd<C::Acc>, NoMemory> {
        let source = self.plan.leaf(leaf);
        read_leaf(self.alloc, source, &self.reading, board, seat, leaf)
    }

    fn combine(&self, left: &mut C::Acc, right: C::Acc) -> Result<(), NoMemory> {
        combine_containers(self.reading.collector, left, right)
    }

    fn is_light(&self, kept: &C::Acc) -> bool {
        self.reading.collector.is_light(kept)
    }
}

/// Runs the leaves of a plan through a stage into a collector's containers, on at most as many workers as there are leaves, and
/// combines the containers in encounter order.
///
/// `workers` is 1 to 64. The container is the collector's left fold over a front of the stage's list that is all of it or is
/// enough for the demand. The answer is `NoMemory` where any worker was refused memory.
pub fn run_leaves<
    R: Threads + Sync,
    S: Spliterator + Sync,
    G: Stage<In = S::Item> + Sync,
    D: Demand<G::Out> + Sync,
    C: Collector<Item = G::Out> + Sync,
    H: Gate + Sync,
>(
    rt: &R,
    alloc: Global,
    plan: &Plan<S>,
    stage: &G,
    demand: &D,
    collector: &C,
    workers: u32,
    gate: &H,
) -> Result<Gathered<C::Acc>, NoMemory>
where
    S::Item: Send,
    G::Out: Send,
    C::Acc: Send,
    C::Out: Send,
    requires stage { G.ready stage.now }
    requires demand { D.ready demand.now }
    requires collector { C.ready collector.now }
    requires workers { (0 < workers) × (workers ≤ 64) }
    ensures front { IfOk result (λ g. IsFront (folding (D.needed demand.now) (D.counted demand.now) G.Out.is_value (C.empty collector.now) (C.add collector.now)) (flat_map (G.expand stage.now) (flat_map S.items (leaves_of plan.now))) (C.content collector.now g.acc)) }
    ensures entry { IfOk result (λ g. Reports (D.needed demand.now) (length (leaves_of plan.now)) (full_count (D.counted demand.now) (lists_of S.items (G.expand stage.now) (leaves_of plan.now))) g.entry.leaves (count_of g.entry) (cut_of g.entry)) }
{
    let job = PlanJob {
        alloc,
        plan,
        reading: Reading {
            stage,
            demand,
            collector,
        },
    };
    run_job(rt, alloc, plan.tree(), &job, workers, gate)
}
