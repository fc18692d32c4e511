//! A job as a stream has one: what one thread does with a leaf stands in a trait's method, and one function starts the threads.
ghost use Rattle.std.specs.Prelude.{◌≡◌, ◌<◌, ◌≤◌, List, [], IfOk, length, map, slice_index_or};
ghost use Rattle.leaf_board.specs.Statuses.{SameFrom, StaysSeat};
ghost use Rattle.split_tree.specs.SplitTree.{leaf_numbers, numbers_from};
ghost use Rattle.leaf_reading.specs.Fronts.{folding, EndsList, IsFront};
ghost use Rattle.stealing_pool.specs.Spans.{joined, work_of};

use super::plan_of;
use barriers::{Demand, Need, Whole};
use collectors::{Collector, SummingLong, combine_containers};
use leaf_board::Handout;
use leaf_reading::{LeafEnd, Reading, read_leaf};
use sources::RangeSplit;
use split_tree::{Plan, Tree};
use spliterator::{NoMemory, OrderedValue, Spliterator};
use stages::Nothing;
use std::alloc::Global;
use std::test::Fail;
use std::thread::Threads;
use std::time::Clock;
use stealing_pool::{Gathered, LeafJob, NoGate, run_job};
use stream_functions::Itself;

/// A stream, as far as its last run goes: it hands the items of each leaf to a demand and a collector.
trait LastRun {
    type Item: OrderedValue + Drop;

    // the contents of the items of each leaf
    ghost lists: { Self → List (List Self.Item.Content) };

    fn leaf_count(&self) -> usize
        ensures { result ≡ length (lists self.now) };

    fn run_last_leaf<B: Handout, D: Demand<Self::Item>, C: Collector<Item = Self::Item>>(
        &self,
        demand: &D,
        collector: &C,
        board: &B,
        seat: &mut B::Seat,
        leaf: usize,
    ) -> Result<LeafEnd<C::Acc>, NoMemory>
        requires demand { D.ready demand.now }
        requires collector { C.ready collector.now }
        requires of { B.is_of board.now seat.old }
        requires within { leaf < B.leaves board.now }
        requires there { leaf < length (lists self.now) }
        ensures seat { StaysSeat (B.is_of board.now) B.number B.draws_left B.made_cut seat.old seat.new }
        ensures same { SameFrom (B.status seat.old) (B.status seat.new) }
        ensures end { IfOk result (EndsList (folding (D.needed demand.now) (D.counted demand.now) Self.Item.is_value (C.empty collector.now) (C.add collector.now)) (C.content collector.now) (slice_index_or (lists self.now) leaf []) (B.cut seat.new) leaf) };
}

/// The job of a stream's last run.
#[derive(Drop)]
struct LastJob<'a, X, D, C> {
    stream: &'a X,
    demand: &'a D,
    collector: &'a C,
}

impl<X: LastRun, D: Demand<X::Item>, C: Collector<Item = X::Item>> LeafJob
    for LastJob<'_, X, D, C> {
    type Kept = C::Acc;

    ghost ready = { λ j. D.ready j.demand.now × C.ready j.collector.now };

    ghost work = { λ j. work_of (folding (D.needed j.demand.now) (D.counted j.demand.now) X.Item.is_value (C.empty j.collector.now) (C.add j.collector.now)) (C.content j.collector.now) (X.lists j.stream.now) };

    fn leaves(&self) -> usize {
        self.stream.leaf_count()
    }

    fn need(&self) -> Need {
        self.demand.need()
    }

    fn run_leaf<B: Handout>(
        &self,
        board: &B,
        seat: &mut B::Seat,
        leaf: usize,
    ) -> Result<LeafEnd<C::Acc>, NoMemory> {
        self.stream
            .run_last_leaf(self.demand, self.collector, board, seat, leaf)
    }

    fn combine(&self, left: &mut C::Acc, right: C::Acc) -> Result<(), NoMemory> {
        combine_containers(self.collector, left, right)
    }
}

/// The one function that starts threads.
fn evaluate<
    R: Threads + Clock + Sync,
    X: LastRun + Sync,
    D: Demand<X::Item> + Sync,
    C: Collector<Item = X::Item> + Sync,
>(
    rt: &R,
    alloc: Global,
    stream: &X,
    tree: &Tree,
    demand: &D,
    collector: &C,
    workers: u32,
) -> Result<Gathered<C::Acc>, NoMemory>
where
    X::Item: Send,
    C::Acc: Send,
    C::Out: Send,
    requires demand { D.ready demand.now }
    requires collector { C.ready collector.now }
    requires tree { leaf_numbers tree.now ≡ numbers_from 0 (length (X.lists stream.now)) }
    requires few { length (X.lists stream.now) ≤ 65536 }
    requires workers { (0 < workers) × (workers ≤ 64) }
    ensures { IfOk result (λ g. IsFront (folding (D.needed demand.now) (D.counted demand.now) X.Item.is_value (C.empty collector.now) (C.add collector.now)) (joined (X.lists stream.now)) (C.content collector.now g.acc)) }
{
    let job = LastJob {
        stream,
        demand,
        collector,
    };
    run_job(rt, alloc, tree, &job, workers, &NoGate)
}

/// The numbers of a range.
#[derive(Drop)]
struct Numbers {
    alloc: Global,
    plan: Plan<RangeSplit>,
}

impl LastRun for Numbers {
    ghost use Rattle.std.specs.Prelude.{map};
    ghost use Rattle.split_tree.specs.Plan.{leaves_of};

    type Item = i64;

    ghost lists = { λ n. map ⟦<RangeSplit as Spliterator>⟧.items (leaves_of n.plan) };

    fn leaf_count(&self) -> usize {
        self.plan.leaves()
    }

    fn run_last_leaf<B: Handout, D: Demand<i64>, C: Collector<Item = i64>>(
        &self,
        demand: &D,
        collector: &C,
        board: &B,
        seat: &mut B::Seat,
        leaf: usize,
    ) -> Result<LeafEnd<C::Acc>, NoMemory> {
        let source = self.plan.leaf(leaf);
        let reading = Reading {
            stage: &Nothing::new(),
            demand,
            collector,
        };
        read_leaf(self.alloc, source, &reading, board, seat, leaf)
    }
}

#[test]
fn a_stream_runs_by_a_job_of_its_own(rt: HostRuntime) -> Result<(), Fail> {
    let alloc = rt.alloc();
    let stream = Numbers {
        alloc,
        plan: plan_of(alloc, 1000, 3, 10)?,
    };
    let collector = SummingLong::new(Itself);
    let run = evaluate(
        &rt,
        alloc,
        &stream,
        stream.plan.tree(),
        &Whole,
        &collector,
        3,
    )?;
    assert_eq!(rt; run.acc, 499_500);
    assert_eq!(rt; run.entry.leaves(), 128);
    Ok(())
}
