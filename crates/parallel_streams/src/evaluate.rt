//! The runs of a segment of a stream, one after another, each on the workers.
ghost use Rattle.std.specs.Prelude.{◌≡◌, ◌<◌, ◌++◌, ◌∷◌, [], ℕ, List, None, true, false, IfOk};
ghost use Rattle.barriers.specs.Needs.{no_item};
ghost use Rattle.collectors.specs.Laws.{IsContainerOf};
ghost use Rattle.leaf_reading.specs.Fronts.{folding};
ghost use Rattle.stealing_pool.specs.Spans.{work_of, joined};
ghost use Rattle.leaf_board.specs.Closing.{Outcome};
ghost use Rattle.parallel_streams.specs.Reports.{IsReport, IsRunOver};

use crate::handover::{hand_over, list_over};
use crate::{Engine, Plumbing};
use barriers::{Demand, Need, Whole};
use collectors::{Collector, combine_containers};
use leaf_board::Handout;
use leaf_reading::{LeafEnd, Reading};
use spliterator::NoMemory;
use stages::Nothing;
use std::alloc::Global;
use std::thread::Threads;
use std::time::Clock;
use stealing_pool::{Gate, LeafJob, RunEntry, run_job};

// The run of the next barrier.
#[derive(Drop)]
struct BarrierRun<'a, 'b, X: Plumbing> {
    alloc: Global,
    stream: &'a X,
    progress: &'b X::Progress,
}

impl<X: Plumbing> LeafJob for BarrierRun<'_, '_, X> {
    type Kept = X::Kept;

    ghost ready = { λ j. X.ready j.stream.now × X.holds j.stream.now j.progress.now × (X.done j.stream.now j.progress.now ≡ false) };

    ghost work = { λ j. X.work j.stream.now j.progress.now };

    fn leaves(&self) -> usize {
        self.stream.leaves(self.progress)
    }

    fn need(&self) -> Need {
        self.stream.need(self.progress)
    }

    fn run_leaf<B: Handout>(
        &self,
        board: &B,
        seat: &mut B::Seat,
        leaf: usize,
    ) -> Result<LeafEnd<X::Kept>, NoMemory> {
        self.stream
            .run_barrier_leaf(self.alloc, self.progress, board, seat, leaf)
    }

    fn combine(&self, left: &mut X::Kept, right: X::Kept) -> Result<(), NoMemory> {
        self.stream.combine(self.alloc, self.progress, left, right)
    }
}

// The last run.
#[derive(Drop)]
struct LastRun<'a, 'b, 'c, 'd, X: Plumbing, D, C> {
    alloc: Global,
    stream: &'a X,
    progress: &'b X::Progress,
    demand: &'c D,
    collector: &'d C,
}

impl<X: Plumbing, D: Demand<X::Item>, C: Collector<Item = X::Item>> LeafJob
    for LastRun<'_, '_, '_, '_, X, D, C> {
    type Kept = C::Acc;

    ghost ready = { λ j. X.ready j.stream.now × D.ready j.demand.now × C.ready j.collector.now × X.holds j.stream.now j.progress.now × (X.done j.stream.now j.progress.now ≡ true) };

    ghost work = { λ j. work_of (folding (D.needed j.demand.now) (D.counted j.demand.now) X.Item.is_value (C.empty j.collector.now) (C.add j.collector.now)) (C.content j.collector.now) (X.parts j.stream.now j.progress.now) };

    fn leaves(&self) -> usize {
        self.stream.leaves(self.progress)
    }

    fn need(&self) -> Need {
        self.demand.need()
    }

    fn run_leaf<B: Handout>(
        &self,
        board: &B,
        seat: &mut B::Seat,
        leaf: usize,
    ) -> Result<LeafEnd<C::Acc>, NoMemory> {
        let reading = Reading {
            stage: &Nothing::new(),
            demand: self.demand,
            collector: self.collector,
        };
        self.stream
            .run_last_leaf(self.alloc, self.progress, &reading, board, seat, leaf)
    }

    fn combine(&self, left: &mut C::Acc, right: C::Acc) -> Result<(), NoMemory> {
        combine_containers(self.collector, left, right)
    }

    fn is_light(&self, kept: &C::Acc) -> bool {
        self.collector.is_light(kept)
    }
}

// Promises of the lists of the last run's leaves that they are the segment's items, end to end, which are read then; and where the segment is the
// whole, that they are the stream's, how they are cut, and that the entries so far are all.
fn promise_whole<X: Plumbing>(_stream: &X, _progress: &X::Progress)
    requires holds { X.holds _stream.now _progress.now }
    requires done { X.done _stream.now _progress.now ≡ true }
    ensures left { X.left _stream.now _progress.now
        ≡ joined (X.parts _stream.now _progress.now) ++ X.behind _stream.now _progress.now }
    ensures read { let front = X.front _stream.now in
        (from to : ℕ) → X.reads _stream.now _progress.now from to → X.read _stream.now _progress.now to
        × (front to ≡ front from ++ joined (X.parts _stream.now _progress.now)) }
    ensures whole { (workers target : ℕ) → X.planned _stream.now workers target _progress.now
        → joined (X.parts _stream.now _progress.now) ≡ X.value _stream.now }
    ensures cut { (workers target : ℕ) → X.planned _stream.now workers target _progress.now
        → X.leaf_lists _stream.now workers target (X.parts _stream.now _progress.now) }
    ensures entries { (workers target : ℕ) (entries : List Outcome)
        → X.told_so_far _stream.now workers target _progress.now entries
        → X.reported _stream.now workers target entries }
{}

/// What the runs of a stream left: the container of the last run, and the entries of all runs in their order.
#[derive(Drop)]
pub struct Evaluated<A> {
    pub acc: A,
    pub entries: Vec<RunEntry>,
}

// Runs the next barrier. Answers how far the stream has come, and the entry of the run.
fn run_barrier<R: Threads + Clock + Sync, X: Plumbing, H: Gate + Sync>(
    engine: &Engine<'_, R, H>,
    stream: &X,
    progress: X::Progress,
) -> Result<(X::Progress, RunEntry), NoMemory>
    requires stream { X.ready stream.now }
    requires holds { X.holds stream.now progress }
    requires waits { X.done stream.now progress ≡ false }
    ensures holds { IfOk result (λ r. X.holds stream.now r.0) }
    ensures left { IfOk result (λ r. X.left stream.now r.0 ≡ X.left stream.now progress) }
    ensures still { IfOk result (λ r. X.still stream.now r.0 ≡ X.still stream.now progress) }
    ensures reads { (from to : ℕ) → X.reads stream.now progress from to
        → IfOk result (λ r. X.reads stream.now r.0 from to) }
    ensures planned { let planned = X.planned stream.now engine.now.run.workers engine.now.run.target in
        planned progress → IfOk result (λ r. planned r.0) }
    ensures entries { let planned = X.planned stream.now engine.now.run.workers engine.now.run.target in
        let told = X.told_so_far stream.now engine.now.run.workers engine.now.run.target in
        planned progress → (entries : List Outcome) → told progress entries
        → IfOk result (λ r. told r.0 (entries ++ r.1 ∷ [])) }
    ensures fewer { IfOk result (λ r. X.waiting stream.now r.0 < X.waiting stream.now progress) }
{
    let job = BarrierRun {
        alloc: engine.alloc,
        stream,
        progress: &progress,
    };
    let tree = stream.tree(&progress);
    let ran = run_job(
        engine.rt,
        engine.alloc,
        tree,
        &job,
        engine.run.workers,
        engine.run.gate,
    )?;
    engine.run.gate.goes_on()?;
    let after = stream.make_list(engine, progress, ran.acc, &ran.entry)?;
    Ok((after, ran.entry))
}

/// Runs the barriers over the present segment, one after another. Answers how far the stream has come, and the entries of the runs.
pub fn run_barriers<R: Threads + Clock + Sync, X: Plumbing, H: Gate + Sync>(
    engine: &Engine<'_, R, H>,
    stream: &X,
    progress: X::Progress,
) -> Result<(X::Progress, Vec<RunEntry>), NoMemory>
    requires stream { X.ready stream.now }
    requires holds { X.holds stream.now progress }
    ensures holds { IfOk result (λ r. X.holds stream.now r.0) }
    ensures done { IfOk result (λ r. X.done stream.now r.0 ≡ true) }
    ensures left { IfOk result (λ r. X.left stream.now progress
        ≡ joined (X.parts stream.now r.0) ++ X.behind stream.now r.0) }
    ensures still { IfOk result (λ r. X.still stream.now r.0 ≡ X.still stream.now progress) }
    ensures read { let front = X.front stream.now in
        (from to : ℕ) → X.reads stream.now progress from to → IfOk result (λ r. X.read stream.now r.0 to
        × (front to ≡ front from ++ joined (X.parts stream.now r.0))) }
    ensures whole { X.planned stream.now engine.now.run.workers engine.now.run.target progress
        → IfOk result (λ r. joined (X.parts stream.now r.0) ≡ X.value stream.now) }
    ensures cut { let leaf_lists = X.leaf_lists stream.now engine.now.run.workers engine.now.run.target in
        X.planned stream.now engine.now.run.workers engine.now.run.target progress
        → IfOk result (λ r. leaf_lists (X.parts stream.now r.0)) }
    ensures entries { X.planned stream.now engine.now.run.workers engine.now.run.target progress
        → X.told_so_far stream.now engine.now.run.workers engine.now.run.target progress []
        → IfOk result (λ r. X.reported stream.now engine.now.run.workers engine.now.run.target r.1.items) }
{
    let mut entries = Vec::new(engine.alloc);
    let mut progress = progress;
    while !stream.is_through(&progress) {
        let (after, entry) = run_barrier(engine, stream, progress)?;
        progress = after;
        entries.push(entry)?;
    }
    promise_whole(stream, &progress);
    Ok((progress, entries))
}

/// Runs the leaves of the last run into a collector, as far as the demand asks.
pub fn run_last<
    R: Threads + Clock + Sync,
    X: Plumbing,
    D: Demand<X::Item> + Sync,
    C: Collector<Item = X::Item> + Sync,
    H: Gate + Sync,
>(
    engine: &Engine<'_, R, H>,
    stream: &X,
    progress: &X::Progress,
    demand: &D,
    collector: &C,
) -> Result<(C::Acc, RunEntry), NoMemory>
where
    C::Acc: Send,
    C::Out: Send,
    requires stream { X.ready stream.now }
    requires demand { D.ready demand.now }
    requires collector { C.ready collector.now }
    requires holds { X.holds stream.now progress.now }
    requires done { X.done stream.now progress.now ≡ true }
    ensures { let needs = folding (D.needed demand.now) (D.counted demand.now) X.Item.is_value in
        let fold = needs (C.empty collector.now) (C.add collector.now) in
        IfOk result (λ r. IsRunOver fold (C.content collector.now r.0) (X.parts stream.now progress.now) r.1) }
{
    let job = LastRun {
        alloc: engine.alloc,
        stream,
        progress,
        demand,
        collector,
    };
    let tree = stream.tree(progress);
    let last = run_job(
        engine.rt,
        engine.alloc,
        tree,
        &job,
        engine.run.workers,
        engine.run.gate,
    )?;
    Ok((last.acc, last.entry))
}

/// Runs all the leaves of the last run into a collector, or hands it the list that the last barrier left, where it keeps that as it stands.
pub fn run_whole<
    R: Threads + Clock + Sync,
    X: Plumbing,
    C: Collector<Item = X::Item> + Sync,
    H: Gate + Sync,
>(
    engine: &Engine<'_, R, H>,
    stream: &X,
    progress: &mut X::Progress,
    collector: &C,
) -> Result<(C::Acc, RunEntry), NoMemory>
where
    C::Acc: Send,
    C::Out: Send,
    requires stream { X.ready stream.now }
    requires collector { C.ready collector.now }
    requires holds { X.holds stream.now progress.old }
    requires done { X.done stream.now progress.old ≡ true }
    ensures run { let all = folding None no_item X.Item.is_value (C.empty collector.now) (C.add collector.now) in
        let lists = X.parts stream.now progress.old in
        IfOk result (λ r. IsRunOver all (C.content collector.now r.0) lists r.1) }
    ensures holds { X.holds stream.now progress.new }
    ensures behind { X.behind stream.now progress.new ≡ X.behind stream.now progress.old }
    ensures still { X.still stream.now progress.new ≡ X.still stream.now progress.old }
    ensures read { (n : ℕ) → X.read stream.now progress.old n → X.read stream.now progress.new n }
{
    if !collector.keeps_lists() {
        return run_last(engine, stream, progress, &Whole, collector);
    }
    match stream.take_listed(progress) {
        Some(listed) => hand_over(engine, listed, collector),
        None if engine.run.workers == 1 => list_over(engine, stream, progress, collector),
        None => run_last(engine, stream, progress, &Whole, collector),
    }
}

/// The container of the present segment's items.
pub fn collect_segment<
    R: Threads + Clock + Sync,
    X: Plumbing,
    C: Collector<Item = X::Item> + Sync,
    H: Gate + Sync,
>(
    engine: &Engine<'_, R, H>,
    stream: &X,
    progress: X::Progress,
    collector: &C,
) -> Result<(X::Progress, C::Acc), NoMemory>
where
    C::Acc: Send,
    C::Out: Send,
    requires stream { X.ready stream.now }
    requires collector { C.ready collector.now }
    requires holds { X.holds stream.now progress }
    ensures holds { IfOk result (λ r. X.holds stream.now r.0) }
    ensures still { IfOk result (λ r. X.still stream.now r.0 ≡ X.still stream.now progress) }
    ensures read { (from to : ℕ) → X.reads stream.now progress from to
        → IfOk result (λ r. X.read stream.now r.0 to) }
    ensures made { let it = collector.now in
        let made = IsContainerOf X.Item.is_value (C.content it) (C.empty it) (C.add it) in
        IfOk result (λ r. (items : List X.Item.Content)
        × (X.left stream.now progress ≡ items ++ X.behind stream.now r.0) × made items r.1) }
{
    let (mut progress, _) = run_barriers(engine, stream, progress)?;
    let (acc, _) = run_whole(engine, stream, &mut progress, collector)?;
    Ok((progress, acc))
}

/// Runs the barriers over the whole source, one after another, and then all that they leave into a collector.
pub fn evaluate<
    R: Threads + Clock + Sync,
    X: Plumbing,
    C: Collector<Item = X::Item> + Sync,
    H: Gate + Sync,
>(engine: &Engine<'_, R, H>, stream: &X, collector: &C) -> Result<Evaluated<C::Acc>, NoMemory>
where
    C::Acc: Send,
    C::Out: Send,
    requires stream { X.ready stream.now }
    requires collector { C.ready collector.now }
    ensures { let workers = engine.now.run.workers in
        let target = engine.now.run.target in
        let all = folding None no_item X.Item.is_value (C.empty collector.now) (C.add collector.now) in
        IfOk result (λ e. IsReport (X.leaf_lists stream.now workers target) (X.value stream.now)
        (X.reported stream.now workers target) (IsRunOver all (C.content collector.now e.acc))
        e.entries.items) }
{
    let whole = stream.start(engine.alloc, engine.run.workers, engine.run.target, None)?;
    let (mut progress, mut entries) = run_barriers(engine, stream, whole)?;
    let (acc, entry) = run_whole(engine, stream, &mut progress, collector)?;
    entries.push(entry)?;
    Ok(Evaluated { acc, entries })
}
