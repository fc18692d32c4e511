//! A stream's segments, one after another.
ghost use Rattle.std.specs.Prelude.{◌≡◌, ◌≢◌, ◌++◌, ℕ, List, None, Some, true, IfOk, OnOk, option_map};
ghost use Rattle.collectors.specs.Laws.{IsContainerOf};
ghost use Rattle.collectors.specs.Reductions.{first};
ghost use Rattle.spliterator.specs.Clones.{ClonesAlike};
ghost use Rattle.stealing_pool.specs.Spans.{joined};
ghost use Rattle.parallel_streams.specs.Reading.{ReadsLittle};
ghost use Rattle.parallel_streams.specs.Searches.{DecidesOrHits, IsFound};
ghost use Rattle.parallel_streams.specs.Terminals.{any_meets};

use crate::alone::{begins_alone, collect_alone, search_alone};
use crate::evaluate::{collect_segment, run_barriers, run_last};
use crate::source::FIRST;
use crate::{Engine, Plumbing, Run};
use barriers::{Demand, Total};
use collectors::{Collector, Counting, First, combine_containers, finish_container};
use spliterator::NoMemory;
use std::alloc::Global;
use std::thread::Threads;
use std::time::Clock;
use stealing_pool::Gate;

// How many times as many items the next segment may have as the one before it. A source halves, so what stands next has about as many as all before it.
const TIMES_LONGER: u64 = 2;

// The most items of a segment, and about the most that a barrier is to list of one.
const MOST: u64 = 1 << 20;

// One worker runs a segment of which at most about so many items come, since threads take longer to start than they would save.
const ALONE: u64 = 1 << 16;

// How long a segment is: at most so many items, or with no bound, and about how many come of each.
#[derive(Clone, Copy)]
struct Extent {
    most: Option<u64>,
    growth: u64,
}

// Of a source item come so many at most where a search runs over the whole source at once: a worker asks after some thousand source items whether it may end.
const FEW: u64 = 1 << 10;

impl Extent {
    // That of a stream's first segment: it has no bound where no operation looks at more than one item, and at most `few` come of each source item.
    fn first<X: Plumbing>(stream: &X, few: u64) -> Extent
        ensures undecided { result.most ≡ None → (n : ℕ) → X.decided stream.now n → ⊥ }
        ensures bounded { X.barred stream.now ≡ true → result.most ≢ None }
    {
        let growth = stream.growth().max(1);
        let most = if growth > few || stream.has_barrier() {
            Some((FIRST / growth).max(1))
        } else {
            None
        };
        Extent { most, growth }
    }

    // How many items the segment behind may have, where of this one so many were listed: where as many come of each, or as the stages tell, it lists `MOST` at most.
    fn next_size(&self, longest_list: u64) -> u64 {
        let size = self.most.unwrap_or(FIRST);
        let few = (MOST / self.growth.max(1)).max(1);
        let longer = size.saturating_mul(TIMES_LONGER).min(few);
        match size.saturating_mul(MOST).checked_div(longest_list) {
            Some(fitting) => longer.min(fitting).max(1),
            None => longer,
        }
    }

    // The extent of the segment behind, of at most so many items.
    fn next(&self, most: u64, longest_list: u64) -> Extent {
        let size = self.most.unwrap_or(FIRST).max(1);
        Extent {
            most: Some(most),
            growth: self.growth.max(longest_list / size),
        }
    }

    fn is_short(&self) -> bool {
        match self.most {
            Some(most) => most.saturating_mul(self.growth) <= ALONE,
            None => false,
        }
    }
}

// What a segment runs on.
fn engine_of<'e, R, H>(engine: &Engine<'e, R, H>, extent: &Extent) -> Engine<'e, R, H> {
    let run = &engine.run;
    Engine {
        rt: engine.rt,
        alloc: engine.alloc,
        run: Run {
            workers: if extent.is_short() { 1 } else { run.workers },
            target: run.target,
            gate: run.gate,
        },
    }
}

// The container of a stream's items, one segment after another. Segments grow, and end where nothing matters that is still to come: of a source that
// splits finely, little more is read than decides.
fn collect_segments<
    R: Threads + Clock + Sync,
    X: Plumbing,
    C: Collector<Item = X::Item> + Sync,
    H: Gate + Sync,
>(engine: &Engine<'_, R, H>, stream: &X, collector: &C) -> Result<(X::Progress, C::Acc), NoMemory>
where
    C::Acc: Send,
    C::Out: Send,
    requires stream { X.ready stream.now }
    requires collector { C.ready collector.now }
    ensures made { let it = collector.now in
        let made = IsContainerOf X.Item.is_value (C.content it) (C.empty it) (C.add it) in
        IfOk result (λ r. made (X.value stream.now) r.1) }
    ensures read { IfOk result (λ r. (read : ℕ) × X.read stream.now r.0 read
        × (X.fine stream.now → ReadsLittle (X.decided stream.now) read)) }
{
    let mut extent = Extent::first(stream, u64::MAX);
    let own = engine_of(engine, &extent);
    let begun = stream.start(engine.alloc, own.run.workers, own.run.target, extent.most)?;
    let (mut progress, mut whole) = collect_segment(&own, stream, begun, collector)?;
    while !stream.is_last(&progress) {
        let longest_list = stream.longest_list(&progress);
        let most = extent.next_size(longest_list);
        extent = extent.next(most, longest_list);
        let own = engine_of(engine, &extent);
        let next = stream.go_on(
            engine.alloc,
            progress,
            own.run.workers,
            own.run.target,
            most,
        )?;
        let (after, acc) = collect_segment(&own, stream, next, collector)?;
        progress = after;
        engine.run.gate.goes_on()?;
        combine_containers(collector, &mut whole, acc)?;
    }
    Ok((progress, whole))
}

/// The container of a stream's items, into which more may go before it is finished.
pub fn container_of<
    R: Threads + Clock + Sync,
    X: Plumbing,
    C: Collector<Item = X::Item> + Sync,
    H: Gate + Sync,
>(engine: &Engine<'_, R, H>, stream: &X, collector: &C) -> Result<C::Acc, NoMemory>
where
    C::Acc: Send,
    C::Out: Send,
    requires stream { X.ready stream.now }
    requires collector { C.ready collector.now }
    ensures made { let it = collector.now in
        let made = IsContainerOf X.Item.is_value (C.content it) (C.empty it) (C.add it) in
        IfOk result (made (X.value stream.now)) }
{
    if begins_alone(engine, stream) {
        return collect_alone(engine, stream, collector);
    }
    let (_, acc) = collect_segments(engine, stream, collector)?;
    Ok(acc)
}

/// Takes a stream's items into a container, behind those that are in it. After want of memory the container is only to be dropped.
///
/// ```text
/// let list = ToList::new(alloc);
/// let mut all = container_of(&engine, &of(RangeSplit::range(0, 2)?), &list)?;
/// fold_into(&engine, &of(RangeSplit::range(7, 9)?), &list, &mut all)?;    // 0, 1, 7, 8
/// ```
pub fn fold_into<
    R: Threads + Clock + Sync,
    X: Plumbing,
    C: Collector<Item = X::Item> + Sync,
    H: Gate + Sync,
>(engine: &Engine<'_, R, H>, stream: &X, collector: &C, whole: &mut C::Acc) -> Result<(), NoMemory>
where
    C::Acc: Send,
    C::Out: Send,
    requires stream { X.ready stream.now }
    requires collector { C.ready collector.now }
    ensures folded { let it = collector.now in
        let made = IsContainerOf X.Item.is_value (C.content it) (C.empty it) (C.add it) in
        (before : List X.Item.Content) → made before whole.old
        → OnOk result (made (before ++ X.value stream.now) whole.new) }
{
    let behind = container_of(engine, stream, collector)?;
    engine.run.gate.goes_on()?;
    combine_containers(collector, whole, behind)
}

/// The result of a collector whose container has all items.
///
/// ```text
/// let list = finish_on(&engine, &ToList::new(alloc), all)?;
/// ```
pub fn finish_on<R, C: Collector, H: Gate>(
    engine: &Engine<'_, R, H>,
    collector: &C,
    acc: C::Acc,
) -> Result<C::Out, NoMemory>
    requires { C.ready collector.now }
    ensures { let it = collector.now in
        let made = IsContainerOf C.Item.is_value (C.content it) (C.empty it) (C.add it) in
        (l : List C.Item.Content) → made l acc → IfOk result (C.gives it l) }
{
    engine.run.gate.goes_on()?;
    finish_container(collector, acc)
}

// The container of the present segment's items, and whether it has a hit: an item that counts, where one is enough for the demand. It has all items then,
// or a front with a hit.
pub(crate) fn search_segment<
    R: Threads + Clock + Sync,
    X: Plumbing,
    D: Demand<X::Item> + Sync,
    C: Collector<Item = X::Item> + Sync,
    H: Gate + Sync,
>(
    engine: &Engine<'_, R, H>,
    stream: &X,
    progress: X::Progress,
    demand: &D,
    collector: &C,
) -> Result<(X::Progress, C::Acc, bool), NoMemory>
where
    C::Acc: Send,
    C::Out: Send,
    requires stream { X.ready stream.now }
    requires demand { D.ready demand.now }
    requires collector { C.ready collector.now }
    requires one { D.needed demand.now ≡ Some 1 }
    requires holds { X.holds stream.now progress }
    ensures holds { IfOk result (λ r. X.holds stream.now r.0) }
    ensures still { IfOk result (λ r. X.still stream.now r.0 ≡ X.still stream.now progress) }
    ensures left { IfOk result (λ r. X.left stream.now progress
        ≡ joined (X.parts stream.now r.0) ++ X.behind stream.now r.0) }
    ensures read { let front = X.front stream.now in
        (from to : ℕ) → X.reads stream.now progress from to → IfOk result (λ r. X.read stream.now r.0 to
        × (front to ≡ front from ++ joined (X.parts stream.now r.0))) }
    ensures found { let it = collector.now in
        let made = IsContainerOf X.Item.is_value (C.content it) (C.empty it) (C.add it) in
        let found = IsFound (D.counted demand.now) made in
        IfOk result (λ r. found (joined (X.parts stream.now r.0)) r.1 r.2) }
{
    let (progress, _) = run_barriers(engine, stream, progress)?;
    let (acc, entry) = run_last(engine, stream, &progress, demand, collector)?;
    Ok((progress, acc, entry.cut().is_some()))
}

// The container of a stream's items up to those of the first segment that has a hit, and whether one has. The segments behind it are not read: of a source
// that splits finely, and where some operation looks at more than one item, little more is read than decides, or has a hit.
fn search<
    R: Threads + Clock + Sync,
    X: Plumbing,
    D: Demand<X::Item> + Sync,
    C: Collector<Item = X::Item> + Sync,
    H: Gate + Sync,
>(
    engine: &Engine<'_, R, H>,
    stream: &X,
    demand: &D,
    collector: &C,
) -> Result<(X::Progress, C::Acc, bool), NoMemory>
where
    C::Acc: Send,
    C::Out: Send,
    requires stream { X.ready stream.now }
    requires demand { D.ready demand.now }
    requires collector { C.ready collector.now }
    requires one { D.needed demand.now ≡ Some 1 }
    ensures found { let it = collector.now in
        let made = IsContainerOf X.Item.is_value (C.content it) (C.empty it) (C.add it) in
        IfOk result (λ r. IsFound (D.counted demand.now) made (X.value stream.now) r.1 r.2) }
    ensures read { let ends = DecidesOrHits (X.decided stream.now) (D.counted demand.now) (X.front stream.now) in
        IfOk result (λ r. (read : ℕ) × X.read stream.now r.0 read
        × (X.fine stream.now → X.barred stream.now ≡ true → ReadsLittle ends read)) }
{
    let mut extent = Extent::first(stream, FEW);
    let own = engine_of(engine, &extent);
    let begun = stream.start(engine.alloc, own.run.workers, own.run.target, extent.most)?;
    let (mut progress, mut whole, mut is_hit) = search_segment(
        &own, stream, begun, demand, collector,
    )?;
    while !is_hit {
        if stream.is_last(&progress) {
            return Ok((progress, whole, false));
        }
        let longest_list = stream.longest_list(&progress);
        let most = extent.next_size(longest_list);
        extent = extent.next(most, longest_list);
        let own = engine_of(engine, &extent);
        let next = stream.go_on(
            engine.alloc,
            progress,
            own.run.workers,
            own.run.target,
            most,
        )?;
        let (after, acc, met) = search_segment(&own, stream, next, demand, collector)?;
        progress = after;
        is_hit = met;
        engine.run.gate.goes_on()?;
        combine_containers(collector, &mut whole, acc)?;
    }
    Ok((progress, whole, true))
}

/// The container of a stream's items, or of a front with a hit: an item that counts, where one is enough for the demand; and whether there is a hit. What
/// stands behind the first one may stay unread.
pub fn container_until<
    R: Threads + Clock + Sync,
    X: Plumbing,
    D: Demand<X::Item> + Sync,
    C: Collector<Item = X::Item> + Sync,
    H: Gate + Sync,
>(
    engine: &Engine<'_, R, H>,
    stream: &X,
    demand: &D,
    collector: &C,
) -> Result<(C::Acc, bool), NoMemory>
where
    C::Acc: Send,
    C::Out: Send,
    requires stream { X.ready stream.now }
    requires demand { D.ready demand.now }
    requires collector { C.ready collector.now }
    requires one { D.needed demand.now ≡ Some 1 }
    ensures found { let it = collector.now in
        let made = IsContainerOf X.Item.is_value (C.content it) (C.empty it) (C.add it) in
        IfOk result (λ r. IsFound (D.counted demand.now) made (X.value stream.now) r.0 r.1) }
{
    if stream.growth() <= FEW && begins_alone(engine, stream) {
        return search_alone(engine, stream, demand, collector);
    }
    let (_, acc, is_hit) = search(engine, stream, demand, collector)?;
    Ok((acc, is_hit))
}

/// The first of a stream's items, or none. The segments behind it are not read.
pub fn first_item<R: Threads + Clock + Sync, X: Plumbing, H: Gate + Sync>(
    engine: &Engine<'_, R, H>,
    stream: &X,
) -> Result<Option<X::Item>, NoMemory>
    requires stream { X.ready stream.now }
    requires clones { ClonesAlike X.Item.is_clone X.Item.content }
    ensures { IfOk result (λ found. option_map X.Item.content found ≡ first (X.value stream.now)) }
{
    let first = First::<X::Item>::new();
    let (acc, _) = container_until(engine, stream, &Total::new(1), &first)?;
    finish_on(engine, &first, acc)
}

/// Whether some item counts, where one is enough for the demand: whether the run of a segment was cut. Each item is asked once at most, and the
/// segments behind it are not read.
pub fn some_counts<
    R: Threads + Clock + Sync,
    X: Plumbing,
    D: Demand<X::Item> + Sync,
    H: Gate + Sync,
>(engine: &Engine<'_, R, H>, stream: &X, demand: &D) -> Result<bool, NoMemory>
    requires stream { X.ready stream.now }
    requires demand { D.ready demand.now }
    requires one { D.needed demand.now ≡ Some 1 }
    ensures { IfOk result (λ met. met ≡ any_meets (D.counted demand.now) (X.value stream.now)) }
{
    let (_, is_hit) = container_until(engine, stream, demand, &Counting::new())?;
    Ok(is_hit)
}
