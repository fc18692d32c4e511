//! A stream's items in one thread, until others pay.
ghost use Rattle.std.specs.Prelude.{◌≡◌, IfOk, Some, true, false};
ghost use Rattle.collectors.specs.Laws.{IsContainerOf};
ghost use Rattle.parallel_streams.specs.Searches.{IsFound};

use crate::evaluate::collect_segment;
use crate::seeking::Seeking;
use crate::segments::search_segment;
use crate::{Engine, Plumbing};
use barriers::Demand;
use collectors::{Collector, combine_containers};
use leaf_reading::{Filling, Patience};
use spliterator::NoMemory;
use stages::Nothing;
use std::thread::Threads;
use std::time::{Clock, Instant};
use stealing_pool::Gate;

// How many nanoseconds one thread reads by itself: about what it takes to start others.
const ALONE_NANOS: u64 = 50_000;

// The most items with which one thread begins by itself. Of more, four workers at least would lose by it.
const FEW_ITEMS: u64 = 1 << 18;

// How long one thread goes on where there may be others: until as much time has gone as other threads take to start, and what is left is likely to take as much.
#[derive(Drop)]
struct Alone<'r, R, H> {
    clock: &'r R,
    gate: &'r H,
    workers: u32,
    begun: Option<Instant>,
}

impl<'r, R: Clock, H: Gate> Alone<'r, R, H> {
    // From now on.
    fn on(engine: &Engine<'r, R, H>) -> Alone<'r, R, H> {
        Alone {
            clock: engine.rt,
            gate: engine.run.gate,
            workers: engine.run.workers,
            begun: Instant::now(engine.rt).ok(),
        }
    }
}

impl<R: Clock, H: Gate> Patience for Alone<'_, R, H> {
    fn is_over(&self, read: u64, left: Option<u64>) -> Result<bool, NoMemory> {
        self.gate.goes_on()?;
        if self.workers == 1 {
            return Ok(false);
        }
        let (Some(begun), Ok(now)) = (self.begun, Instant::now(self.clock)) else {
            return Ok(true);
        };
        let gone = now.duration_since(begun).as_nanos();
        if gone < u128::from(ALONE_NANOS) {
            return Ok(false);
        }
        let Some(left) = left else {
            return Ok(true);
        };
        let worth = u128::from(read) * u128::from(ALONE_NANOS);
        Ok(worth <= gone.saturating_mul(u128::from(left)))
    }
}

/// Whether one thread begins with a stream by itself: its items are read once, its source is short, and nobody asks for leaves or heeds them.
pub fn begins_alone<R, X: Plumbing, H: Gate>(engine: &Engine<'_, R, H>, stream: &X) -> bool
    ensures { result ≡ true → X.barred stream.now ≡ false }
{
    let is_free = engine.run.target == 0 && !engine.run.gate.heeds_leaves();
    is_free && !stream.has_barrier() && stream.source_estimate() <= FEW_ITEMS
}

/// The container of a stream's items: of those that this thread reads by itself, and of those behind them, where others come.
pub fn collect_alone<
    R: Threads + Clock + Sync,
    X: Plumbing,
    C: Collector<Item = X::Item> + Sync,
    H: Gate + Sync,
>(engine: &Engine<'_, R, H>, stream: &X, collector: &C) -> Result<C::Acc, NoMemory>
where
    C::Acc: Send,
    C::Out: Send,
    requires stream { X.ready stream.now }
    requires collector { C.ready collector.now }
    ensures made { let it = collector.now in
        let made = IsContainerOf X.Item.is_value (C.content it) (C.empty it) (C.add it) in
        IfOk result (made (X.value stream.now)) }
{
    engine.run.gate.goes_on()?;
    let alone = Alone::on(engine);
    let acc = collector.supply_for(stream.known_size().unwrap_or(0))?;
    let mut filling = Filling { collector, acc };
    let rest = stream.feed_front(engine, &alone, &Nothing::new(), &mut filling)?;
    let Some(progress) = rest else {
        return Ok(filling.acc);
    };
    let Filling { collector, acc } = filling;
    let (after, behind) = collect_segment(engine, stream, progress, collector)?;
    if !stream.is_last(&after) {
        unreachable!()
    }
    engine.run.gate.goes_on()?;
    let mut whole = acc;
    combine_containers(collector, &mut whole, behind)?;
    Ok(whole)
}

/// The container of a stream's items, or of a front with a hit, as `container_until`: this thread reads by itself up to the first hit, and others search
/// what is behind.
pub fn search_alone<
    R: Threads + Clock + Sync,
    X: Plumbing,
    D: Demand<X::Item> + Sync,
    C: Collector<Item = X::Item> + Sync,
    H: Gate + Sync,
>(
    engine: &Engine<'_, R, H>,
    stream: &X,
    demand: &D,
    collector: &C,
) -> Result<(C::Acc, bool), NoMemory>
where
    C::Acc: Send,
    C::Out: Send,
    requires stream { X.ready stream.now }
    requires demand { D.ready demand.now }
    requires collector { C.ready collector.now }
    requires one { D.needed demand.now ≡ Some 1 }
    ensures found { let it = collector.now in
        let made = IsContainerOf X.Item.is_value (C.content it) (C.empty it) (C.add it) in
        IfOk result (λ r. IsFound (D.counted demand.now) made (X.value stream.now) r.0 r.1) }
{
    engine.run.gate.goes_on()?;
    let alone = Alone::on(engine);
    let acc = collector.supply()?;
    let mut seeking = Seeking {
        demand,
        collector,
        acc,
        is_hit: false,
    };
    let rest = stream.feed_front(engine, &alone, &Nothing::new(), &mut seeking)?;
    let Seeking {
        demand,
        collector,
        acc,
        is_hit,
    } = seeking;
    let Some(progress) = rest else {
        return Ok((acc, is_hit));
    };
    if is_hit {
        return Ok((acc, true));
    }
    let (after, behind, is_hit) = search_segment(engine, stream, progress, demand, collector)?;
    if !stream.is_last(&after) {
        unreachable!()
    }
    engine.run.gate.goes_on()?;
    let mut whole = acc;
    combine_containers(collector, &mut whole, behind)?;
    Ok((whole, is_hit))
}
