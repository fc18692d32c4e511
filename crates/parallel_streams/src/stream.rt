//! What a lazy stream is.
ghost use Rattle.std.specs.Prelude.{◌≡◌, ◌<◌, ◌^◌, Option, not, pos, fold, option_map, None, IsSome, IsOk, IfOk, flat_map, map, length};
ghost use Rattle.stealing_pool.specs.Spans.{joined};
ghost use Rattle.spliterator.specs.Clones.{ClonesAlike};
ghost use Rattle.stages.specs.Operators.{IsAssociative};
ghost use Rattle.stages.specs.Wrapping.{wrapped};
ghost use Rattle.collectors.specs.Reductions.{first, reduced};
ghost use Rattle.collectors.specs.Grouping.{contents};
ghost use Rattle.collectors.specs.StrictMaps.{IsFirstRepeat, IsStrictMap};
ghost use Rattle.parallel_streams.specs.MapErrors.{MapAnswersUnder, IfDuplicate};
ghost use Rattle.parallel_streams.specs.Reports.{IsReportedRun};
ghost use Rattle.parallel_streams.specs.Runs.{IsLawfulRun, AnswersUnder};
ghost use Rattle.parallel_streams.specs.Terminals.{any_meets, all_meet, IsLeftIdentity};

use crate::barred::Barred;
use crate::contrary::Contrary;
use crate::evaluate::evaluate;
use crate::segments::{container_of, finish_on, first_item, some_counts};
use crate::staged::Staged;
use crate::{Engine, MapError, Plumbing, Run, StreamError};
use barriers::{Distinct, DropWhile, FirstHit, Limit, Skip, TakeWhile};
use collectors::{Collector, Counting, Reducing, ToMapStrict};
use indexmap::IndexMap;
use spliterator::{EqualValue, NoMemory, OrderedValue};
use stages::{Filter, FlatMap, ListValue, Map, Mapping, Operator, Stage, Test};
use std::alloc::Global;
use std::hash::Hash;
use std::thread::Threads;
use std::time::Clock;
use stealing_pool::{Gate, RunReport};

/// A list of items that nobody has read yet: a source, and the operations that its items go through.
// java.util.stream.Stream
pub trait Stream: Plumbing + Sized {
    /// The items through a stage.
    final fn then<A: Stage<In = Self::Item>>(self, stage: A) -> Staged<Self, A>
        ensures upstream { result.upstream ≡ self }
        ensures stage { result.stage ≡ stage }
    {
        Staged {
            upstream: self,
            stage,
        }
    }

    /// One image an item.
    // java.util.stream.Stream, map
    final fn map<M: Mapping<Self::Item>>(self, mapping: M) -> Staged<Self, Map<Self::Item, M>>
    where
        M::Out: OrderedValue + Drop,
        ensures upstream { result.upstream ≡ self }
        ensures stage { result.stage.mapping ≡ mapping }
    {
        Staged {
            upstream: self,
            stage: Map::new(mapping),
        }
    }

    /// The items that meet a test.
    // java.util.stream.Stream, filter
    final fn filter<P: Test<Self::Item>>(self, test: P) -> Staged<Self, Filter<Self::Item, P>>
        ensures upstream { result.upstream ≡ self }
        ensures stage { result.stage.test ≡ test }
    {
        Staged {
            upstream: self,
            stage: Filter::new(test),
        }
    }

    /// In the place of each item, the items of the list that the mapping makes of it.
    // java.util.stream.Stream, flatMap
    final fn flat_map<M: Mapping<Self::Item>>(
        self,
        mapping: M,
    ) -> Staged<Self, FlatMap<Self::Item, M>>
    where
        M::Out: ListValue,
        ensures upstream { result.upstream ≡ self }
        ensures stage { result.stage.mapping ≡ mapping }
    {
        Staged {
            upstream: self,
            stage: FlatMap::new(mapping),
        }
    }

    /// At most the first items: a number below 2^63.
    // java.util.stream.Stream, limit
    final fn limit(self, most: u64) -> Barred<Self, Limit>
        requires { most < 2 ^ 63 }
        ensures upstream { result.upstream ≡ self }
        ensures barrier { result.barrier.most ≡ most }
    {
        Barred {
            upstream: self,
            barrier: Limit::new(most),
        }
    }

    /// The items after the first ones: a number below 2^63.
    // java.util.stream.Stream, skip
    final fn skip(self, number: u64) -> Barred<Self, Skip>
        requires { number < 2 ^ 63 }
        ensures upstream { result.upstream ≡ self }
        ensures barrier { result.barrier.number ≡ number }
    {
        Barred {
            upstream: self,
            barrier: Skip::new(number),
        }
    }

    /// The longest front whose items all meet a test.
    // java.util.stream.Stream, takeWhile
    final fn take_while<P: Test<Self::Item>>(self, test: P) -> Barred<Self, TakeWhile<P>>
        ensures upstream { result.upstream ≡ self }
        ensures barrier { result.barrier.test ≡ test }
    {
        Barred {
            upstream: self,
            barrier: TakeWhile::new(test),
        }
    }

    /// What follows the longest front whose items all meet a test.
    // java.util.stream.Stream, dropWhile
    final fn drop_while<P: Test<Self::Item>>(self, test: P) -> Barred<Self, DropWhile<P>>
        ensures upstream { result.upstream ≡ self }
        ensures barrier { result.barrier.test ≡ test }
    {
        Barred {
            upstream: self,
            barrier: DropWhile::new(test),
        }
    }

    /// Of equal items the first, in the order of the items.
    // java.util.stream.Stream, distinct
    final fn distinct(self) -> Barred<Self, Distinct>
        ensures { result.upstream ≡ self }
    {
        Barred {
            upstream: self,
            barrier: Distinct::new(),
        }
    }

    /// The result of a collector on all the items.
    ///
    /// ```text
    /// let engine = Engine::new(&rt, rt.alloc(), &Run::new(4))?;
    /// of(LinesSplit::new("to\nbe")).map(Length).collect_on(&engine, &SummingLong::new(Itself))?    // 4
    /// ```
    // java.util.stream.Stream, collect
    final fn collect_on<C: Collector<Item = Self::Item> + Sync>(
        &self,
        engine: &Engine<'_, impl Threads + Clock + Sync, impl Gate + Sync>,
        collector: &C,
    ) -> Result<C::Out, NoMemory>
    where
        C::Acc: Send,
        C::Out: Send,
        requires stream { Self.ready self.now }
        requires collector { C.ready collector.now }
        ensures value { IfOk result (C.gives collector.now (Self.value self.now)) }
    {
        let acc = container_of(engine, self, collector)?;
        finish_on(engine, collector, acc)
    }

    /// The number of items, as an `i64` that wraps. Where it is known no leaf runs, and no memory is taken.
    // java.util.stream.Stream, count
    final fn count_on(
        &self,
        engine: &Engine<'_, impl Threads + Clock + Sync, impl Gate + Sync>,
    ) -> Result<i64, NoMemory>
        requires { Self.ready self.now }
        ensures value { IfOk result (λ n. n ≡ wrapped (pos (length (Self.value self.now)))) }
        ensures known { IsSome (Self.size self.now) → IsOk result }
    {
        if let Some(size) = self.known_size() {
            return Ok(size as i64);
        }
        self.collect_on(engine, &Counting::new())
    }

    /// The first item, or none. What follows it may stay unread.
    // java.util.stream.Stream, findFirst
    final fn find_first_on(
        &self,
        engine: &Engine<'_, impl Threads + Clock + Sync, impl Gate + Sync>,
    ) -> Result<Option<Self::Item>, NoMemory>
        requires stream { Self.ready self.now }
        requires clones { ClonesAlike Self.Item.is_clone Self.Item.content }
        ensures { IfOk result (λ found. option_map Self.Item.content found ≡ first (Self.value self.now)) }
    {
        first_item(engine, self)
    }

    /// Whether some item meets the test. What follows the first one may stay unread.
    // java.util.stream.Stream, anyMatch
    final fn any_match_on<P: Test<Self::Item> + Sync>(
        &self,
        engine: &Engine<'_, impl Threads + Clock + Sync, impl Gate + Sync>,
        test: &P,
    ) -> Result<bool, NoMemory>
        requires stream { Self.ready self.now }
        requires test { P.ready test.now }
        ensures { IfOk result (λ met. met ≡ any_meets (P.holds test.now) (Self.value self.now)) }
    {
        some_counts(engine, self, &FirstHit::new(test))
    }

    /// Whether every item meets the test, as where there is no item. What follows one that does not may stay unread.
    // java.util.stream.Stream, allMatch
    final fn all_match_on<P: Test<Self::Item> + Sync>(
        &self,
        engine: &Engine<'_, impl Threads + Clock + Sync, impl Gate + Sync>,
        test: &P,
    ) -> Result<bool, NoMemory>
        requires stream { Self.ready self.now }
        requires test { P.ready test.now }
        ensures { IfOk result (λ met. met ≡ all_meet (P.holds test.now) (Self.value self.now)) }
    {
        let contrary = Contrary { test };
        Ok(!self.any_match_on(engine, &contrary)?)
    }

    /// Whether no item meets the test. What follows one that does may stay unread.
    // java.util.stream.Stream, noneMatch
    final fn none_match_on<P: Test<Self::Item> + Sync>(
        &self,
        engine: &Engine<'_, impl Threads + Clock + Sync, impl Gate + Sync>,
        test: &P,
    ) -> Result<bool, NoMemory>
        requires stream { Self.ready self.now }
        requires test { P.ready test.now }
        ensures { IfOk result (λ met. met ≡ not (any_meets (P.holds test.now) (Self.value self.now))) }
    {
        Ok(!self.any_match_on(engine, test)?)
    }

    /// The items joined by an associative operator, from the first one on, or none where there is no item.
    // java.util.stream.Stream, reduce (accumulator alone)
    final fn reduce_optional_on<O: Operator<Self::Item> + Sync>(
        &self,
        engine: &Engine<'_, impl Threads + Clock + Sync, impl Gate + Sync>,
        operator: &O,
    ) -> Result<Option<Self::Item>, NoMemory>
        requires stream { Self.ready self.now }
        requires operator { O.ready operator.now }
        requires clones { ClonesAlike Self.Item.is_clone Self.Item.content }
        requires associative { IsAssociative Self.Item.is_value (O.join operator.now) }
        ensures { IfOk result (λ joined. option_map Self.Item.content joined ≡ reduced (O.join operator.now) (Self.value self.now)) }
    {
        self.collect_on(engine, &Reducing::new(operator))
    }

    /// The items joined by an associative operator, from the identity on. The identity is one on the left: joined before any value
    /// it gives that value.
    // java.util.stream.Stream, reduce (identity and accumulator)
    final fn reduce_on<O: Operator<Self::Item> + Sync>(
        &self,
        engine: &Engine<'_, impl Threads + Clock + Sync, impl Gate + Sync>,
        identity: Self::Item,
        operator: &O,
    ) -> Result<Self::Item, NoMemory>
        requires stream { Self.ready self.now }
        requires operator { O.ready operator.now }
        requires clones { ClonesAlike Self.Item.is_clone Self.Item.content }
        requires associative { IsAssociative Self.Item.is_value (O.join operator.now) }
        requires identity { IsLeftIdentity Self.Item.is_value (O.join operator.now) (Self.Item.content identity) }
        ensures { IfOk result (λ joined. Self.Item.content joined ≡ fold (O.join operator.now) (Self.Item.content identity) (Self.value self.now)) }
    {
        let reducing = Reducing::new(operator);
        let acc = container_of(engine, self, &reducing)?;
        match finish_on(engine, &reducing, acc)? {
            Some(joined) => Ok(joined),
            None => Ok(identity),
        }
    }

    /// The result of a collector on all the items.
    // java.util.stream.Stream, collect
    final fn collect<
        R: Threads + Clock + Sync,
        H: Gate + Sync,
        C: Collector<Item = Self::Item> + Sync,
    >(&self, rt: &R, alloc: Global, run: &Run<'_, H>, collector: &C) -> Result<C::Out, StreamError>
    where
        C::Acc: Send,
        C::Out: Send,
        requires stream { Self.ready self.now }
        requires collector { C.ready collector.now }
        ensures settings { AnswersUnder run.now.workers run.now.target result }
        ensures value { IfOk result (C.gives collector.now (Self.value self.now)) }
    {
        let engine = Engine::new(rt, alloc, run)?;
        Ok(self.collect_on(&engine, collector)?)
    }

    /// The result of a collector on all the items, and what each run tells of its leaves: one entry a barrier, and then the last
    /// run's.
    final fn collect_reported<
        R: Threads + Clock + Sync,
        H: Gate + Sync,
        C: Collector<Item = Self::Item> + Sync,
    >(
        &self,
        rt: &R,
        alloc: Global,
        run: &Run<'_, H>,
        collector: &C,
    ) -> Result<(C::Out, RunReport), StreamError>
    where
        C::Acc: Send,
        C::Out: Send,
        requires stream { Self.ready self.now }
        requires collector { C.ready collector.now }
        ensures settings { AnswersUnder run.now.workers run.now.target result }
        ensures value { IfOk result (λ r. C.gives collector.now (Self.value self.now) r.0) }
        ensures report { let workers = run.now.workers in
            let target = run.now.target in
            IfOk result (λ r. IsReportedRun (Self.leaf_lists self.now workers target) (Self.value self.now)
            (Self.reported self.now workers target) (C.gives collector.now) r.0 r.1) }
    {
        let engine = Engine::new(rt, alloc, run)?;
        let ended = evaluate(&engine, self, collector)?;
        engine.run.gate.goes_on()?;
        let value = collector.finish(ended.acc)?;
        Ok((value, RunReport::of(ended.entries)))
    }

    /// The number of items, as an `i64` that wraps. Where it is known no leaf runs, and no memory is taken.
    // java.util.stream.Stream, count
    final fn count<R: Threads + Clock + Sync, H: Gate + Sync>(
        &self,
        rt: &R,
        alloc: Global,
        run: &Run<'_, H>,
    ) -> Result<i64, StreamError>
        requires { Self.ready self.now }
        ensures settings { AnswersUnder run.now.workers run.now.target result }
        ensures value { IfOk result (λ n. n ≡ wrapped (pos (length (Self.value self.now)))) }
        ensures known { IsSome (Self.size self.now) → IsLawfulRun run.now.workers run.now.target → IsOk result }
    {
        let engine = Engine::new(rt, alloc, run)?;
        Ok(self.count_on(&engine)?)
    }

    /// The first item, or none. What follows it may stay unread.
    // java.util.stream.Stream, findFirst
    final fn find_first<R: Threads + Clock + Sync, H: Gate + Sync>(
        &self,
        rt: &R,
        alloc: Global,
        run: &Run<'_, H>,
    ) -> Result<Option<Self::Item>, StreamError>
        requires stream { Self.ready self.now }
        requires clones { ClonesAlike Self.Item.is_clone Self.Item.content }
        ensures settings { AnswersUnder run.now.workers run.now.target result }
        ensures value { IfOk result (λ found. option_map Self.Item.content found ≡ first (Self.value self.now)) }
    {
        let engine = Engine::new(rt, alloc, run)?;
        Ok(self.find_first_on(&engine)?)
    }

    /// Whether some item meets the test. What follows the first one may stay unread.
    // java.util.stream.Stream, anyMatch
    final fn any_match<R: Threads + Clock + Sync, H: Gate + Sync, P: Test<Self::Item> + Sync>(
        &self,
        rt: &R,
        alloc: Global,
        run: &Run<'_, H>,
        test: &P,
    ) -> Result<bool, StreamError>
        requires stream { Self.ready self.now }
        requires test { P.ready test.now }
        ensures settings { AnswersUnder run.now.workers run.now.target result }
        ensures value { IfOk result (λ met. met ≡ any_meets (P.holds test.now) (Self.value self.now)) }
    {
        let engine = Engine::new(rt, alloc, run)?;
        Ok(self.any_match_on(&engine, test)?)
    }

    /// Whether every item meets the test, as where there is no item. What follows one that does not may stay unread.
    // java.util.stream.Stream, allMatch
    final fn all_match<R: Threads + Clock + Sync, H: Gate + Sync, P: Test<Self::Item> + Sync>(
        &self,
        rt: &R,
        alloc: Global,
        run: &Run<'_, H>,
        test: &P,
    ) -> Result<bool, StreamError>
        requires stream { Self.ready self.now }
        requires test { P.ready test.now }
        ensures settings { AnswersUnder run.now.workers run.now.target result }
        ensures value { IfOk result (λ met. met ≡ all_meet (P.holds test.now) (Self.value self.now)) }
    {
        let engine = Engine::new(rt, alloc, run)?;
        Ok(self.all_match_on(&engine, test)?)
    }

    /// Whether no item meets the test. What follows one that does may stay unread.
    // java.util.stream.Stream, noneMatch
    final fn none_match<R: Threads + Clock + Sync, H: Gate + Sync, P: Test<Self::Item> + Sync>(
        &self,
        rt: &R,
        alloc: Global,
        run: &Run<'_, H>,
        test: &P,
    ) -> Result<bool, StreamError>
        requires stream { Self.ready self.now }
        requires test { P.ready test.now }
        ensures settings { AnswersUnder run.now.workers run.now.target result }
        ensures value { IfOk result (λ met. met ≡ not (any_meets (P.holds test.now) (Self.value self.now))) }
    {
        let engine = Engine::new(rt, alloc, run)?;
        Ok(self.none_match_on(&engine, test)?)
    }

    /// The items joined by an associative operator, from the first one on, or none where there is no item.
    // java.util.stream.Stream, reduce (accumulator alone)
    final fn reduce_optional<
        R: Threads + Clock + Sync,
        H: Gate + Sync,
        O: Operator<Self::Item> + Sync,
    >(
        &self,
        rt: &R,
        alloc: Global,
        run: &Run<'_, H>,
        operator: &O,
    ) -> Result<Option<Self::Item>, StreamError>
        requires stream { Self.ready self.now }
        requires operator { O.ready operator.now }
        requires clones { ClonesAlike Self.Item.is_clone Self.Item.content }
        requires associative { IsAssociative Self.Item.is_value (O.join operator.now) }
        ensures settings { AnswersUnder run.now.workers run.now.target result }
        ensures value { IfOk result (λ joined. option_map Self.Item.content joined ≡ reduced (O.join operator.now) (Self.value self.now)) }
    {
        let engine = Engine::new(rt, alloc, run)?;
        Ok(self.reduce_optional_on(&engine, operator)?)
    }

    /// The items joined by an associative operator, from the identity on. The identity is one on the left: joined before any value
    /// it gives that value.
    // java.util.stream.Stream, reduce (identity and accumulator)
    final fn reduce<R: Threads + Clock + Sync, H: Gate + Sync, O: Operator<Self::Item> + Sync>(
        &self,
        rt: &R,
        alloc: Global,
        run: &Run<'_, H>,
        identity: Self::Item,
        operator: &O,
    ) -> Result<Self::Item, StreamError>
        requires stream { Self.ready self.now }
        requires operator { O.ready operator.now }
        requires clones { ClonesAlike Self.Item.is_clone Self.Item.content }
        requires associative { IsAssociative Self.Item.is_value (O.join operator.now) }
        requires identity { IsLeftIdentity Self.Item.is_value (O.join operator.now) (Self.Item.content identity) }
        ensures settings { AnswersUnder run.now.workers run.now.target result }
        ensures value { IfOk result (λ joined. Self.Item.content joined ≡ fold (O.join operator.now) (Self.Item.content identity) (Self.value self.now)) }
    {
        let engine = Engine::new(rt, alloc, run)?;
        Ok(self.reduce_on(&engine, identity, operator)?)
    }

    /// A map from each item's key to its value, in the order of the items. Where a key repeats there is no map, and the error names
    /// the key of the earliest item whose key came before.
    // java.util.stream.Collectors, toMap (with no merge function)
    final fn to_map_strict<
        R: Threads + Clock + Sync,
        H: Gate + Sync,
        K: Mapping<Self::Item> + Sync,
        V: Mapping<Self::Item> + Sync,
    >(
        &self,
        rt: &R,
        alloc: Global,
        run: &Run<'_, H>,
        key_of: &K,
        value_of: &V,
    ) -> Result<IndexMap<K::Out, V::Out>, MapError<K::Out>>
    where
        K::Out: EqualValue + Hash + Drop + Send,
        V::Out: Drop + Send,
        requires stream { Self.ready self.now }
        requires keys { K.ready key_of.now }
        requires values { V.ready value_of.now }
        ensures settings { MapAnswersUnder run.now.workers run.now.target result }
        ensures map { IfOk result (λ m. IsStrictMap K.Out.same (K.image key_of.now) (V.image value_of.now) (Self.value self.now) (contents K.Out.content V.Out.content m.entries)) }
        ensures duplicate { IfDuplicate result (λ k. IsFirstRepeat K.Out.same (map (K.image key_of.now) (Self.value self.now)) (K.Out.content k)) }
    {
        let strict = ToMapStrict::new(alloc, key_of, value_of);
        match self.collect(rt, alloc, run, &strict) {
            Ok(Ok(entries)) => Ok(entries),
            Ok(Err(repeated)) => Err(MapError::DuplicateKey(repeated.key)),
            Err(error) => Err(MapError::from(error)),
        }
    }
}

impl<X: Plumbing> Stream for X {}
