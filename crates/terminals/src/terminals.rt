//! Terminal operations of each stream.
ghost use Rattle.std.specs.Prelude.{◌≡◌, ◌++◌, true, IfOk, OnOk, OnErr, option_map, map, string_bytes};
ghost use Rattle.spliterator.specs.Clones.{ClonesAlike};
ghost use Rattle.stages.specs.Distinct.{distinct};
ghost use Rattle.collectors.specs.Reductions.{delimited};
ghost use Rattle.derived_collectors.specs.FirstBest.{IsFirstBestBy, is_better};
ghost use Rattle.derived_collectors.specs.declared.best.Best.TheVariants.{Least, Greatest};
ghost use Rattle.terminals.specs.FirstSorted.{IsFrontOfSorted};
ghost use Rattle.terminals.specs.Reversed.{reversed};
ghost use Rattle.terminals.specs.Sorted.{IsSortedList, by_key};

use crate::descending::Descending;
use crate::first_sorted::FirstSorted;
use crate::keys::{with_keys, without_keys};
use crate::ordering::{promise_contents, sort_list, sort_pairs};
use barriers::FirstHit;
use collectors::{Collector, Joining, ToList};
use derived_collectors::{BestByKey, Decides, Deciding, ToSet};
use indexmap::IndexSet;
use parallel_streams::{
    Engine, Plumbing, Stream, container_of, container_until, finish_on, fold_into,
};
use spliterator::{EqualValue, NoMemory, SortedValue, Text};
use stages::{Mapping, Max, Min, Sink};
use std::hash::Hash;
use std::thread::Threads;
use std::time::Clock;
use stealing_pool::Gate;
use stream_functions::Cloned;

// Whether the stream tells that its items ascend.
fn tells_sorted<S: Stream>(stream: &S) -> bool
    ensures { result ≡ true → IsSortedList S.Item.order (S.value stream.now) (S.value stream.now) }
{
    stream.flags().is_sorted()
}

/// Terminal operations that Java has as methods of a stream.
///
/// ```text
/// let words = of(LinesSplit::new("to\nbe\nor\nnot"));
/// let longest = words.max_by_key(&engine, &Length)?;    // Some("not")
/// ```
// java.util.stream.Stream
pub trait Terminals: Stream {
    /// The least item, or none: the first where several are least.
    ///
    /// ```text
    /// of(SliceSplit::new(&[3, 1, 2])).min(&engine)?    // Some(1)
    /// ```
    // java.util.stream.Stream, min
    final fn min(
        &self,
        engine: &Engine<'_, impl Threads + Clock + Sync, impl Gate + Sync>,
    ) -> Result<Option<Self::Item>, NoMemory>
    where
        Self::Item: SortedValue,
        requires stream { Self.ready self.now }
        requires clones { ClonesAlike Self.Item.is_clone Self.Item.content }
        ensures value { let better = is_better Least Self.Item.order in
            let best = IsFirstBestBy better (λ x. x) in
            IfOk result (λ least. best (Self.value self.now) (option_map Self.Item.content least)) }
    {
        self.reduce_optional_on(engine, &Min::new())
    }

    /// The greatest item, or none: the first where several are greatest.
    ///
    /// ```text
    /// of(SliceSplit::new(&[3, 1, 2])).max(&engine)?    // Some(3)
    /// ```
    // java.util.stream.Stream, max
    final fn max(
        &self,
        engine: &Engine<'_, impl Threads + Clock + Sync, impl Gate + Sync>,
    ) -> Result<Option<Self::Item>, NoMemory>
    where
        Self::Item: SortedValue,
        requires stream { Self.ready self.now }
        requires clones { ClonesAlike Self.Item.is_clone Self.Item.content }
        ensures value { let better = is_better Greatest Self.Item.order in
            let best = IsFirstBestBy better (λ x. x) in
            IfOk result (λ most. best (Self.value self.now) (option_map Self.Item.content most)) }
    {
        self.reduce_optional_on(engine, &Max::new())
    }

    /// The item of the least key, or none: the first where several have it.
    ///
    /// ```text
    /// words.min_by_key(&engine, &Length)?    // of "not", "to" and "be": Some("to")
    /// ```
    // java.util.stream.Stream, min, with java.util.Comparator, comparing
    final fn min_by_key<K: Mapping<Self::Item> + Sync>(
        &self,
        engine: &Engine<'_, impl Threads + Clock + Sync, impl Gate + Sync>,
        key: &K,
    ) -> Result<Option<Self::Item>, NoMemory>
    where
        K::Out: SortedValue + Drop + Send,
        requires stream { Self.ready self.now }
        requires key { K.ready key.now }
        requires clones { ClonesAlike Self.Item.is_clone Self.Item.content }
        ensures value { let better = is_better Least K.Out.order in
            let best = IsFirstBestBy better (K.image key.now) in
            IfOk result (λ least. best (Self.value self.now) (option_map Self.Item.content least)) }
    {
        self.collect_on(engine, &BestByKey::least(key))
    }

    /// The item of the greatest key, or none: the first where several have it.
    ///
    /// ```text
    /// words.max_by_key(&engine, &Length)?    // of "to", "not" and "too": Some("not")
    /// ```
    // java.util.stream.Stream, max, with java.util.Comparator, comparing
    final fn max_by_key<K: Mapping<Self::Item> + Sync>(
        &self,
        engine: &Engine<'_, impl Threads + Clock + Sync, impl Gate + Sync>,
        key: &K,
    ) -> Result<Option<Self::Item>, NoMemory>
    where
        K::Out: SortedValue + Drop + Send,
        requires stream { Self.ready self.now }
        requires key { K.ready key.now }
        requires clones { ClonesAlike Self.Item.is_clone Self.Item.content }
        ensures value { let better = is_better Greatest K.Out.order in
            let best = IsFirstBestBy better (K.image key.now) in
            IfOk result (λ most. best (Self.value self.now) (option_map Self.Item.content most)) }
    {
        self.collect_on(engine, &BestByKey::greatest(key))
    }

    /// The items in encounter order.
    ///
    /// ```text
    /// of(RangeSplit::range(0, 6)?).filter(Even).to_list(&engine)?    // [0, 2, 4]
    /// ```
    // java.util.stream.Stream, toList
    final fn to_list(
        &self,
        engine: &Engine<'_, impl Threads + Clock + Sync, impl Gate + Sync>,
    ) -> Result<Vec<Self::Item>, NoMemory>
        requires stream { Self.ready self.now }
        requires clones { ClonesAlike Self.Item.is_clone Self.Item.content }
        ensures value { let wanted = Self.value self.now in
            IfOk result (λ list. map Self.Item.content list.items ≡ wanted) }
    {
        self.collect_on(engine, &ToList::new(engine.alloc))
    }

    /// The items without repeats, in the order in which each came first.
    ///
    /// ```text
    /// of(SliceSplit::new(&[5, 2, 5])).to_set(&engine)?    // {5, 2}
    /// ```
    // java.util.stream.Collectors, toSet
    final fn to_set(
        &self,
        engine: &Engine<'_, impl Threads + Clock + Sync, impl Gate + Sync>,
    ) -> Result<IndexSet<Self::Item>, NoMemory>
    where
        Self::Item: EqualValue + Hash,
        requires stream { Self.ready self.now }
        requires clones { ClonesAlike Self.Item.is_clone Self.Item.content }
        ensures value { let wanted = distinct Self.Item.same (Self.value self.now) in
            IfOk result (λ set. map Self.Item.content set.keys ≡ wanted) }
    {
        self.collect_on(engine, &ToSet::new(engine.alloc))
    }

    /// The result of a collector on all the items. What follows the first item that decides it, in encounter order, may stay unread: behind an item that
    /// has failed, where the collector is a `Trying`.
    ///
    /// ```text
    /// let rows = of(LinesSplit::new("5\nx\n7")).map(Parsed);    // Ok(5), Err(..), Ok(7)
    /// rows.collect_decided(&engine, &Trying::new(SummingLong::new(Itself)))?    // the Err
    /// ```
    // java.util.stream, package summary, Stream operations and pipelines (short-circuiting); rayon::iter::ParallelIterator, collect (into a Result)
    final fn collect_decided<C: Deciding<Item = Self::Item> + Sync>(
        &self,
        engine: &Engine<'_, impl Threads + Clock + Sync, impl Gate + Sync>,
        collector: &C,
    ) -> Result<C::Out, NoMemory>
    where
        C::Acc: Send,
        C::Out: Send,
        requires stream { Self.ready self.now }
        requires collector { C.ready collector.now }
        ensures value { IfOk result (C.gives collector.now (Self.value self.now)) }
    {
        let demand = FirstHit::new(Decides { collector });
        let (acc, _) = container_until(engine, self, &demand, collector)?;
        finish_on(engine, collector, acc)
    }

    /// The texts one behind the other, with the delimiter between neighbours.
    ///
    /// ```text
    /// words.joining(&engine, ", ")?    // "to, be, or, not"
    /// ```
    // java.util.stream.Collectors, joining (delimiter; none is an empty one)
    final fn joining(
        &self,
        engine: &Engine<'_, impl Threads + Clock + Sync, impl Gate + Sync>,
        delimiter: &str,
    ) -> Result<String, NoMemory>
    where
        Self::Item: Text,
        requires stream { Self.ready self.now }
        ensures value { let wanted = delimited delimiter.now (Self.value self.now) in
            IfOk result (λ text. string_bytes text ≡ wanted) }
    {
        self.collect_on(engine, &Joining::new(engine.alloc, delimiter, "", ""))
    }

    /// Hands the items to a sink, in encounter order and in the caller's thread.
    ///
    /// ```text
    /// let mut list = vec![in rt.alloc(); 7]?;
    /// of(RangeSplit::range(0, 3)?).for_each_ordered(&engine, &mut list)?;    // [7, 0, 1, 2]
    /// ```
    ///
    /// The workers make the list of the items first: what a stage or a collector does in a run is seen by the value that it answers, so
    /// an effect has its place behind the run. A sink that is full before is handed nothing, and nothing runs. Where memory is refused, it has
    /// been handed nothing or a front of the items, as it says itself of a refusal: a `Vec` has grown by that front.
    // java.util.stream.Stream, forEachOrdered
    final fn for_each_ordered<K: Sink<Self::Item>>(
        &self,
        engine: &Engine<'_, impl Threads + Clock + Sync, impl Gate + Sync>,
        action: &mut K,
    ) -> Result<(), NoMemory>
        requires stream { Self.ready self.now }
        requires action { K.ready action.old }
        requires clones { ClonesAlike Self.Item.is_clone Self.Item.content }
        ensures taken { OnOk result (K.takes action.old (Self.value self.now) action.new) }
        ensures spoilt { OnErr result (K.spoils action.old action.new) }
    {
        if action.is_full() {
            return Ok(());
        }
        let mut items = self.to_list(engine)?;
        action.take_all(&mut items)
    }

    /// The items in ascending order, of which equal ones are one value. A stream that tells that its items ascend isn't sorted again.
    ///
    /// ```text
    /// of(SliceSplit::new(&[3, 1, 2])).sorted(&engine)?    // [1, 2, 3]
    /// ```
    ///
    /// The items come to a list on the workers of the run. With more than one worker the list is sorted on as many threads as the machine has
    /// processors, and with one in the caller's.
    // java.util.stream.Stream, sorted
    final fn sorted(
        &self,
        engine: &Engine<'_, impl Threads + Clock + Sync, impl Gate + Sync>,
    ) -> Result<Vec<Self::Item>, NoMemory>
    where
        Self::Item: SortedValue,
        requires stream { Self.ready self.now }
        requires clones { ClonesAlike Self.Item.is_clone Self.Item.content }
        ensures sorted { let sorted = IsSortedList Self.Item.order (Self.value self.now) in
            IfOk result (λ list. sorted (map Self.Item.content list.items)) }
    {
        let mut list = self.to_list(engine)?;
        if tells_sorted(self) {
            return Ok(list);
        }
        engine.run.gate.goes_on()?;
        sort_list(engine.rt, engine.alloc, engine.run.workers, &mut list)?;
        promise_contents(&list);
        Ok(list)
    }

    /// The items in the ascending order of their keys, and those whose keys are equal in encounter order.
    ///
    /// ```text
    /// let orders = of(SliceSplit::new(&[(2, 7), (1, 9), (2, 5)]));
    /// orders.sorted_by_key(&engine, &OnFirst(Itself))?    // (1, 9), (2, 7), (2, 5)
    /// ```
    ///
    /// Each item is asked for its key once, in the caller's thread. The rest is as of [`Terminals::sorted`].
    // java.util.stream.Stream, sorted (comparator), with java.util.Comparator, comparing
    final fn sorted_by_key<K: Mapping<Self::Item>>(
        &self,
        engine: &Engine<'_, impl Threads + Clock + Sync, impl Gate + Sync>,
        key: &K,
    ) -> Result<Vec<Self::Item>, NoMemory>
    where
        K::Out: SortedValue + Drop + Send,
        requires stream { Self.ready self.now }
        requires key { K.ready key.now }
        requires clones { ClonesAlike Self.Item.is_clone Self.Item.content }
        ensures sorted { let order = by_key (K.image key.now) K.Out.order in
            let sorted = IsSortedList order (Self.value self.now) in
            IfOk result (λ list. sorted (map Self.Item.content list.items)) }
    {
        let items = self.to_list(engine)?;
        engine.run.gate.goes_on()?;
        let mut pairs = with_keys(engine.alloc, key, items)?;
        engine.run.gate.goes_on()?;
        sort_pairs(engine.rt, engine.alloc, engine.run.workers, &mut pairs)?;
        Ok(without_keys(engine.alloc, key, pairs)?)
    }

    /// The `number` greatest items, or all, from the greatest on, and those that are equal in encounter order.
    ///
    /// ```text
    /// of(SliceSplit::new(&[3, 1, 2])).top(&engine, 2)?    // [3, 2]
    /// ```
    // java.util.stream.Stream, sorted (java.util.Comparator, reverseOrder) and limit
    final fn top(
        &self,
        engine: &Engine<'_, impl Threads + Clock + Sync, impl Gate + Sync>,
        number: usize,
    ) -> Result<Vec<Self::Item>, NoMemory>
    where
        Self::Item: SortedValue,
        requires stream { Self.ready self.now }
        requires clones { ClonesAlike Self.Item.is_clone Self.Item.content }
        ensures value { let front = IsFrontOfSorted (reversed Self.Item.order) number (Self.value self.now) in
            IfOk result (λ list. front (map Self.Item.content list.items)) }
    {
        let greatest = Descending(Cloned::<Self::Item>::new());
        self.collect_on(engine, &FirstSorted::new(engine.alloc, greatest, number))
    }

    /// The result of a collector on the items and then on those of another stream.
    ///
    /// ```text
    /// let even = of(RangeSplit::range(0, 5)?).filter(Even);
    /// let more = of(SliceSplit::new(&[7])).map(Plus(1));
    /// even.concat(&engine, &more, &ToList::new(rt.alloc()))?    // 0, 2, 4, 8
    /// ```
    ///
    /// The streams run one after the other into one container. Neither run is left out, whatever the collector has found in the first.
    // java.util.stream.Stream, concat, and then collect
    final fn concat<B: Stream<Item = Self::Item>, C: Collector<Item = Self::Item> + Sync>(
        &self,
        engine: &Engine<'_, impl Threads + Clock + Sync, impl Gate + Sync>,
        second: &B,
        collector: &C,
    ) -> Result<C::Out, NoMemory>
    where
        C::Acc: Send,
        C::Out: Send,
        requires first { Self.ready self.now }
        requires second { B.ready second.now }
        requires collector { C.ready collector.now }
        ensures { IfOk result (C.gives collector.now (Self.value self.now ++ B.value second.now)) }
    {
        let mut whole = container_of(engine, self, collector)?;
        fold_into(engine, second, collector, &mut whole)?;
        finish_on(engine, collector, whole)
    }
}

impl<S: Stream> Terminals for S {}
