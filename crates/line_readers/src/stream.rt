//! What is made of the lines of a reader.
ghost use Rattle.std.specs.Prelude.{◌≡◌, ◌<◌, ◌^◌, ℕ, List, Option, flat_map, length, pos, not, option_map, IfOk, IfErr, IfSome, OnOk, OnErr, ⊤};
ghost use Rattle.spliterator.specs.Clones.{ClonesAlike};
ghost use Rattle.stages.specs.Wrapping.{wrapped};
ghost use Rattle.collectors.specs.Reductions.{first};
ghost use Rattle.parallel_streams.specs.Terminals.{any_meets, all_meet};
ghost use Rattle.line_blocks.specs.Faults.{IsFault};
ghost use Rattle.line_readers.specs.Values.{line_values};

use crate::ending::{AtTheEnd, OnceDecided, OnceFound};
use crate::meeting::Meeting;
use crate::reading::{collect_lines, hand_lines};
use crate::{BarredLines, Between, LineFunction, LineParts};
use barriers::{Distinct, DropWhile, Limit, Skip, TakeWhile};
use collectors::{Collector, Counting, First};
use derived_collectors::Deciding;
use line_blocks::LinesError;
use parallel_streams::Engine;
use spliterator::OrderedValue;
use stages::{Nothing, Sink, Stage, Test};
use std::io::Read;
use std::sync::Wait;
use std::thread::Threads;
use std::time::Clock;
use stealing_pool::Gate;
use stream_functions::Not;

/// What becomes of the lines of a reader, which nobody has read yet.
// java.util.stream.Stream; java.nio.file.Files, lines
pub trait LineStream: Sized {
    type Item: OrderedValue + Clone + Drop + Send + Sync;

    type Reader: Read + Send + Drop;

    type Function: LineFunction + Sync + Drop;

    /// The items in front of the first operation that looks at many.
    type Lead: OrderedValue + Clone + Drop + Send + Sync;

    /// The stage of what the function makes of a line.
    type First: Stage<In = <Self::Function as LineFunction>::Out, Out = Self::Lead> + Sync + Drop;

    type Barriers: Between<In = Self::Lead> + Drop;

    /// The stage behind the operations that look at many items.
    type Last: Stage<In = <Self::Barriers as Between>::Out, Out = Self::Item> + Sync + Drop;

    // what the methods rely on: stored closures meet their definitions
    ghost ready: { Self → Type 0 } = { λ _. ⊤ };

    // the bytes that the reader has left, where they are known
    ghost known: { Self → Option (List ℕ) };

    // no line of fewer bytes is too long
    ghost longest: { Self → ℕ };

    // the items that bytes become
    ghost value: { Self → List ℕ → List Self.Item.Content };

    /// Its reader, and what becomes of the lines.
    fn into_lines(
        self,
    ) -> LineParts<
        Self::Reader,
        Self::Function,
        Self::First,
        Self::Barriers,
        <Self::Barriers as Between>::Stages,
        Self::Last,
    >
        ensures function { ready self → Self.Function.ready result.steps.function }
        ensures first { ready self → Self.First.ready result.steps.first }
        ensures between { ready self → Self.Barriers.ready result.steps.barriers result.steps.between }
        ensures last { ready self → Self.Last.ready result.steps.last }
        ensures known { Self.Reader.remaining result.reader ≡ known self }
        ensures longest { result.longest ≡ longest self }
        ensures value { let own = result.steps in
            let items = line_values (Self.Function.image own.function) (Self.First.expand own.first) in
            let kept = λ (bytes : List ℕ). Self.Barriers.value own.barriers own.between (items bytes) in
            (bytes : List ℕ) → flat_map (Self.Last.expand own.last) (kept bytes) ≡ value self bytes };

    /// At most the first items: a number below 2^63. No more is read than the block behind that of the last.
    // java.util.stream.Stream, limit
    final fn limit(self, most: u64) -> BarredLines<Self, Limit, Nothing<Self::Item>>
        requires { most < 2 ^ 63 }
        ensures upstream { result.upstream ≡ self }
        ensures barrier { result.barrier.most ≡ most }
    {
        BarredLines::new(self, Limit::new(most))
    }

    /// The items after the first ones: a number below 2^63.
    ///
    /// ```text
    /// let rows = lines_of(file).map_lines(Parsed).skip(1);    // without the line of names
    /// ```
    // java.util.stream.Stream, skip
    final fn skip(self, number: u64) -> BarredLines<Self, Skip, Nothing<Self::Item>>
        requires { number < 2 ^ 63 }
        ensures upstream { result.upstream ≡ self }
        ensures barrier { result.barrier.number ≡ number }
    {
        BarredLines::new(self, Skip::new(number))
    }

    /// The longest front whose items all meet a test. No more is read than the block behind that of the first that doesn't.
    // java.util.stream.Stream, takeWhile
    final fn take_while<P: Test<Self::Item>>(
        self,
        test: P,
    ) -> BarredLines<Self, TakeWhile<P>, Nothing<Self::Item>>
        ensures upstream { result.upstream ≡ self }
        ensures barrier { result.barrier.test ≡ test }
    {
        BarredLines::new(self, TakeWhile::new(test))
    }

    /// What follows the longest front whose items all meet a test.
    // java.util.stream.Stream, dropWhile
    final fn drop_while<P: Test<Self::Item>>(
        self,
        test: P,
    ) -> BarredLines<Self, DropWhile<P>, Nothing<Self::Item>>
        ensures upstream { result.upstream ≡ self }
        ensures barrier { result.barrier.test ≡ test }
    {
        BarredLines::new(self, DropWhile::new(test))
    }

    /// Of equal items the first, in the order of the items. Those that differ are kept.
    // java.util.stream.Stream, distinct
    final fn distinct(self) -> BarredLines<Self, Distinct, Nothing<Self::Item>>
        ensures { result.upstream ≡ self }
    {
        BarredLines::new(self, Distinct::new())
    }

    /// The result of a collector on all the items. As many blocks are worked on at once as there are workers, each by a thread of its own, while the
    /// caller's thread reads the next one: memory is that of so many blocks and their containers, however much the reader has. In front of an operation
    /// that looks at many items, and where there is but one worker, one block is worked on by all workers, while another thread reads the next one.
    ///
    /// ```text
    /// lines_of(file).map_lines(Number).collect_on(&engine, &Counting::new())?
    /// ```
    // java.util.stream.Stream, collect
    final fn collect_on<C: Collector<Item = Self::Item> + Sync>(
        self,
        engine: &Engine<'_, impl Threads + Clock + Wait + Sync, impl Gate + Sync>,
        collector: &C,
    ) -> Result<C::Out, LinesError>
    where
        C::Acc: Send,
        C::Out: Send,
        requires lines { Self.ready self }
        requires collector { C.ready collector.now }
        ensures faults { IfErr result (IsFault (Self.longest self) (Self.known self)) }
        ensures value { let value = Self.value self in
            IfOk result (λ out. IfSome (Self.known self)
            (λ bytes. C.gives collector.now (value bytes) out)) }
    {
        let lines = self.into_lines();
        collect_lines(
            engine,
            lines.reader,
            lines.size,
            lines.longest,
            &lines.steps,
            collector,
            &AtTheEnd,
        )
    }

    /// The same, where no more is read than the block that decides the result, the blocks at work beside it, and one behind them. Nothing is told of what
    /// goes wrong in those.
    ///
    /// ```text
    /// let rows = lines_of(file).map_lines(Parsed);    // Ok(5), Err(..), Ok(7)
    /// rows.collect_decided(&engine, &Trying::new(SummingLong::new(Itself)))?    // the Err
    /// ```
    // java.util.stream, package summary, Stream operations and pipelines (short-circuiting)
    final fn collect_decided<C: Deciding<Item = Self::Item> + Sync>(
        self,
        engine: &Engine<'_, impl Threads + Clock + Wait + Sync, impl Gate + Sync>,
        collector: &C,
    ) -> Result<C::Out, LinesError>
    where
        C::Acc: Send,
        C::Out: Send,
        requires lines { Self.ready self }
        requires collector { C.ready collector.now }
        ensures faults { IfErr result (IsFault (Self.longest self) (Self.known self)) }
        ensures value { let value = Self.value self in
            IfOk result (λ out. IfSome (Self.known self)
            (λ bytes. C.gives collector.now (value bytes) out)) }
    {
        let lines = self.into_lines();
        collect_lines(
            engine,
            lines.reader,
            lines.size,
            lines.longest,
            &lines.steps,
            collector,
            &OnceDecided,
        )
    }

    /// The number of items, as an `i64` that wraps.
    // java.util.stream.Stream, count
    final fn count_on(
        self,
        engine: &Engine<'_, impl Threads + Clock + Wait + Sync, impl Gate + Sync>,
    ) -> Result<i64, LinesError>
        requires { Self.ready self }
        ensures faults { IfErr result (IsFault (Self.longest self) (Self.known self)) }
        ensures value { let value = Self.value self in
            IfOk result (λ n. IfSome (Self.known self)
            (λ bytes. n ≡ wrapped (pos (length (value bytes))))) }
    {
        self.collect_on(engine, &Counting::new())
    }

    /// The first item, or none. No more is read than by [`collect_decided`](LineStream::collect_decided).
    // java.util.stream.Stream, findFirst
    final fn find_first_on(
        self,
        engine: &Engine<'_, impl Threads + Clock + Wait + Sync, impl Gate + Sync>,
    ) -> Result<Option<Self::Item>, LinesError>
        requires lines { Self.ready self }
        requires clones { ClonesAlike Self.Item.is_clone Self.Item.content }
        ensures faults { IfErr result (IsFault (Self.longest self) (Self.known self)) }
        ensures value { let value = Self.value self in
            IfOk result (λ found. IfSome (Self.known self)
            (λ bytes. option_map Self.Item.content found ≡ first (value bytes))) }
    {
        let lines = self.into_lines();
        collect_lines(
            engine,
            lines.reader,
            lines.size,
            lines.longest,
            &lines.steps,
            &First::new(),
            &OnceFound,
        )
    }

    /// Whether some item meets the test. No more is read than by [`collect_decided`](LineStream::collect_decided).
    // java.util.stream.Stream, anyMatch
    final fn any_match_on<P: Test<Self::Item> + Sync>(
        self,
        engine: &Engine<'_, impl Threads + Clock + Wait + Sync, impl Gate + Sync>,
        test: &P,
    ) -> Result<bool, LinesError>
        requires lines { Self.ready self }
        requires test { P.ready test.now }
        ensures faults { IfErr result (IsFault (Self.longest self) (Self.known self)) }
        ensures value { let value = Self.value self in
            IfOk result (λ met. IfSome (Self.known self)
            (λ bytes. met ≡ any_meets (P.holds test.now) (value bytes))) }
    {
        let lines = self.into_lines();
        collect_lines(
            engine,
            lines.reader,
            lines.size,
            lines.longest,
            &lines.steps,
            &Meeting::new(test),
            &OnceFound,
        )
    }

    /// Whether every item meets the test, as where there is no item. No more is read than by [`collect_decided`](LineStream::collect_decided).
    // java.util.stream.Stream, allMatch
    final fn all_match_on<P: Test<Self::Item> + Sync>(
        self,
        engine: &Engine<'_, impl Threads + Clock + Wait + Sync, impl Gate + Sync>,
        test: &P,
    ) -> Result<bool, LinesError>
        requires lines { Self.ready self }
        requires test { P.ready test.now }
        ensures faults { IfErr result (IsFault (Self.longest self) (Self.known self)) }
        ensures value { let value = Self.value self in
            IfOk result (λ met. IfSome (Self.known self)
            (λ bytes. met ≡ all_meet (P.holds test.now) (value bytes))) }
    {
        Ok(!self.any_match_on(engine, &Not(test))?)
    }

    /// Whether no item meets the test. No more is read than by [`collect_decided`](LineStream::collect_decided).
    // java.util.stream.Stream, noneMatch
    final fn none_match_on<P: Test<Self::Item> + Sync>(
        self,
        engine: &Engine<'_, impl Threads + Clock + Wait + Sync, impl Gate + Sync>,
        test: &P,
    ) -> Result<bool, LinesError>
        requires lines { Self.ready self }
        requires test { P.ready test.now }
        ensures faults { IfErr result (IsFault (Self.longest self) (Self.known self)) }
        ensures value { let value = Self.value self in
            IfOk result (λ met. IfSome (Self.known self)
            (λ bytes. met ≡ not (any_meets (P.holds test.now) (value bytes)))) }
    {
        Ok(!self.any_match_on(engine, test)?)
    }

    /// Hands the items to a sink, in encounter order and in the caller's thread, those of a block as soon as they are made. Where there is an error,
    /// the items before its block have been handed over. No more is read than the block behind one that fills the sink, and nothing is told of what goes
    /// wrong there; a sink that is full before is handed nothing.
    ///
    /// ```text
    /// lines_of(log).map_lines(OwnLine { alloc }).filter(Failed).for_each_ordered(&engine, &mut list)?
    /// ```
    // java.util.stream.Stream, forEachOrdered
    final fn for_each_ordered<K: Sink<Self::Item>>(
        self,
        engine: &Engine<'_, impl Threads + Clock + Sync, impl Gate + Sync>,
        action: &mut K,
    ) -> Result<(), LinesError>
        requires lines { Self.ready self }
        requires action { K.ready action.old }
        requires clones { ClonesAlike Self.Item.is_clone Self.Item.content }
        ensures faults { IfErr result (IsFault (Self.longest self) (Self.known self)) }
        ensures taken { OnOk result (IfSome (Self.known self)
            (λ bytes. K.takes action.old (Self.value self bytes) action.new)) }
        ensures spoilt { OnErr result (K.spoils action.old action.new) }
    {
        let lines = self.into_lines();
        if action.is_full() {
            return Ok(());
        }
        hand_lines(
            engine,
            lines.reader,
            lines.size,
            lines.longest,
            &lines.steps,
            action,
        )
    }
}
