//! Lines of a reader behind an operation that looks at many items.
ghost use Rattle.std.specs.Prelude.{◌≡◌, flat_map};
ghost use Rattle.spliterator.specs.Clones.{ClonesAlike};

use crate::{Between, LineParts, LineSteps, LineStream, Linked};
use barriers::Barrier;
use spliterator::OrderedValue;
use stages::{Filter, FlatMap, ListValue, Map, Mapping, Nothing, Stage, Test, Then};

/// What an operation that looks at many items leaves of the lines of a reader, through a stage. What stands in front of the first such operation, and
/// behind the last, runs on all workers; the operations, and the stages between them, run in the caller's thread.
#[derive(Drop)]
pub struct BarredLines<L, B, Z> {
    pub upstream: L,
    pub barrier: B,
    pub stage: Z,
}

impl<L: LineStream, B> BarredLines<L, B, Nothing<L::Item>> {
    pub(crate) fn new(upstream: L, barrier: B) -> BarredLines<L, B, Nothing<L::Item>>
        ensures upstream { result.upstream ≡ upstream }
        ensures barrier { result.barrier ≡ barrier }
    {
        BarredLines {
            upstream,
            barrier,
            stage: Nothing::new(),
        }
    }
}

impl<L: LineStream, B, Z: Stage<In = L::Item>> BarredLines<L, B, Z> {
    /// The items through one stage more.
    pub fn then<M: Stage<In = Z::Out>>(self, stage: M) -> BarredLines<L, B, Then<Z, M>>
        ensures upstream { result.upstream ≡ self.upstream }
        ensures barrier { result.barrier ≡ self.barrier }
        ensures first { result.stage.first ≡ self.stage }
        ensures second { result.stage.second ≡ stage }
    {
        BarredLines {
            upstream: self.upstream,
            barrier: self.barrier,
            stage: Then::new(self.stage, stage),
        }
    }

    /// One image an item.
    // java.util.stream.Stream, map
    pub fn map<M: Mapping<Z::Out>>(self, mapping: M) -> BarredLines<L, B, Then<Z, Map<Z::Out, M>>>
    where
        M::Out: OrderedValue + Drop,
        ensures upstream { result.upstream ≡ self.upstream }
        ensures barrier { result.barrier ≡ self.barrier }
        ensures first { result.stage.first ≡ self.stage }
        ensures mapping { result.stage.second.mapping ≡ mapping }
    {
        self.then(Map::new(mapping))
    }

    /// The items that meet a test.
    // java.util.stream.Stream, filter
    pub fn filter<P: Test<Z::Out>>(self, test: P) -> BarredLines<L, B, Then<Z, Filter<Z::Out, P>>>
        ensures upstream { result.upstream ≡ self.upstream }
        ensures barrier { result.barrier ≡ self.barrier }
        ensures first { result.stage.first ≡ self.stage }
        ensures test { result.stage.second.test ≡ test }
    {
        self.then(Filter::new(test))
    }

    /// In the place of each item, the items of the list that the mapping makes of it.
    // java.util.stream.Stream, flatMap
    pub fn flat_map<M: Mapping<Z::Out>>(
        self,
        mapping: M,
    ) -> BarredLines<L, B, Then<Z, FlatMap<Z::Out, M>>>
    where
        M::Out: ListValue,
        ensures upstream { result.upstream ≡ self.upstream }
        ensures barrier { result.barrier ≡ self.barrier }
        ensures first { result.stage.first ≡ self.stage }
        ensures mapping { result.stage.second.mapping ≡ mapping }
    {
        self.then(FlatMap::new(mapping))
    }
}

impl<L: LineStream, B: Barrier<L::Item> + Drop, Z: Stage<In = L::Item> + Sync + Drop> LineStream
    for BarredLines<L, B, Z>
where
    Z::Out: Clone + Send + Sync,
{
    type Item = Z::Out;

    type Reader = L::Reader;

    type Function = L::Function;

    type Lead = L::Lead;

    type First = L::First;

    type Barriers = Linked<L::Barriers, L::Last, B>;

    type Last = Z;

    ghost ready = { λ s. L.ready s.upstream × B.Demand.ready s.barrier × B.can_carry s.barrier × Z.ready s.stage
        × ClonesAlike L.Lead.is_clone L.Lead.content × ClonesAlike L.Item.is_clone L.Item.content };

    ghost known = { λ s. L.known s.upstream };

    ghost longest = { λ s. L.longest s.upstream };

    ghost value = { λ s bytes. flat_map (Z.expand s.stage) (B.value s.barrier (L.value s.upstream bytes)) };

    fn into_lines(
        self,
    ) -> LineParts<
        L::Reader,
        L::Function,
        L::First,
        Linked<L::Barriers, L::Last, B>,
        Then<<L::Barriers as Between>::Stages, L::Last>,
        Z,
    > {
        let lines = self.upstream.into_lines();
        let LineSteps {
            function,
            first,
            barriers,
            between,
            last,
        } = lines.steps;
        LineParts {
            reader: lines.reader,
            size: lines.size,
            longest: lines.longest,
            steps: LineSteps {
                function,
                first,
                barriers: Linked::new(barriers, self.barrier),
                between: Then::new(between, last),
                last: self.stage,
            },
        }
    }
}
