//! The stateless stages of a stream.
ghost use Rattle.std.specs.Prelude.{◌≡◌, [], ◌∷◌, cond, flat_map, None};
ghost use Rattle.stages.specs.declared.flags.Operation.TheVariants.{Map as map_row, Filter as filter_row, FlatMap as flat_map_row};
ghost use Rattle.stages.specs.FlagLaws.{KeepsSound-map, KeepsSound-filter, KeepsSound-flat_map};

use crate::{ListValue, Mapping, Onward, Operation, Sink, Stage, Test};
use spliterator::{NoMemory, OrderedValue, Value};
use std::marker::PhantomData;

/// One image an item (`java.util.stream.Stream`, `map`).
#[derive_where(Clone, Copy; M)]
#[derive(Drop)]
pub struct Map<T, M> {
    pub mapping: M,
    items: PhantomData<T>,
}

impl<T, M> Map<T, M> {
    pub fn new(mapping: M) -> Map<T, M>
        ensures { result.mapping ≡ mapping }
    {
        Map {
            mapping,
            items: PhantomData,
        }
    }
}

impl<T: OrderedValue + Drop, M: Mapping<T>> Stage for Map<T, M>
where
    M::Out: OrderedValue + Drop,
{
    type In = T;

    type Out = M::Out;

    ghost ready = { λ s. M.ready s.mapping };

    ghost expand = { λ s x. M.image s.mapping x ∷ [] };

    ghost operation = { λ _. map_row };

    ghost size_after = { λ _ size. size };

    ghost flag_law = { λ s. KeepsSound-map T.order M.Out.order (M.image s.mapping) };

    fn feed<K: Sink<M::Out>>(&self, x: T, sink: &mut K) -> Result<(), NoMemory> {
        sink.take(self.mapping.image(&x)?)
    }

    fn operation(&self) -> Operation {
        Operation::Map
    }

    fn size_after(&self, size: Option<u64>) -> Option<u64> {
        size
    }
}

/// The items that meet a test (`java.util.stream.Stream`, `filter`).
#[derive_where(Clone, Copy; P)]
#[derive(Drop)]
pub struct Filter<T, P> {
    pub test: P,
    items: PhantomData<T>,
}

impl<T, P> Filter<T, P> {
    pub fn new(test: P) -> Filter<T, P>
        ensures { result.test ≡ test }
    {
        Filter {
            test,
            items: PhantomData,
        }
    }
}

impl<T: OrderedValue + Drop, P: Test<T>> Stage for Filter<T, P> {
    type In = T;

    type Out = T;

    ghost ready = { λ s. P.ready s.test };

    ghost expand = { λ s x. cond (P.holds s.test x) (x ∷ []) [] };

    ghost operation = { λ _. filter_row };

    ghost size_after = { λ _ _. None };

    ghost flag_law = { λ s. KeepsSound-filter T.order (P.holds s.test) };

    fn feed<K: Sink<T>>(&self, x: T, sink: &mut K) -> Result<(), NoMemory> {
        if self.test.holds(&x) {
            sink.take(x)
        } else {
            Ok(())
        }
    }

    fn operation(&self) -> Operation {
        Operation::Filter
    }

    fn size_after(&self, _size: Option<u64>) -> Option<u64> {
        None
    }
}

// About how many items a list in the place of an item has, where nothing is known of it.
const IMAGES: u64 = 16;

/// The items of a list in the place of each item (`java.util.stream.Stream`, `flatMap`): the image of an item is a `Vec`, or another
/// `ListValue`.
#[derive_where(Clone, Copy; M)]
#[derive(Drop)]
pub struct FlatMap<T, M> {
    pub mapping: M,
    items: PhantomData<T>,
}

impl<T, M> FlatMap<T, M> {
    pub fn new(mapping: M) -> FlatMap<T, M>
        ensures { result.mapping ≡ mapping }
    {
        FlatMap {
            mapping,
            items: PhantomData,
        }
    }
}

impl<T: OrderedValue + Drop, M: Mapping<T>> Stage for FlatMap<T, M>
where
    M::Out: ListValue,
{
    type In = T;

    type Out = <M::Out as ListValue>::Item;

    ghost ready = { λ s. M.ready s.mapping };

    ghost expand = { λ s x. M.Out.items (M.image s.mapping x) };

    ghost operation = { λ _. flat_map_row };

    ghost size_after = { λ _ _. None };

    ghost flag_law = { λ s. KeepsSound-flat_map T.order M.Out.Item.order (λ x. M.Out.items (M.image s.mapping x)) };

    fn feed<K: Sink<<M::Out as ListValue>::Item>>(
        &self,
        x: T,
        sink: &mut K,
    ) -> Result<(), NoMemory> {
        let mut images = self.mapping.image(&x)?.into_items();
        sink.take_all(&mut images)
    }

    fn growth(&self) -> u64 {
        IMAGES
    }

    fn operation(&self) -> Operation {
        Operation::FlatMap
    }

    fn size_after(&self, _size: Option<u64>) -> Option<u64> {
        None
    }
}

/// Each item as it is.
#[derive_where(Clone, Copy)]
#[derive(Drop)]
pub struct Nothing<T> {
    by_blocks: bool,
    items: PhantomData<T>,
}

impl<T> Nothing<T> {
    pub fn new() -> Nothing<T> {
        Nothing {
            by_blocks: false,
            items: PhantomData,
        }
    }

    /// Of which a leaf that has no stage before it had better be read in blocks.
    pub fn in_blocks() -> Nothing<T> {
        Nothing {
            by_blocks: true,
            items: PhantomData,
        }
    }
}

impl<T: OrderedValue + Drop> Stage for Nothing<T> {
    type In = T;

    type Out = T;

    ghost expand = { λ _ x. x ∷ [] };

    ghost operation = { λ _. map_row };

    ghost size_after = { λ _ size. size };

    ghost flag_law = { λ _. KeepsSound-map T.order T.order (λ x. x) };

    fn feed<K: Sink<T>>(&self, x: T, sink: &mut K) -> Result<(), NoMemory> {
        sink.take(x)
    }

    fn prefers_blocks(&self) -> bool {
        self.by_blocks
    }

    // What comes item by item isn't gathered in blocks for nothing.
    fn prefers_blocks_behind(&self) -> bool {
        false
    }

    fn feed_all<K: Sink<T>>(&self, items: &mut Vec<T>, sink: &mut K) -> Result<(), NoMemory> {
        sink.take_all(items)
    }

    fn lent_block<'a>(&'a self, items: &'a [T]) -> Option<&'a [T]> {
        Some(items)
    }

    fn operation(&self) -> Operation {
        Operation::Map
    }

    fn size_after(&self, size: Option<u64>) -> Option<u64> {
        size
    }
}

/// One stage after another: the second's expansions of what the first gives.
#[derive_where(Clone, Copy; A, B)]
#[derive(Drop)]
pub struct Then<A, B> {
    pub first: A,
    pub second: B,
}

impl<A, B> Then<A, B> {
    pub fn new(first: A, second: B) -> Then<A, B>
        ensures first { result.first ≡ first }
        ensures second { result.second ≡ second }
    {
        Then { first, second }
    }
}

impl<A: Stage, B: Stage<In = A::Out>> Stage for Then<A, B> {
    type In = A::In;

    type Out = B::Out;

    ghost ready = { λ s. A.ready s.first × B.ready s.second };

    ghost expand = { λ s x. flat_map (B.expand s.second) (A.expand s.first x) };

    ghost operation = { λ _. flat_map_row };

    ghost size_after = { λ _ _. None };

    ghost flag_law = { λ s. KeepsSound-flat_map A.In.order B.Out.order (λ x. flat_map (B.expand s.second) (A.expand s.first x)) };

    fn feed<K: Sink<B::Out>>(&self, x: A::In, sink: &mut K) -> Result<(), NoMemory> {
        let mut onward = Onward::new(&self.second, sink);
        self.first.feed(x, &mut onward)
    }

    fn feed_all<K: Sink<B::Out>>(
        &self,
        items: &mut Vec<A::In>,
        sink: &mut K,
    ) -> Result<(), NoMemory> {
        let mut onward = Onward::new(&self.second, sink);
        self.first.feed_all(items, &mut onward)
    }

    // Where the second does, a first that passes a block on is no loss.
    fn prefers_blocks(&self) -> bool {
        self.first.prefers_blocks() || self.second.prefers_blocks_behind()
    }

    fn prefers_blocks_behind(&self) -> bool {
        self.first.prefers_blocks_behind() || self.second.prefers_blocks_behind()
    }

    fn lent_block<'a>(&'a self, items: &'a [A::In]) -> Option<&'a [B::Out]> {
        self.second.lent_block(self.first.lent_block(items)?)
    }

    fn growth(&self) -> u64 {
        self.first.growth().saturating_mul(self.second.growth())
    }

    fn operation(&self) -> Operation {
        Operation::FlatMap
    }

    fn size_after(&self, _size: Option<u64>) -> Option<u64> {
        None
    }
}
