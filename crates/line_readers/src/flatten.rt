//! Lists as items, of which each member becomes an item.
ghost use Rattle.std.specs.Prelude.{None};
ghost use Rattle.stages.specs.declared.flags.Operation.TheVariants.{FlatMap as flat_map_row};
ghost use Rattle.stages.specs.FlagLaws.{KeepsSound-flat_map};

use spliterator::{NoMemory, OrderedValue};
use stages::{ListValue, Operation, Sink, Stage};
use std::marker::PhantomData;

/// In the place of each list its members, which are moved out of it: none is cloned.
#[derive_where(Clone, Copy)]
#[derive(Drop)]
pub struct Flatten<L> {
    lists: PhantomData<L>,
}

impl<L> Flatten<L> {
    pub fn new() -> Flatten<L> {
        Flatten { lists: PhantomData }
    }
}

impl<L: ListValue + OrderedValue + Drop> Stage for Flatten<L> {
    type In = L;

    type Out = L::Item;

    ghost expand = { λ _ list. L.items list };

    ghost operation = { λ _. flat_map_row };

    ghost size_after = { λ _ _. None };

    ghost flag_law = { λ _. KeepsSound-flat_map L.order L.Item.order L.items };

    fn feed<K: Sink<L::Item>>(&self, x: L, sink: &mut K) -> Result<(), NoMemory> {
        sink.take_all(&mut x.into_items())
    }

    fn operation(&self) -> Operation {
        Operation::FlatMap
    }

    fn size_after(&self, _size: Option<u64>) -> Option<u64> {
        None
    }
}
