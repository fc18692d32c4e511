//! A collector over the members of the items' images, which are lists.
ghost use Rattle.std.specs.Prelude.{◌≡◌, All, flat_map};
ghost use Rattle.derived_collectors.specs.FlatMapping.{members_of, add_members, image_members_laws};

use collectors::Collector;
use spliterator::{NoMemory, OrderedValue, Value};
use stages::{ListValue, Mapping};
use std::marker::PhantomData;

/// A list whose members are values where it is one itself, as a `Vec` is.
pub trait ListOfValues: ListValue {
    ghost members_are_values: { (list : Self.Content) → Self.is_value list → All Self.Item.is_value (Self.items list) };
}

impl<T: OrderedValue + Drop> ListOfValues for Vec<T> {
    ghost members_are_values = { λ _ values. values };
}

/// The downstream result over the members of the items' images, one image behind the other. Java's `Collectors.flatMapping`. Where `Copies`
/// makes of a number n the list of n times n:
///
///     let copies = FlatMappingTo::<i64, _, _>::new(Copies, ToList::new(rt.alloc()));
///     let list = collect(&copies, &[2, 0, 3])?;    // [2, 2, 3, 3, 3]
#[derive(Drop)]
pub struct FlatMappingTo<T, M, D> {
    pub mapping: M,
    pub downstream: D,
    items: PhantomData<T>,
}

impl<T, M, D> FlatMappingTo<T, M, D> {
    pub fn new(mapping: M, downstream: D) -> FlatMappingTo<T, M, D>
        ensures mapping { result.mapping ≡ mapping }
        ensures downstream { result.downstream ≡ downstream }
    {
        FlatMappingTo {
            mapping,
            downstream,
            items: PhantomData,
        }
    }
}

impl<T: Value, M: Mapping<T>, D: Collector<Item = <M::Out as ListValue>::Item>> Collector
    for FlatMappingTo<T, M, D>
where
    M::Out: ListOfValues,
{
    type Item = T;

    type Acc = D::Acc;

    type Out = D::Out;

    ghost ready = { λ c. M.ready c.mapping × D.ready c.downstream };

    ghost Content = { D.Content };

    ghost content = { λ c. D.content c.downstream };

    ghost empty = { λ c. D.empty c.downstream };

    ghost add = { λ c. add_members (members_of (M.image c.mapping) M.Out.items) (D.empty c.downstream) (D.add c.downstream) };

    ghost merge = { λ c. D.merge c.downstream };

    ghost gives = { λ c l. D.gives c.downstream (flat_map (members_of (M.image c.mapping) M.Out.items) l) };

    ghost laws = { λ c. let by_image = image_members_laws (M.image c.mapping) M.Out.items (D.empty c.downstream) (D.add c.downstream) in
        let laws = by_image T.is_value M.Out.is_value M.Out.Item.is_value in
        laws (M.images_are_values c.mapping) M.Out.members_are_values (D.merge c.downstream) (D.laws c.downstream) };

    fn supply(&self) -> Result<D::Acc, NoMemory> {
        self.downstream.supply()
    }

    fn accumulate(&self, acc: &mut D::Acc, x: &T) -> Result<(), NoMemory> {
        let mut members = self.mapping.image(x)?.into_items();
        self.downstream.accumulate_all_owned(acc, &mut members)
    }

    fn combine(&self, left: &mut D::Acc, right: D::Acc) -> Result<(), NoMemory> {
        self.downstream.combine(left, right)
    }

    fn finish(&self, acc: D::Acc) -> Result<D::Out, NoMemory> {
        self.downstream.finish(acc)
    }

    fn is_light(&self, acc: &D::Acc) -> bool {
        self.downstream.is_light(acc)
    }
}
