//! The first items of the sorted list.
ghost use Rattle.std.specs.Prelude.{◌≡◌, List, [], map};
ghost use Rattle.spliterator.specs.Clones.{ClonesAlike, TestsClonesAlike};
ghost use Rattle.collectors.specs.Grouping.{contents};
ghost use Rattle.terminals.specs.Sorted.{by_key};
ghost use Rattle.terminals.specs.Insertion.{first_sorted, merge_first};
ghost use Rattle.terminals.specs.FirstSorted.{key_below, add_keyed, first_laws, IsFrontOfSorted};

use crate::first_pairs::FirstPairs;
use crate::keys::second_parts;
use collectors::Collector;
use spliterator::{NoMemory, SortedValue, Value};
use stages::Mapping;
use std::alloc::Global;
use std::marker::PhantomData;

/// The most pairs of a light container.
const LIGHT_PAIRS: usize = 64;

/// The `number` items of the least keys, or all, in the ascending order of their keys, and those whose keys are equal in encounter order: as
/// `sorted` and then `limit`. The greatest ones by a `Descending` key.
///
///     let shortest = FirstSorted::<&str, _>::new(rt.alloc(), Length, 2);
///     let words = collect(&shortest, &["not", "to", "be", "or"])?;    // "to", "be"
#[derive(Drop)]
pub struct FirstSorted<T: Value + Clone, K> {
    alloc: Global,
    pub key: K,
    pub number: usize,
    items: PhantomData<T>,
    ghost clones_alike: { TestsClonesAlike T.same T.is_clone T.content },
}

impl<T: Value + Clone, K> FirstSorted<T, K> {
    /// A clone of an item must have its content.
    pub fn new(alloc: Global, key: K, number: usize) -> FirstSorted<T, K>
        requires clones { ClonesAlike T.is_clone T.content }
        ensures key { result.key ≡ key }
        ensures number { result.number ≡ number }
    {
        FirstSorted {
            alloc,
            key,
            number,
            items: PhantomData,
        }
    }
}

impl<T: Value + Clone, K: Mapping<T>> Collector for FirstSorted<T, K>
where
    K::Out: SortedValue + Drop,
{
    type Item = T;

    type Acc = FirstPairs<K::Out, T>;

    type Out = Vec<T>;

    ghost ready = { λ c. K.ready c.key };

    ghost Content = { List (K.Out.Content × T.Content) };

    ghost content = { λ c first. first_sorted (key_below K.Out.order) c.number (contents K.Out.content T.content first.pairs.items) };

    ghost empty = { λ _. [] };

    ghost add = { λ c. add_keyed K.Out.order (K.image c.key) c.number };

    ghost merge = { λ c. merge_first (key_below K.Out.order) c.number };

    ghost gives = { λ c l first. IsFrontOfSorted (by_key (K.image c.key) K.Out.order) c.number l (map T.content first.items) };

    ghost laws = { λ c. first_laws K.Out.order (K.image c.key) K.Out.order_total c.number T.is_value };

    fn supply(&self) -> Result<FirstPairs<K::Out, T>, NoMemory> {
        Ok(FirstPairs::new(self.alloc))
    }

    fn accumulate(&self, acc: &mut FirstPairs<K::Out, T>, x: &T) -> Result<(), NoMemory> {
        if let Some(key) = acc.key_inside(self.number, &self.key, x)? {
            acc.put(self.number, (key, x.clone()?))?;
        }
        Ok(())
    }

    fn accumulate_all(&self, acc: &mut FirstPairs<K::Out, T>, items: &[T]) -> Result<(), NoMemory> {
        let mut left = items;
        while let Some((key, item, behind)) = acc.first_inside(self.number, &self.key, left)? {
            acc.put(self.number, (key, item.clone()?))?;
            left = behind;
        }
        Ok(())
    }

    fn accumulate_owned(&self, acc: &mut FirstPairs<K::Out, T>, x: T) -> Result<(), NoMemory> {
        if let Some(key) = acc.key_inside(self.number, &self.key, &x)? {
            acc.put(self.number, (key, x))?;
        }
        Ok(())
    }

    fn combine(
        &self,
        left: &mut FirstPairs<K::Out, T>,
        right: FirstPairs<K::Out, T>,
    ) -> Result<(), NoMemory> {
        left.append(self.number, right.pairs)?;
        Ok(())
    }

    fn finish(&self, mut acc: FirstPairs<K::Out, T>) -> Result<Vec<T>, NoMemory> {
        acc.keep_first(self.number)?;
        Ok(second_parts(self.alloc, acc.pairs)?)
    }

    fn is_light(&self, acc: &FirstPairs<K::Out, T>) -> bool {
        acc.pairs.len() <= LIGHT_PAIRS
    }
}
