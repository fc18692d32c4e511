//! Sorted lists as results of collectors.
ghost use Rattle.std.specs.Prelude.{◌≡◌, map};
ghost use Rattle.spliterator.specs.Clones.{ClonesAlike};
ghost use Rattle.terminals.specs.Sorted.{IsSortedList, by_key};

use crate::keys::{with_keys, without_keys};
use crate::ordering::{promise_contents, sort_list_here, sort_pairs_here};
use collectors::ToList;
use derived_collectors::{CollectingAndThen, Finisher};
use spliterator::{NoMemory, SortedValue, Value};
use stages::Mapping;
use std::alloc::Global;

/// Sorts a list by the order of its members, of which equal ones are one value.
#[derive(Drop)]
pub struct Sorting;

impl<T: SortedValue + Drop> Finisher<Vec<T>> for Sorting {
    type Out = Vec<T>;

    ghost gives = { λ _ list sorted. IsSortedList T.order (map T.content list.items) (map T.content sorted.items) };

    fn apply(&self, whole: Vec<T>) -> Result<Vec<T>, NoMemory> {
        let mut list = whole;
        sort_list_here(&mut list)?;
        promise_contents(&list);
        Ok(list)
    }
}

/// Sorts a list by keys of its members. Those whose keys are equal stay in their order.
#[derive(Drop)]
pub struct SortingBy<K>(pub K);

impl<T: Value + Drop, K: Mapping<T>> Finisher<Vec<T>> for SortingBy<K>
where
    K::Out: SortedValue + Drop,
{
    type Out = Vec<T>;

    ghost ready = { λ s. K.ready s.0 };

    ghost gives = { λ s list sorted. IsSortedList (by_key (K.image s.0) K.Out.order) (map T.content list.items) (map T.content sorted.items) };

    fn apply(&self, whole: Vec<T>) -> Result<Vec<T>, NoMemory> {
        let alloc = *whole.allocator();
        let mut pairs = with_keys(alloc, &self.0, whole)?;
        sort_pairs_here(&mut pairs)?;
        Ok(without_keys(alloc, &self.0, pairs)?)
    }
}

/// The items as a list in ascending order, as clones, of which equal ones are one value:
///
///     let list = collect(&to_sorted_list::<i64>(rt.alloc()), &[5, 2, 7])?;    // 2, 5, 7
///
/// A clone of an item must have its content.
pub fn to_sorted_list<T: SortedValue + Clone>(
    alloc: Global,
) -> CollectingAndThen<ToList<T>, Sorting>
    requires clones { ClonesAlike T.is_clone T.content }
{
    CollectingAndThen::new(ToList::new(alloc), Sorting)
}

/// The items as a list in the ascending order of their keys, as clones, and those whose keys are equal in encounter order. Each item is asked
/// for its key once:
///
///     let list = collect(&to_sorted_list_by_key(rt.alloc(), Length), &["not", "to", "be"])?;    // "to", "be", "not"
///
/// A clone of an item must have its content.
pub fn to_sorted_list_by_key<T: Value + Clone, K: Mapping<T>>(
    alloc: Global,
    key: K,
) -> CollectingAndThen<ToList<T>, SortingBy<K>>
where
    K::Out: SortedValue + Drop,
    requires clones { ClonesAlike T.is_clone T.content }
    ensures key { result.finisher.0 ≡ key }
{
    CollectingAndThen::new(ToList::new(alloc), SortingBy(key))
}
