//! Groups and parts that are lists.
ghost use Rattle.std.specs.Prelude.{◌≡◌};
ghost use Rattle.spliterator.specs.Clones.{ClonesAlike};

use collectors::{GroupingBy, PartitioningBy, ToList};
use spliterator::Value;
use stages::{Mapping, Test};
use std::alloc::Global;

/// For each key the list of the items with that key, as clones. Java's `Collectors.groupingBy(classifier)`:
///
///     let lists = collect(&grouping_by(rt.alloc(), Modulo::by(2)), &[5, 2, 7, 4, 5])?;    // {1=[5, 7, 5], 0=[2, 4]}
///
/// A clone of an item must have its content.
pub fn grouping_by<T: Value + Clone, K: Mapping<T>>(
    alloc: Global,
    key: K,
) -> GroupingBy<K, ToList<T>>
    requires clones { ClonesAlike T.is_clone T.content }
    ensures key { result.key ≡ key }
{
    GroupingBy::new(alloc, key, ToList::new(alloc))
}

/// The list of the items that fail the test, and of those that meet it, as clones. Java's `Collectors.partitioningBy(predicate)`:
///
///     let lists = collect(&partitioning_by(rt.alloc(), Even), &[5, 2, 7, 4, 5])?;    // no: [5, 7, 5], yes: [2, 4]
///
/// A clone of an item must have its content.
pub fn partitioning_by<T: Value + Clone, P: Test<T>>(
    alloc: Global,
    test: P,
) -> PartitioningBy<P, ToList<T>>
    requires clones { ClonesAlike T.is_clone T.content }
    ensures test { result.test ≡ test }
{
    PartitioningBy::new(test, ToList::new(alloc))
}
