//! Checks of collectors that are made of others. Each takes the parts, so that the type of the whole is named here alone.
ghost use Rattle.spliterator.specs.Values.{IsI64};
ghost use Rattle.stages.specs.Operators.{IsAssociative};

use super::cuts::check;
use super::shown::Shown;
use collectors::{Collector, GroupingBy, PartitioningBy, Reducing, ToMap, ToMapStrict};
use spliterator::{EqualValue, NoMemory, Value};
use stages::{Mapping, Operator};
use std::alloc::Global;
use std::hash::Hash;
use std::process::Abort;
use stream_functions::Above;

/// Checks groups by a key.
pub fn check_groups<K: Mapping<D::Item> + Drop, D: Collector + Drop>(
    rt: &impl Abort,
    alloc: Global,
    key: K,
    downstream: D,
    rows: &[(&[D::Item], &str)],
) -> Result<(), NoMemory>
where
    K::Out: EqualValue + Hash + Drop + Shown,
    D::Item: Clone + Drop,
    D::Out: Shown,
    requires key { K.ready key }
    requires downstream { D.ready downstream }
{
    check(rt, alloc, GroupingBy::new(alloc, key, downstream), rows)
}

/// Checks groups by a key that are groups by another.
pub fn check_groups_of_groups<
    K: Mapping<D::Item> + Drop,
    L: Mapping<D::Item> + Drop,
    D: Collector + Drop,
>(
    rt: &impl Abort,
    alloc: Global,
    key: K,
    inner_key: L,
    downstream: D,
    rows: &[(&[D::Item], &str)],
) -> Result<(), NoMemory>
where
    K::Out: EqualValue + Hash + Drop + Shown,
    L::Out: EqualValue + Hash + Drop + Shown,
    D::Item: Clone + Drop,
    D::Out: Shown,
    requires key { K.ready key }
    requires inner_key { L.ready inner_key }
    requires downstream { D.ready downstream }
{
    let inner = GroupingBy::new(alloc, inner_key, downstream);
    check_groups(rt, alloc, key, inner, rows)
}

/// Checks the two parts of numbers, those that are above a limit and the others.
pub fn check_parts<D: Collector<Item = i64> + Drop>(
    rt: &impl Abort,
    alloc: Global,
    limit: i64,
    downstream: D,
    rows: &[(&[i64], &str)],
) -> Result<(), NoMemory>
where
    D::Out: Shown,
    requires { D.ready downstream }
{
    check(
        rt,
        alloc,
        PartitioningBy::new(Above(limit), downstream),
        rows,
    )
}

/// Checks numbers that are joined by an operator.
pub fn check_reduced<O: Operator<i64> + Drop>(
    rt: &impl Abort,
    alloc: Global,
    operator: O,
    rows: &[(&[i64], &str)],
) -> Result<(), NoMemory>
    requires operator { O.ready operator }
    requires associative { IsAssociative IsI64 (O.join operator) }
{
    check(rt, alloc, Reducing::<i64, _>::new(operator), rows)
}

/// Checks a map whose values of one key are merged.
pub fn check_map<
    T: Value + Clone + Drop,
    K: Mapping<T> + Drop,
    V: Mapping<T> + Drop,
    O: Operator<V::Out> + Drop,
>(
    rt: &impl Abort,
    alloc: Global,
    key: K,
    value: V,
    merge: O,
    rows: &[(&[T], &str)],
) -> Result<(), NoMemory>
where
    K::Out: EqualValue + Hash + Drop + Shown,
    V::Out: Drop + Shown,
    requires key { K.ready key }
    requires value { V.ready value }
    requires merge { O.ready merge }
    requires associative { IsAssociative V.Out.is_value (O.join merge) }
{
    let map = ToMap::<T, _, _, _, _>::new(alloc, key, value, merge);
    check(rt, alloc, map, rows)
}

/// Checks a map whose keys may not repeat.
pub fn check_strict<T: Value + Clone + Drop, K: Mapping<T> + Drop, V: Mapping<T> + Drop>(
    rt: &impl Abort,
    alloc: Global,
    key: K,
    value: V,
    rows: &[(&[T], &str)],
) -> Result<(), NoMemory>
where
    K::Out: EqualValue + Hash + Drop + Shown,
    V::Out: Drop + Shown,
    requires key { K.ready key }
    requires value { V.ready value }
{
    check(
        rt,
        alloc,
        ToMapStrict::<T, _, _>::new(alloc, key, value),
        rows,
    )
}
