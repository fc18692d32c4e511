//! Maps that merge the values of equal keys.
ghost use Rattle.std.specs.Prelude.{◌≡◌, List, [], Some, map, OnOk};
ghost use Rattle.stages.specs.Operators.{IsAssociative, TestsAssociative, associative-tested};
ghost use Rattle.collectors.specs.Grouping.{merge_entry, group_merge, contents, IsGrouping};
ghost use Rattle.collectors.specs.MapLaws.{map_add, map_laws};
ghost use Rattle.collectors.specs.Reductions.{reduced};

use crate::Collector;
use crate::collector::LIGHT_ENTRIES;
use crate::groups::Groups;
use crate::map_entries::add_entry;
use crate::reducing::join_into;
use indexmap::IndexMap;
use spliterator::{EqualValue, NoMemory, Value};
use stages::{Mapping, Operator};
use std::alloc::Global;
use std::hash::{BuildHasher, BuildHasherDefault, FoldHasher, Hash};
use std::marker::PhantomData;

/// For each key the values of its items, merged from left to right by an associative operator. The keys stand in the order of their first
/// item. Java's `Collectors.toMap` with a merge function.
#[derive(Drop)]
pub struct ToMap<T: Value, U: Value, K, V, M: Operator<U>, S = BuildHasherDefault<FoldHasher>> {
    alloc: Global,
    key: K,
    value: V,
    merge: M,
    hash_builder: S,
    items: PhantomData<(T, U)>,
    ghost associative: { TestsAssociative U.same U.is_value (M.join merge) },
}

impl<T: Value, U: Value, K, V, M: Operator<U>> ToMap<T, U, K, V, M> {
    /// A map that hashes by a fixed seed, for keys that no stranger chooses.
    pub fn new(alloc: Global, key: K, value: V, merge: M) -> ToMap<T, U, K, V, M>
        requires { IsAssociative U.is_value (M.join merge) }
        ensures key { result.key ≡ key }
        ensures value { result.value ≡ value }
        ensures merge { result.merge ≡ merge }
    {
        ToMap::with_hasher(alloc, key, value, merge, BuildHasherDefault::new())
    }
}

impl<T: Value, U: Value, K, V, M: Operator<U>, S> ToMap<T, U, K, V, M, S> {
    /// A map that hashes as it is told, as by a `RandomState` where strangers choose the keys.
    pub fn with_hasher(
        alloc: Global,
        key: K,
        value: V,
        merge: M,
        hash_builder: S,
    ) -> ToMap<T, U, K, V, M, S>
        requires { IsAssociative U.is_value (M.join merge) }
        ensures key { result.key ≡ key }
        ensures value { result.value ≡ value }
        ensures merge { result.merge ≡ merge }
        ensures hash_builder { result.hash_builder ≡ hash_builder }
    {
        ToMap {
            alloc,
            key,
            value,
            merge,
            hash_builder,
            items: PhantomData,
        }
    }
}

// Merges a value into that of its key, or adds the entry where the key is new.
fn merge_value<K: EqualValue + Hash + Drop, U: Value + Drop, M: Operator<U>, S: BuildHasher>(
    merge: &M,
    map: &mut IndexMap<K, U, S>,
    entry: (K, U),
) -> Result<(), NoMemory>
    requires { M.ready merge.now }
    ensures { let seen = contents K.content U.content in
        let merged = merge_entry K.same (M.join merge.now) (seen map.old.entries) in
        OnOk result (seen map.new.entries ≡ merged (K.content entry.0, U.content entry.1)) }
{
    let (key, value) = entry;
    if let Some(earlier) = map.get_mut(&key) {
        return join_into(merge, earlier, &value);
    }
    add_entry(map, key, value)
}

// Merges each entry of the right side, in their order.
fn merge_values<
    K: EqualValue + Hash + Drop,
    U: Value + Drop,
    M: Operator<U>,
    S: BuildHasher + Copy,
>(merge: &M, left: &mut IndexMap<K, U, S>, right: IndexMap<K, U, S>) -> Result<(), NoMemory>
    requires { M.ready merge.now }
    ensures { let seen = contents K.content U.content in
        let merged = group_merge K.same (M.join merge.now) (seen left.old.entries) in
        OnOk result (seen left.new.entries ≡ merged (seen right.entries)) }
{
    for entry in right {
        merge_value(merge, left, entry)?;
    }
    Ok(())
}

impl<
    T: Value,
    U: Value + Drop,
    K: Mapping<T>,
    V: Mapping<T, Out = U>,
    M: Operator<U>,
    S: BuildHasher + Copy,
> Collector for ToMap<T, U, K, V, M, S>
where
    K::Out: EqualValue + Hash + Drop,
{
    type Item = T;

    type Acc = Groups<K::Out, U, S>;

    type Out = IndexMap<K::Out, U, S>;

    ghost ready = { λ c. K.ready c.key × V.ready c.value × M.ready c.merge };

    ghost Content = { List (K.Out.Content × U.Content) };

    ghost content = { λ c m. contents K.Out.content U.content m.entries.entries };

    ghost empty = { λ _. [] };

    ghost add = { λ c. map_add K.Out.same (K.image c.key) (V.image c.value) (M.join c.merge) };

    ghost merge = { λ c. group_merge K.Out.same (M.join c.merge) };

    ghost gives = { λ c l m. IsGrouping K.Out.content K.Out.same (K.image c.key)
        (λ s v. Some (U.content v) ≡ reduced (M.join c.merge) (map (V.image c.value) s)) l m.entries };

    ghost laws = { λ c. let associative = associative-tested U.same U.same_decides U.is_value (M.join c.merge) c.associative in
        let laws = map_laws K.Out.same K.Out.same_decides (K.image c.key) (V.image c.value) (M.join c.merge) T.is_value U.is_value in
        laws (V.images_are_values c.value) (M.joins_are_values c.merge) associative };

    fn supply(&self) -> Result<Groups<K::Out, U, S>, NoMemory> {
        Ok(Groups::new(self.alloc, self.hash_builder))
    }

    fn accumulate(&self, acc: &mut Groups<K::Out, U, S>, x: &T) -> Result<(), NoMemory> {
        let key = self.key.image(x)?;
        let value = self.value.image(x)?;
        if let Some(at) = acc.place_of(&key) {
            acc.expected = acc.expected_behind(at);
            acc.last = at;
            let earlier = acc.entries.get_index_mut(at).unwrap();
            return join_into(&self.merge, earlier, &value);
        }
        acc.push(key, value)
    }

    fn combine(
        &self,
        left: &mut Groups<K::Out, U, S>,
        right: Groups<K::Out, U, S>,
    ) -> Result<(), NoMemory> {
        merge_values(&self.merge, &mut left.entries, right.entries)
    }

    fn finish(&self, acc: Groups<K::Out, U, S>) -> Result<IndexMap<K::Out, U, S>, NoMemory> {
        Ok(acc.entries)
    }

    fn is_light(&self, acc: &Groups<K::Out, U, S>) -> bool {
        acc.entries.len() <= LIGHT_ENTRIES
    }
}
