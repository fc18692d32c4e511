//! Grouping.
ghost use Rattle.std.specs.Prelude.{◌≡◌, List, [], None, OnOk, IfOk, fold};
ghost use Rattle.std.specs.List.{AllZip};
ghost use Rattle.indexmap.specs.IndexMap.{index_of, insert_entry};
ghost use Rattle.collectors.specs.Grouping.{add_for_key, group_add, merge_entry, group_merge, contents, IsGrouping, HasResult};
ghost use Rattle.collectors.specs.GroupingLaws.{grouping_laws};

use crate::Collector;
use crate::collector::LIGHT_ENTRIES;
use crate::groups::Groups;
use crate::map_entries::add_entry;
use indexmap::IndexMap;
use spliterator::{EqualValue, NoMemory};
use stages::Mapping;
use std::alloc::Global;
use std::hash::{BuildHasher, BuildHasherDefault, FoldHasher, Hash};

/// For each key the downstream result over the items with that key. The keys stand in the order of their first item.
///
/// Java's `Collectors.groupingBy` with a downstream. Where `Remainder` is a mapping of the caller:
///
///     let counts = GroupingBy::new(alloc, Remainder::by(2), Counting::<i64>::new());
///     let groups = collect(&counts, &[5, 2, 7, 4, 5])?;       // {1=3, 0=2}
#[derive(Drop)]
pub struct GroupingBy<K, D, S = BuildHasherDefault<FoldHasher>> {
    alloc: Global,
    key: K,
    pub downstream: D,
    hash_builder: S,
}

impl<K, D> GroupingBy<K, D> {
    /// Groups by a hasher of a fixed seed, for keys that no stranger chooses.
    pub fn new(alloc: Global, key: K, downstream: D) -> GroupingBy<K, D>
        ensures key { result.key ≡ key }
        ensures downstream { result.downstream ≡ downstream }
    {
        GroupingBy::with_hasher(alloc, key, downstream, BuildHasherDefault::new())
    }
}

impl<K, D, S> GroupingBy<K, D, S> {
    /// Groups by the given hasher, as by a `RandomState` where strangers choose the keys.
    pub fn with_hasher(alloc: Global, key: K, downstream: D, hash_builder: S) -> GroupingBy<K, D, S>
        ensures key { result.key ≡ key }
        ensures downstream { result.downstream ≡ downstream }
        ensures hash_builder { result.hash_builder ≡ hash_builder }
    {
        GroupingBy {
            alloc,
            key,
            downstream,
            hash_builder,
        }
    }
}

/// Takes in the first item of a group. Few items are first ones, and the loop over the others is shorter without this.
#[cold]
#[inline(never)]
fn add_group<K: EqualValue + Hash + Drop, D: Collector, S: BuildHasher>(
    downstream: &D,
    groups: &mut Groups<K, D::Acc, S>,
    key: K,
    x: &D::Item,
) -> Result<(), NoMemory>
    requires ready { D.ready downstream.now }
    requires absent { index_of K.eq groups.now.entries key ≡ None }
    ensures { let d = downstream.now in
        let seen = contents K.content (D.content d) in
        let added = add_for_key K.same (K.content key) (D.empty d) (D.add d) (seen groups.old.entries.entries) in
        OnOk result (seen groups.new.entries.entries ≡ added (D.Item.content x.now)) }
{
    let kept = first_kept(downstream, x)?;
    groups.push(key, kept)
}

// What is kept of a group's first item.
fn first_kept<D: Collector>(downstream: &D, x: &D::Item) -> Result<D::Acc, NoMemory>
    requires { D.ready downstream.now }
    ensures { let d = downstream.now in
        IfOk result (λ kept. D.content d kept ≡ D.add d (D.empty d) (D.Item.content x.now)) }
{
    let mut kept = downstream.supply()?;
    downstream.accumulate(&mut kept, x)?;
    Ok(kept)
}

// Takes a group of the right side into that of its key, or adds it where the key is new.
fn merge_group<K: EqualValue + Hash + Drop, D: Collector, S: BuildHasher>(
    downstream: &D,
    left: &mut IndexMap<K, D::Acc, S>,
    group: (K, D::Acc),
) -> Result<(), NoMemory>
    requires { D.ready downstream.now }
    ensures { let d = downstream.now in
        let seen = contents K.content (D.content d) in
        let merged = merge_entry K.same (D.merge d) (seen left.old.entries) in
        OnOk result (seen left.new.entries ≡ merged (K.content group.0, D.content d group.1)) }
{
    let (key, kept) = group;
    if let Some(earlier) = left.get_mut(&key) {
        return downstream.combine(earlier, kept);
    }
    add_entry(left, key, kept)
}

// Takes each group of the right side into the left side, in their order.
fn merge_groups<K: EqualValue + Hash + Drop, D: Collector, S: BuildHasher + Copy>(
    downstream: &D,
    left: &mut IndexMap<K, D::Acc, S>,
    right: IndexMap<K, D::Acc, S>,
) -> Result<(), NoMemory>
    requires { D.ready downstream.now }
    ensures { let seen = contents K.content (D.content downstream.now) in
        let merged = group_merge K.same (D.merge downstream.now) (seen left.old.entries) in
        OnOk result (seen left.new.entries ≡ merged (seen right.entries)) }
{
    for group in right {
        merge_group(downstream, left, group)?;
    }
    Ok(())
}

// Whether what is kept of each group is light.
fn all_light<K: Eq + Hash, D: Collector, S: BuildHasher>(
    downstream: &D,
    groups: &IndexMap<K, D::Acc, S>,
) -> bool {
    for kept in groups.values() {
        if !downstream.is_light(kept) {
            return false;
        }
    }
    true
}

// Adds a group's result to the results.
fn finish_group<K: EqualValue + Hash + Drop, D: Collector, S: BuildHasher>(
    downstream: &D,
    results: &mut IndexMap<K, D::Out, S>,
    group: (K, D::Acc),
) -> Result<(), NoMemory>
    requires { D.ready downstream.now }
    ensures { let d = downstream.now in
        let made = fold (D.add d) (D.empty d) in
        let is_result = HasResult D.Item.is_value made (D.content d) (D.gives d) group in
        let added = insert_entry K.eq results.old.entries in
        OnOk result ((r : K × D.Out) × is_result r × (results.new.entries ≡ added r.0 r.1)) }
{
    let (key, kept) = group;
    let result = downstream.finish(kept)?;
    add_entry(results, key, result)
}

// The groups' results, each at the place of its group.
fn finish_groups<K: EqualValue + Hash + Drop, D: Collector, S: BuildHasher + Copy>(
    downstream: &D,
    groups: IndexMap<K, D::Acc, S>,
    mut results: IndexMap<K, D::Out, S>,
) -> Result<IndexMap<K, D::Out, S>, NoMemory>
    requires ready { D.ready downstream.now }
    requires none { results.entries ≡ [] }
    ensures { let d = downstream.now in
        let made = fold (D.add d) (D.empty d) in
        let is_result = HasResult D.Item.is_value made (D.content d) (D.gives d) in
        IfOk result (λ m. AllZip is_result groups.entries m.entries) }
{
    for group in groups {
        finish_group(downstream, &mut results, group)?;
    }
    Ok(results)
}

impl<D: Collector, K: Mapping<D::Item>, S: BuildHasher + Copy> Collector for GroupingBy<K, D, S>
where
    K::Out: EqualValue + Hash + Drop,
{
    type Item = D::Item;

    type Acc = Groups<K::Out, D::Acc, S>;

    type Out = IndexMap<K::Out, D::Out, S>;

    ghost ready = { λ c. K.ready c.key × D.ready c.downstream };

    ghost Content = { List (K.Out.Content × D.Content) };

    ghost content = { λ c m. contents K.Out.content (D.content c.downstream) m.entries.entries };

    ghost empty = { λ _. [] };

    ghost add = { λ c. group_add K.Out.same (K.image c.key) (D.empty c.downstream) (D.add c.downstream) };

    ghost merge = { λ c. group_merge K.Out.same (D.merge c.downstream) };

    ghost gives = { λ c l m. IsGrouping K.Out.content K.Out.same (K.image c.key) (D.gives c.downstream) l m.entries };

    ghost laws = { λ c. let laws = grouping_laws K.Out.same K.Out.same_decides (K.image c.key) D.Item.is_value in
        laws (D.empty c.downstream) (D.add c.downstream) (D.merge c.downstream) (D.laws c.downstream) };

    fn supply(&self) -> Result<Groups<K::Out, D::Acc, S>, NoMemory> {
        Ok(Groups::new(self.alloc, self.hash_builder))
    }

    fn accumulate(&self, acc: &mut Groups<K::Out, D::Acc, S>, x: &D::Item) -> Result<(), NoMemory> {
        let key = self.key.image(x)?;
        if let Some(at) = acc.place_of(&key) {
            acc.expected = acc.expected_behind(at);
            acc.last = at;
            let kept = acc.entries.get_index_mut(at).unwrap();
            return self.downstream.accumulate(kept, x);
        }
        add_group(&self.downstream, acc, key, x)
    }

    fn accumulate_owned(
        &self,
        acc: &mut Groups<K::Out, D::Acc, S>,
        x: D::Item,
    ) -> Result<(), NoMemory>
    where
        D::Item: Drop,
    {
        let key = self.key.image(&x)?;
        if let Some(at) = acc.place_of(&key) {
            acc.expected = acc.expected_behind(at);
            acc.last = at;
            let kept = acc.entries.get_index_mut(at).unwrap();
            return self.downstream.accumulate_owned(kept, x);
        }
        add_group(&self.downstream, acc, key, &x)
    }

    fn combine(
        &self,
        left: &mut Groups<K::Out, D::Acc, S>,
        right: Groups<K::Out, D::Acc, S>,
    ) -> Result<(), NoMemory> {
        merge_groups(&self.downstream, &mut left.entries, right.entries)
    }

    fn finish(
        &self,
        acc: Groups<K::Out, D::Acc, S>,
    ) -> Result<IndexMap<K::Out, D::Out, S>, NoMemory> {
        let results = IndexMap::with_hasher(self.alloc, self.hash_builder);
        finish_groups(&self.downstream, acc.entries, results)
    }

    fn is_light(&self, acc: &Groups<K::Out, D::Acc, S>) -> bool {
        acc.entries.len() <= LIGHT_ENTRIES && all_light(&self.downstream, &acc.entries)
    }
}
