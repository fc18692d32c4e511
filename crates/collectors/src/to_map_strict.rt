//! Maps that refuse a repeated key.
ghost use Rattle.std.specs.Prelude.{◌≡◌, List, [], map, Option, None, option_map, IfOk, IfErr, OnOk, fold};
ghost use Rattle.collectors.specs.Grouping.{contents};
ghost use Rattle.collectors.specs.StrictMaps.{strict_put, strict_add, strict_merge, IsFirstRepeat, IsStrictMap};
ghost use Rattle.collectors.specs.StrictMapLaws.{strict_map_laws};

use crate::Collector;
use crate::collector::LIGHT_ENTRIES;
use crate::map_entries::{add_entry, entry_of};
use indexmap::IndexMap;
use spliterator::{EqualValue, NoMemory, Value};
use stages::Mapping;
use std::alloc::Global;
use std::fmt::Display;
use std::hash::{BuildHasher, BuildHasherDefault, FoldHasher, Hash};
use std::marker::PhantomData;
use thiserror::Error;

/// The key of the earliest item whose key came before.
#[derive(Debug, Drop, Error)]
#[error("duplicate key {key}")]
#[error_bound(K: Display)]
pub struct DuplicateKey<K> {
    pub key: K,
}

/// The entries before the first repeated key, in the order of their items, and that key.
#[derive(Drop)]
pub struct StrictEntries<K: Eq + Hash, V, S: BuildHasher = BuildHasherDefault<FoldHasher>> {
    entries: IndexMap<K, V, S>,
    repeated: Option<K>,
}

impl<K: EqualValue + Hash + Drop, V: Value + Drop, S: BuildHasher> StrictEntries<K, V, S> {
    // A key that is there is the repeat, and after a repeat nothing changes.
    fn put(&mut self, entry: (K, V)) -> Result<(), NoMemory>
        ensures { let seen = contents K.content V.content in
            let repeat = option_map K.content in
            let put = strict_put K.same (seen self.old.entries.entries) (repeat self.old.repeated) in
            OnOk result ((seen self.new.entries.entries, repeat self.new.repeated)
            ≡ put (K.content entry.0, V.content entry.1)) }
    {
        if self.repeated.is_some() {
            return Ok(());
        }
        let (key, value) = entry;
        if self.entries.contains_key(&key) {
            self.repeated = Some(key);
            return Ok(());
        }
        add_entry(&mut self.entries, key, value)
    }

    // The item's entry is put. Behind a repeat nothing is asked of an item, so that no refusal hides the repeated key.
    fn put_item<T: Value, F: Mapping<T, Out = K>, G: Mapping<T, Out = V>>(
        &mut self,
        key_of: &F,
        value_of: &G,
        x: &T,
    ) -> Result<(), NoMemory>
        requires key_ready { F.ready key_of.now }
        requires value_ready { G.ready value_of.now }
        ensures added { let seen = contents K.content V.content in
            let repeat = option_map K.content in
            let add = strict_add K.same (F.image key_of.now) (G.image value_of.now) in
            OnOk result ((seen self.new.entries.entries, repeat self.new.repeated)
            ≡ add (seen self.old.entries.entries, repeat self.old.repeated) (T.content x.now)) }
        ensures unhidden { IfErr result (λ _. self.old.repeated ≡ None) }
    {
        if self.repeated.is_none() {
            let entry = entry_of(key_of, value_of, x)?;
            return self.put(entry);
        }
        Ok(())
    }
}

impl<K: EqualValue + Hash + Drop, V: Value + Drop, S: BuildHasher + Copy> StrictEntries<K, V, S> {
    // Each entry is put, in their order.
    fn put_all(&mut self, entries: IndexMap<K, V, S>) -> Result<(), NoMemory>
        ensures { let seen = contents K.content V.content in
            let repeat = option_map K.content in
            let puts = fold (λ s e. strict_put K.same s.0 s.1 e) in
            OnOk result ((seen self.new.entries.entries, repeat self.new.repeated)
            ≡ puts (seen self.old.entries.entries, repeat self.old.repeated) (seen entries.entries)) }
    {
        for entry in entries {
            self.put(entry)?;
        }
        Ok(())
    }
}

/// For each key the value of its one item, in the order of the items; or, where a key repeats, the key of the earliest item whose
/// key came before.
///
/// Java's `Collectors.toMap` by two functions, which throws at a repeated key. After a repeat the functions aren't asked any more.
#[derive(Drop)]
pub struct ToMapStrict<T, K, V, S = BuildHasherDefault<FoldHasher>> {
    alloc: Global,
    key: K,
    value: V,
    hash_builder: S,
    items: PhantomData<T>,
}

impl<T, K, V> ToMapStrict<T, K, V> {
    /// A map that hashes by a fixed seed, for keys that no stranger chooses.
    pub fn new(alloc: Global, key: K, value: V) -> ToMapStrict<T, K, V>
        ensures key { result.key ≡ key }
        ensures value { result.value ≡ value }
    {
        ToMapStrict::with_hasher(alloc, key, value, BuildHasherDefault::new())
    }
}

impl<T, K, V, S> ToMapStrict<T, K, V, S> {
    /// A map that hashes as it is told, as by a `RandomState` where strangers choose the keys.
    pub fn with_hasher(alloc: Global, key: K, value: V, hash_builder: S) -> ToMapStrict<T, K, V, S>
        ensures key { result.key ≡ key }
        ensures value { result.value ≡ value }
        ensures hash_builder { result.hash_builder ≡ hash_builder }
    {
        ToMapStrict {
            alloc,
            key,
            value,
            hash_builder,
            items: PhantomData,
        }
    }
}

impl<T: Value, K: Mapping<T>, V: Mapping<T>, S: BuildHasher + Copy> Collector
    for ToMapStrict<T, K, V, S>
where
    K::Out: EqualValue + Hash + Drop,
    V::Out: Drop,
{
    type Item = T;

    type Acc = StrictEntries<K::Out, V::Out, S>;

    type Out = Result<IndexMap<K::Out, V::Out, S>, DuplicateKey<K::Out>>;

    ghost ready = { λ c. K.ready c.key × V.ready c.value };

    ghost Content = { List (K.Out.Content × V.Out.Content) × Option K.Out.Content };

    ghost content = { λ _ a. (contents K.Out.content V.Out.content a.entries.entries, option_map K.Out.content a.repeated) };

    ghost empty = { λ _. ([], None) };

    ghost add = { λ c. strict_add K.Out.same (K.image c.key) (V.image c.value) };

    ghost merge = { λ _. strict_merge K.Out.same };

    ghost gives = { λ c l r. let seen = contents K.Out.content V.Out.content in
        IfOk r (λ m. IsStrictMap K.Out.same (K.image c.key) (V.image c.value) l (seen m.entries))
        × IfErr r (λ d. IsFirstRepeat K.Out.same (map (K.image c.key) l) (K.Out.content d.key)) };

    ghost laws = { λ c. strict_map_laws K.Out.same (K.image c.key) (V.image c.value) T.is_value };

    fn supply(&self) -> Result<StrictEntries<K::Out, V::Out, S>, NoMemory> {
        Ok(StrictEntries {
            entries: IndexMap::with_hasher(self.alloc, self.hash_builder),
            repeated: None,
        })
    }

    // A repeat that is kept isn't hidden by a refusal.
    fn accumulate(&self, acc: &mut StrictEntries<K::Out, V::Out, S>, x: &T) -> Result<(), NoMemory>
        requires { K.ready self.now.key × V.ready self.now.value }
        ensures added { let seen = contents K.Out.content V.Out.content in
            let repeat = option_map K.Out.content in
            let add = strict_add K.Out.same (K.image self.now.key) (V.image self.now.value) in
            OnOk result ((seen acc.new.entries.entries, repeat acc.new.repeated)
            ≡ add (seen acc.old.entries.entries, repeat acc.old.repeated) (T.content x.now)) }
        ensures unhidden { IfErr result (λ _. acc.old.repeated ≡ None) }
    {
        acc.put_item(&self.key, &self.value, x)
    }

    fn combine(
        &self,
        left: &mut StrictEntries<K::Out, V::Out, S>,
        right: StrictEntries<K::Out, V::Out, S>,
    ) -> Result<(), NoMemory> {
        let StrictEntries { entries, repeated } = right;
        left.put_all(entries)?;
        if left.repeated.is_none() {
            left.repeated = repeated;
        }
        Ok(())
    }

    fn finish(
        &self,
        acc: StrictEntries<K::Out, V::Out, S>,
    ) -> Result<Result<IndexMap<K::Out, V::Out, S>, DuplicateKey<K::Out>>, NoMemory> {
        let StrictEntries { entries, repeated } = acc;
        match repeated {
            Some(key) => Ok(Err(DuplicateKey { key })),
            None => Ok(Ok(entries)),
        }
    }

    fn is_light(&self, acc: &StrictEntries<K::Out, V::Out, S>) -> bool {
        acc.entries.len() <= LIGHT_ENTRIES
    }
}
