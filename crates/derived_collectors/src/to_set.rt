//! Sets.
ghost use Rattle.std.specs.Prelude.{◌≡◌, ⊤, List, [], map};
ghost use Rattle.spliterator.specs.Clones.{ClonesAlike, TestsClonesAlike};
ghost use Rattle.stages.specs.Distinct.{distinct};
ghost use Rattle.derived_collectors.specs.Sets.{as_keys, set_add, set_merge, set_laws};

use collectors::Collector;
use indexmap::IndexSet;
use spliterator::{EqualValue, NoMemory, Value};
use std::alloc::Global;
use std::hash::{BuildHasher, BuildHasherDefault, FoldHasher, Hash};
use std::marker::PhantomData;

/// The most entries of a light container.
const LIGHT_ENTRIES: usize = 64;

/// The items without repeats, as clones. They stand in the order in which each came first, which Java's `Collectors.toSet` leaves open:
///
///     let set = collect(&ToSet::<i64>::new(rt.alloc()), &[5, 2, 5, 7, 2])?;    // {5, 2, 7}
#[derive(Drop)]
pub struct ToSet<T: Value + Clone, S = BuildHasherDefault<FoldHasher>> {
    alloc: Global,
    pub hash_builder: S,
    items: PhantomData<T>,
    ghost clones_alike: { TestsClonesAlike T.same T.is_clone T.content },
}

impl<T: Value + Clone> ToSet<T> {
    /// A set that hashes by a fixed seed, for items that no stranger chooses. A clone of an item must have its content.
    pub fn new(alloc: Global) -> ToSet<T>
        requires clones { ClonesAlike T.is_clone T.content }
    {
        ToSet::with_hasher(alloc, BuildHasherDefault::new())
    }
}

impl<T: Value + Clone, S> ToSet<T, S> {
    /// A set that hashes as it is told, as by a `RandomState` where strangers choose the items.
    pub fn with_hasher(alloc: Global, hash_builder: S) -> ToSet<T, S>
        requires clones { ClonesAlike T.is_clone T.content }
        ensures hash_builder { result.hash_builder ≡ hash_builder }
    {
        ToSet {
            alloc,
            hash_builder,
            items: PhantomData,
        }
    }
}

impl<T: EqualValue + Clone + Hash + Drop, S: BuildHasher + Copy> Collector for ToSet<T, S> {
    type Item = T;

    type Acc = IndexSet<T, S>;

    type Out = IndexSet<T, S>;

    ghost Content = { List (T.Content × ⊤) };

    ghost content = { λ _ set. as_keys (map T.content set.keys) };

    ghost empty = { λ _. [] };

    ghost add = { λ _. set_add T.same };

    ghost merge = { λ _. set_merge T.same };

    ghost gives = { λ _ l set. map T.content set.keys ≡ distinct T.same l };

    ghost laws = { λ _. set_laws T.same T.same_decides T.is_value };

    fn supply(&self) -> Result<IndexSet<T, S>, NoMemory> {
        Ok(IndexSet::with_hasher(self.alloc, self.hash_builder))
    }

    // Only an item that isn't there is cloned.
    fn accumulate(&self, acc: &mut IndexSet<T, S>, x: &T) -> Result<(), NoMemory> {
        if !acc.contains(x) {
            acc.insert(x.clone()?)?;
        }
        Ok(())
    }

    fn accumulate_owned(&self, acc: &mut IndexSet<T, S>, x: T) -> Result<(), NoMemory> {
        acc.insert(x)?;
        Ok(())
    }

    fn combine(
        &self,
        left: &mut IndexSet<T, S>,
        mut right: IndexSet<T, S>,
    ) -> Result<(), NoMemory> {
        left.append(&mut right)?;
        Ok(())
    }

    fn finish(&self, acc: IndexSet<T, S>) -> Result<IndexSet<T, S>, NoMemory> {
        Ok(acc)
    }

    fn is_light(&self, acc: &IndexSet<T, S>) -> bool {
        acc.len() <= LIGHT_ENTRIES
    }
}
