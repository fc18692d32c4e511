//! The groups that a grouping keeps.
ghost use Rattle.std.specs.Prelude.{◌≡◌, true, Some, [], OnOk};
ghost use Rattle.indexmap.specs.IndexMap.{index_of, insert_entry};

use crate::map_entries::add_entry;
use indexmap::IndexMap;
use spliterator::NoMemory;
use std::alloc::Global;
use std::hash::{BuildHasher, Hash};

/// What is kept for each key, where the last item's group stands, and where the next one's is expected.
#[derive(Drop)]
pub struct Groups<K: Eq + Hash, A, S: BuildHasher> {
    pub entries: IndexMap<K, A, S>,
    // No result depends on these two.
    pub(crate) last: usize,
    pub(crate) expected: usize,
}

// Where no group stands, however many there are.
const NOWHERE: usize = usize::MAX;

impl<K: Eq + Hash + Drop, A: Drop, S: BuildHasher> Groups<K, A, S> {
    /// Adds a group behind the others.
    pub(crate) fn push(&mut self, key: K, kept: A) -> Result<(), NoMemory>
        ensures { let added = insert_entry K.eq self.old.entries.entries key kept in
            OnOk result (self.new.entries.entries ≡ added) }
    {
        self.last = self.entries.len();
        self.expected = 0;
        add_entry(&mut self.entries, key, kept)
    }
}

impl<K: Eq + Hash, A, S: BuildHasher> Groups<K, A, S> {
    /// No groups.
    pub(crate) fn new(alloc: Global, hash_builder: S) -> Groups<K, A, S>
        ensures { result.entries.entries ≡ [] }
    {
        Groups {
            entries: IndexMap::with_hasher(alloc, hash_builder),
            last: 0,
            expected: NOWHERE,
        }
    }

    /// Whether a key's group stands at a place.
    fn stands_at(&self, at: usize, key: &K) -> bool
        ensures { result ≡ true → index_of K.eq self.now.entries key.now ≡ Some at }
    {
        match self.entries.as_slice().get_index(at) {
            Some((there, _)) => *key == *there,
            None => false,
        }
    }

    /// The place behind another. Behind the end it is the first one.
    fn behind(&self, at: usize) -> usize {
        let next = at.saturating_add(1);
        if next < self.entries.len() { next } else { 0 }
    }

    /// Where the group of the item behind one at `at` is expected.
    ///
    /// Items often come in a repeating order of keys, as the remainders of a range do, or in runs of one key, as sorted items do. Where they
    /// just did neither, no place is expected, so that scattered keys cost no comparison.
    pub(crate) fn expected_behind(&self, at: usize) -> usize {
        if at == self.last {
            at
        } else if at == self.expected || at == self.behind(self.last) {
            self.behind(at)
        } else {
            NOWHERE
        }
    }

    /// The place of a key's group, which is hashed only where another key's group stands at the expected place.
    pub(crate) fn place_of(&self, key: &K) -> Option<usize>
        ensures { result ≡ index_of K.eq self.now.entries key.now }
    {
        if self.stands_at(self.expected, key) {
            return Some(self.expected);
        }
        self.entries.get_index_of(key)
    }
}
