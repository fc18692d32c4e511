//! The keys of a map, and the items of a set.
ghost use Rattle.std.specs.Prelude.{◌≡◌, ◌<◌, ◌^◌, ⊤, length, map};
ghost use Rattle.std.specs.List.{IsDistinct};
ghost use Rattle.std.proofs.lemmas.Map.Keys.{IsDistinct-prop};
ghost use Rattle.indexmap.specs.IndexMap.{keys};

use crate::counted::DIFFERING;
use crate::placed::{Placed, front_of, rest_of};
use indexmap::{IndexMap, IndexSet};
use spliterator::{EqualValue, NoMemory, OrderedValue, Spliterator};
use std::alloc::{AllocError, Allocator};
use std::hash::{BuildHasher, Hash};

/// References to keys of which no two are equal, in their order. They split in half, rounded down, from two on. Nothing is cloned.
pub struct KeysSplit<'a, K: Eq> {
    keys: &'a [K],
    ghost few: { length keys.now < 2 ^ 63 },
    ghost differ: { IsDistinct K.eq keys.now } by { IsDistinct-prop K.eq keys.now },
}

impl<'a, K: Eq> Clone for KeysSplit<'a, K> {
    ghost is_clone = { λ s copy. copy ≡ s };

    ghost is_infallible = { λ _. ⊤ };

    fn clone(&self) -> Result<Self, AllocError> {
        Ok(*self)
    }
}

impl<'a, K: Eq> Copy for KeysSplit<'a, K> {}

impl<'a, K: OrderedValue + EqualValue + Hash> KeysSplit<'a, K> {
    /// The keys of a map.
    ///
    /// ```text
    /// KeysSplit::of_map(&stock)    // "nail", "screw"
    /// ```
    // java.util.LinkedHashMap, keySet
    pub fn of_map<V, S: BuildHasher, A: Allocator>(
        entries: &'a IndexMap<K, V, S, A>,
    ) -> KeysSplit<'a, K>
        ensures { ⟦<KeysSplit<'a, K> as Spliterator>⟧.items result
            ≡ map K.content (keys entries.now) }
    {
        KeysSplit {
            keys: entries.keys().as_slice(),
        }
    }

    /// The items of a set.
    ///
    /// ```text
    /// KeysSplit::of_set(&names)    // "Ada", "Alan"
    /// ```
    // java.util.LinkedHashSet, spliterator
    pub fn of_set<S: BuildHasher, A: Allocator>(items: &'a IndexSet<K, S, A>) -> KeysSplit<'a, K>
        ensures { ⟦<KeysSplit<'a, K> as Spliterator>⟧.items result
            ≡ map K.content items.now.keys }
    {
        // the number promises that they are few
        let _few = items.len();
        KeysSplit {
            keys: items.as_slice(),
        }
    }
}

impl<'a, K: OrderedValue + EqualValue> Spliterator for KeysSplit<'a, K> {
    ghost use Rattle.sources.specs.Halves.{SplitsInHalf};
    ghost use Rattle.sources.specs.HalvesLaws.{IsSplit-halves, IsEstimate-counts};
    ghost use Rattle.std.proofs.lemmas.List.{length-map};
    ghost use Rattle.sources.specs.Differing.{told_differing, CountsItems-few, IsSoundFor-differing, contents-differ};

    type Item = &'a K;

    ghost items = { λ s. map K.content s.keys.now };

    ghost weight = { λ s. length (map K.content s.keys.now) };

    ghost estimate = { λ s. length (map K.content s.keys.now) };

    ghost told = { λ _. told_differing };

    ghost MayRefuse = { λ _. ⊥ };

    ghost split_gives = { SplitsInHalf (λ s. map K.content s.keys.now) };

    fn try_advance(&mut self) -> Result<Option<&'a K>, NoMemory> {
        let Some((first, rest)) = self.keys.split_first() else {
            return Ok(None);
        };
        self.keys = rest;
        Ok(Some(first))
    }

    fn try_split(&mut self) -> Option<KeysSplit<'a, K>> {
        let half = self.keys.len() / 2;
        if half == 0 {
            return None;
        }
        let (part, rest) = self.keys.split_at(half);
        self.keys = rest;
        Some(KeysSplit { keys: part })
    }

    fn estimate_size(&self) -> u64 {
        self.keys.len() as u64
    }

    fn characteristics(&self) -> u32 {
        DIFFERING
    }

    ghost split_law = { λ s part rest h. IsSplit-halves _ _ _ _ (CountsItems-few (λ r. r.keys.now) K.content (λ r. r.few)) s part rest h };

    ghost size_law = { λ s. IsEstimate-counts _ _ _ _ (CountsItems-few (λ r. r.keys.now) K.content (λ r. r.few)) s };

    ghost flag_law = { λ s. IsSoundFor-differing K.order K.same K.same_decides (map K.content s.keys.now)
        (contents-differ K.content K.PartialEq.eq K.same K.eq_is_same s.keys.now s.differ) };
}

impl<'a, K: OrderedValue + EqualValue> Placed for KeysSplit<'a, K> {
    fn count(&self) -> u64 {
        self.estimate_size()
    }

    fn first(self, most: u64) -> KeysSplit<'a, K> {
        KeysSplit {
            keys: front_of(self.keys, most),
        }
    }

    fn after_first(self, number: u64) -> KeysSplit<'a, K> {
        KeysSplit {
            keys: rest_of(self.keys, number),
        }
    }
}
