//! The entries of a map.
ghost use Rattle.std.specs.Prelude.{◌≡◌, ◌∷◌, ◌<◌, ◌^◌, ⊤, length};
ghost use Rattle.std.specs.List.{IsDistinct, zip};
ghost use Rattle.std.proofs.lemmas.Map.Keys.{IsDistinct-prop};
ghost use Rattle.sources.specs.Entries.{entry_contents};

use crate::counted::DIFFERING;
use crate::placed::{Placed, front_of, rest_of};
use indexmap::IndexMap;
use spliterator::{EqualValue, NoMemory, OrderedValue, Spliterator};
use std::alloc::{AllocError, Allocator};
use std::hash::{BuildHasher, Hash};

/// Pairs of references to a map's keys and values, in the map's order. They split in half, rounded down, from two entries on. Nothing is
/// cloned.
pub struct EntriesSplit<'a, K: Eq, V> {
    keys: &'a [K],
    values: &'a [V],
    ghost few: { length keys.now < 2 ^ 63 },
    ghost paired: { length values.now ≡ length keys.now },
    ghost differ: { IsDistinct K.eq keys.now } by { IsDistinct-prop K.eq keys.now },
}

impl<'a, K: Eq, V> Clone for EntriesSplit<'a, K, V> {
    ghost is_clone = { λ s copy. copy ≡ s };

    ghost is_infallible = { λ _. ⊤ };

    fn clone(&self) -> Result<Self, AllocError> {
        Ok(*self)
    }
}

impl<'a, K: Eq, V> Copy for EntriesSplit<'a, K, V> {}

impl<'a, K: OrderedValue + EqualValue + Hash, V: OrderedValue> EntriesSplit<'a, K, V> {
    /// The entries of a map.
    ///
    /// ```text
    /// EntriesSplit::new(&stock)    // ("nail", 3), ("screw", 5)
    /// ```
    // java.util.LinkedHashMap, entrySet
    pub fn new<S: BuildHasher, A: Allocator>(
        entries: &'a IndexMap<K, V, S, A>,
    ) -> EntriesSplit<'a, K, V>
        ensures { ⟦<EntriesSplit<'a, K, V> as Spliterator>⟧.items result
            ≡ entry_contents K.content V.content entries.now.entries }
    {
        let keys = entries.keys().as_slice();
        let values = entries.values().as_slice();
        EntriesSplit { keys, values }
    }
}

/// The first of some values, and the others.
fn parted<T>(values: &[T]) -> (&T, &[T])
    requires { 0 < length values.now }
    ensures { values.now ≡ result.0.now ∷ result.1.now }
{
    match values.split_first() {
        Some(parts) => parts,
        None => unreachable!(),
    }
}

impl<'a, K: OrderedValue + EqualValue, V: OrderedValue> Spliterator for EntriesSplit<'a, K, V> {
    ghost use Rattle.sources.specs.Halves.{SplitsInHalf};
    ghost use Rattle.sources.specs.HalvesLaws.{IsSplit-halves, IsEstimate-counts};
    ghost use Rattle.spliterator.specs.Pairs.{by_first};
    ghost use Rattle.sources.specs.Differing.{told_differing};
    ghost use Rattle.sources.specs.Entries.{CountsItems-entries, IsSoundFor-entries};

    type Item = (&'a K, &'a V);

    ghost items = { λ s. entry_contents K.content V.content (zip s.keys.now s.values.now) };

    ghost weight = { λ s. length (entry_contents K.content V.content (zip s.keys.now s.values.now)) };

    ghost estimate = { λ s. length (entry_contents K.content V.content (zip s.keys.now s.values.now)) };

    ghost told = { λ _. told_differing };

    ghost MayRefuse = { λ _. ⊥ };

    ghost split_gives = { SplitsInHalf (λ s. entry_contents K.content V.content (zip s.keys.now s.values.now)) };

    fn try_advance(&mut self) -> Result<Option<(&'a K, &'a V)>, NoMemory> {
        if self.keys.is_empty() {
            return Ok(None);
        }
        let (key, keys) = parted(self.keys);
        let (value, values) = parted(self.values);
        *self = EntriesSplit { keys, values };
        Ok(Some((key, value)))
    }

    fn try_split(&mut self) -> Option<EntriesSplit<'a, K, V>> {
        let half = self.keys.len() / 2;
        if half == 0 {
            return None;
        }
        let (keys, other_keys) = self.keys.split_at(half);
        let (values, other_values) = self.values.split_at(half);
        *self = EntriesSplit {
            keys: other_keys,
            values: other_values,
        };
        Some(EntriesSplit { keys, values })
    }

    fn estimate_size(&self) -> u64 {
        self.keys.len() as u64
    }

    fn characteristics(&self) -> u32 {
        DIFFERING
    }

    ghost split_law = { λ s part rest h. IsSplit-halves _ _ _ _
        (CountsItems-entries K.content V.content (λ r. r.keys.now) (λ r. r.values.now) (λ r. r.paired) (λ r. r.few)) s part rest h };

    ghost size_law = { λ s. IsEstimate-counts _ _ _ _
        (CountsItems-entries K.content V.content (λ r. r.keys.now) (λ r. r.values.now) (λ r. r.paired) (λ r. r.few)) s };

    ghost flag_law = { λ s. let sound = IsSoundFor-entries K.content V.content K.PartialEq.eq K.same V.same K.eq_is_same in
        sound (by_first K.order V.order) K.same_decides V.same_decides s.keys.now s.values.now s.differ };
}

impl<'a, K: OrderedValue + EqualValue, V: OrderedValue> Placed for EntriesSplit<'a, K, V> {
    fn count(&self) -> u64 {
        self.estimate_size()
    }

    fn first(self, most: u64) -> EntriesSplit<'a, K, V> {
        EntriesSplit {
            keys: front_of(self.keys, most),
            values: front_of(self.values, most),
        }
    }

    fn after_first(self, number: u64) -> EntriesSplit<'a, K, V> {
        EntriesSplit {
            keys: rest_of(self.keys, number),
            values: rest_of(self.values, number),
        }
    }
}
