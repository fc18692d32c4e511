//! Functions that aren't in `stream_functions`.
ghost use Rattle.std.specs.Prelude.{◌≡◌, length, replicate, unsigned_abs};
ghost use Rattle.std.proofs.lemmas.List.Elements.{All-replicate};
ghost use Rattle.spliterator.specs.Values.{IsI64};

use derived_collectors::Finisher;
use indexmap::IndexMap;
use spliterator::NoMemory;
use stages::Mapping;
use std::alloc::Global;
use std::hash::{BuildHasher, Hash};

/// As many copies of a number as it says, whatever its sign.
#[derive(Drop)]
pub struct Copies {
    pub alloc: Global,
}

impl Mapping<i64> for Copies {
    type Out = Vec<i64>;

    ghost image = { λ _ x. replicate (unsigned_abs x) x };

    ghost images_are_values = { λ _ x. All-replicate IsI64 (unsigned_abs x) x };

    fn image(&self, x: &i64) -> Result<Vec<i64>, NoMemory> {
        let number = x.unsigned_abs() as usize;
        Ok(vec![in self.alloc; *x; number]?)
    }
}

/// How many keys a map has.
#[derive(Drop)]
pub struct Keys;

impl<K: Eq + Hash + Drop, V: Drop, S: BuildHasher + Copy> Finisher<IndexMap<K, V, S>> for Keys {
    type Out = usize;

    ghost gives = { λ _ map number. number ≡ length map.entries };

    fn apply(&self, whole: IndexMap<K, V, S>) -> Result<usize, NoMemory> {
        Ok(whole.len())
    }
}
