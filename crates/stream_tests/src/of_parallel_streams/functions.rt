//! Functions of stages and collectors that aren't in `parts`.
ghost use Rattle.std.specs.Prelude.{◌≡◌, replicate, unsigned_abs};
ghost use Rattle.std.proofs.lemmas.List.Elements.{All-replicate};
ghost use Rattle.spliterator.specs.Values.{IsI64};

use collectors::Pairing;
use spliterator::NoMemory;
use stages::Mapping;
use std::alloc::Global;
use std::sync::atomic::{AtomicU64, Ordering};

/// As many copies of a number as it says, whatever its sign. It counts how often it was asked.
#[derive(Drop)]
pub struct Copies<'a> {
    pub alloc: Global,
    pub asked: &'a AtomicU64,
}

impl Mapping<i64> for Copies<'_> {
    type Out = Vec<i64>;

    ghost image = { λ _ x. replicate (unsigned_abs x) x };

    ghost images_are_values = { λ _ x. All-replicate IsI64 (unsigned_abs x) x };

    fn image(&self, x: &i64) -> Result<Vec<i64>, NoMemory> {
        self.asked.fetch_add(1, Ordering::SeqCst);
        let number = x.unsigned_abs() as usize;
        Ok(vec![in self.alloc; *x; number]?)
    }
}

/// Both results.
#[derive(Drop)]
pub struct Both;

impl<A: Drop, B: Drop> Pairing<A, B> for Both {
    type Out = (A, B);

    ghost gives = { λ _ a b r. r ≡ (a, b) };

    fn pair(&self, first: A, second: B) -> Result<(A, B), NoMemory> {
        Ok((first, second))
    }
}
