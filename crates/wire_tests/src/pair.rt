//! Two results beside each other.
ghost use Rattle.std.specs.Prelude.{◌≡◌};

use collectors::Pairing;
use spliterator::NoMemory;

/// Both results.
#[derive(Drop)]
pub struct Pair;

impl<A: Drop, B: Drop> Pairing<A, B> for Pair {
    type Out = (A, B);

    ghost gives = { λ _ a b r. r ≡ (a, b) };

    fn pair(&self, first: A, second: B) -> Result<(A, B), NoMemory> {
        Ok((first, second))
    }
}
