//! The results of two collectors, side by side.
ghost use Rattle.std.specs.Prelude.{◌≡◌};

use mohairjade::{NoMemory, Pairing};

/// Makes a pair of two results.
#[derive(Clone, Copy)]
pub struct Both;

impl<A: Drop, B: Drop> Pairing<A, B> for Both {
    type Out = (A, B);

    ghost gives = { λ _ a b r. r ≡ (a, b) };

    fn pair(&self, first: A, second: B) -> Result<(A, B), NoMemory> {
        Ok((first, second))
    }
}
