//! Hashes that whoever writes a file can't foresee.

ghost use Rattle.std.specs.Prelude.{◌≡◌, ℕ, List};
ghost use Rattle.std.specs.Hash.FoldHasher.{initial, write};

use std::hash::{BuildHasher, FoldHasher, Hasher};
use std::marker::Model;
use std::random::RandomSource;

/// Where hashes start. Only a draw makes one, so that no hashes start where anybody can know.
#[derive(Drop)]
pub struct Seed {
    bytes: [u8; 16],
}

impl Model for Seed {
    ghost Value = { List ℕ };

    ghost view = { λ seed. seed.bytes };
}

impl Seed {
    /// Draws a seed. Where the source gives no random bytes a fixed seed serves: no value depends on it.
    pub fn draw<R: RandomSource>(source: &R) -> Seed {
        let mut bytes = [0; 16];
        match source.fill_bytes(&mut bytes) {
            Ok(()) => Seed { bytes },
            Err(_) => Seed { bytes: [1; 16] },
        }
    }
}

/// A maker of fast hashers that all start where a seed led the first.
#[derive(Clone, Copy)]
pub struct SeededHashes {
    start: FoldHasher,
}

impl SeededHashes {
    /// The hashes of a seed. Who doesn't know the seed can't foresee them.
    pub fn of(seed: Seed) -> SeededHashes
        ensures { ⟦<SeededHashes as BuildHasher>⟧.build_hasher result ≡ write initial seed }
    {
        let mut start = FoldHasher::default();
        start.write(&seed.bytes);
        SeededHashes { start }
    }
}

impl BuildHasher for SeededHashes {
    type Hasher = FoldHasher;

    ghost build_hasher = { λ hashes. hashes.start };

    fn build_hasher(&self) -> FoldHasher {
        self.start
    }
}
