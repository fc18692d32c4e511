//! So many items of a source in a row, as lists.
ghost use Rattle.std.specs.Prelude.{◌≡◌, ◌<◌, ⊤, length};
ghost use Rattle.placed_sources.specs.Steps.{chunks};

use sources::Placed;
use sources::counted::{capped, told};
use spliterator::{NoMemory, Spliterator};
use std::alloc::{AllocError, Global};

/// The items of a source in lists of so many, one behind the other; the last may have fewer. They split in half, rounded down, from two
/// lists on.
///
/// An advance answers `NoMemory` where its list or the source finds none.
pub struct Chunks<S> {
    alloc: Global,
    source: S,
    size: u64,
    ghost some: { 0 < size },
}

impl<S: Copy> Clone for Chunks<S> {
    ghost is_clone = { λ s copy. copy ≡ s };

    ghost is_infallible = { λ _. ⊤ };

    fn clone(&self) -> Result<Self, AllocError> {
        Ok(*self)
    }
}

impl<S: Copy> Copy for Chunks<S> {}

impl<S: Placed> Chunks<S> {
    /// ```text
    /// Chunks::new(alloc, RangeSplit::range(1, 9)?, 3)    // [1, 2, 3], [4, 5, 6], [7, 8]
    /// ```
    pub fn new(alloc: Global, source: S, size: u64) -> Chunks<S>
        requires { 0 < size }
        ensures { ⟦<Chunks<S> as Spliterator>⟧.items result ≡ chunks size (S.items source) }
    {
        Chunks {
            alloc,
            source,
            size,
        }
    }
}

impl<S: Placed> Spliterator for Chunks<S> {
    ghost use Rattle.std.specs.Cmp.Lexicographic.{slice_cmp};
    ghost use Rattle.sources.specs.Halves.{SplitsInHalf, capped_count, told_by_count};
    ghost use Rattle.sources.specs.HalvesLaws.{IsSplit-halves, IsEstimate-counts, CountsItems-by_count, IsSoundFor-by_count};

    type Item = Vec<S::Item>;

    ghost items = { λ s. chunks s.size (S.items s.source) };

    ghost weight = { λ s. length (chunks s.size (S.items s.source)) };

    ghost estimate = { λ s. capped_count (length (chunks s.size (S.items s.source))) };

    ghost told = { λ s. told_by_count (length (chunks s.size (S.items s.source))) };

    ghost MayRefuse = { λ _. ⊤ };

    ghost split_gives = { SplitsInHalf (λ s. chunks s.size (S.items s.source)) };

    fn try_advance(&mut self) -> Result<Option<Vec<S::Item>>, NoMemory> {
        let mut rest = self.source;
        let mut room = Vec::new(self.alloc);
        rest.next_block(self.size as usize, &mut room)?;
        if room.is_empty() {
            return Ok(None);
        }
        self.source = rest;
        Ok(Some(room))
    }

    fn try_split(&mut self) -> Option<Chunks<S>> {
        let half = self.count() / 2;
        if half == 0 {
            return None;
        }
        let part = self.first(half);
        *self = self.after_first(half);
        Some(part)
    }

    fn estimate_size(&self) -> u64 {
        capped(self.count())
    }

    fn characteristics(&self) -> u32 {
        told(self.count())
    }

    ghost split_law = { λ s part rest h. IsSplit-halves (λ r. chunks r.size (S.items r.source)) _ _ _ (CountsItems-by_count (λ r. chunks r.size (S.items r.source))) s part rest h };

    ghost size_law = { λ s. IsEstimate-counts (λ r. chunks r.size (S.items r.source)) _ _ _ (CountsItems-by_count (λ r. chunks r.size (S.items r.source))) s };

    ghost flag_law = { λ s. IsSoundFor-by_count (slice_cmp S.Item.order) (chunks s.size (S.items s.source)) };
}

impl<S: Placed> Placed for Chunks<S> {
    fn count(&self) -> u64 {
        self.source.count().div_ceil(self.size)
    }

    fn first(self, most: u64) -> Chunks<S> {
        let end = most.saturating_mul(self.size).min(self.source.count());
        Chunks {
            alloc: self.alloc,
            source: self.source.first(end),
            size: self.size,
        }
    }

    fn after_first(self, number: u64) -> Chunks<S> {
        let start = number.saturating_mul(self.size).min(self.source.count());
        Chunks {
            alloc: self.alloc,
            source: self.source.after_first(start),
            size: self.size,
        }
    }
}
