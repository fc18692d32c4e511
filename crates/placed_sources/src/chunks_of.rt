//! A slice in chunks that stay where they lie.
ghost use Rattle.std.specs.Prelude.{◌≡◌, ◌<◌, ⊤, length, map};
ghost use Rattle.placed_sources.specs.Steps.{chunks};

use sources::counted::{capped, told};
use sources::{Placed, front_of, rest_of};
use spliterator::{NoMemory, OrderedValue, Spliterator};
use std::alloc::AllocError;

/// The items of a slice in parts of so many, one behind the other; the last may have fewer. They split in half, rounded down, from two
/// parts on. Nothing is cloned, and no memory is taken.
pub struct ChunksOf<'a, T> {
    items: &'a [T],
    size: usize,
    ghost some: { 0 < size },
}

impl<'a, T> Clone for ChunksOf<'a, T> {
    ghost is_clone = { λ s copy. copy ≡ s };

    ghost is_infallible = { λ _. ⊤ };

    fn clone(&self) -> Result<Self, AllocError> {
        Ok(*self)
    }
}

impl<'a, T> Copy for ChunksOf<'a, T> {}

impl<'a, T: OrderedValue> ChunksOf<'a, T> {
    /// ```text
    /// ChunksOf::new(&[1, 2, 3, 4, 5], 2)    // [1, 2], [3, 4], [5]
    /// ```
    pub fn new(items: &'a [T], size: usize) -> ChunksOf<'a, T>
        requires { 0 < size }
        ensures { ⟦<ChunksOf<'a, T> as Spliterator>⟧.items result
            ≡ chunks size (map T.content items.now) }
    {
        ChunksOf { items, size }
    }
}

impl<'a, T: OrderedValue> Spliterator for ChunksOf<'a, T> {
    ghost use Rattle.std.specs.Cmp.Lexicographic.{slice_cmp};
    ghost use Rattle.sources.specs.Halves.{SplitsInHalf, capped_count, told_by_count};
    ghost use Rattle.sources.specs.HalvesLaws.{IsSplit-halves, IsEstimate-counts, CountsItems-by_count, IsSoundFor-by_count};

    type Item = &'a [T];

    ghost items = { λ s. chunks s.size (map T.content s.items.now) };

    ghost weight = { λ s. length (chunks s.size (map T.content s.items.now)) };

    ghost estimate = { λ s. capped_count (length (chunks s.size (map T.content s.items.now))) };

    ghost told = { λ s. told_by_count (length (chunks s.size (map T.content s.items.now))) };

    ghost MayRefuse = { λ _. ⊥ };

    ghost split_gives = { SplitsInHalf (λ s. chunks s.size (map T.content s.items.now)) };

    fn try_advance(&mut self) -> Result<Option<&'a [T]>, NoMemory> {
        let items = self.items;
        let len = items.len();
        if len == 0 {
            return Ok(None);
        }
        let (chunk, rest) = items.split_at(self.size.min(len));
        self.items = rest;
        Ok(Some(chunk))
    }

    fn try_split(&mut self) -> Option<ChunksOf<'a, T>> {
        let half = self.count() / 2;
        if half == 0 {
            return None;
        }
        let part = self.first(half);
        *self = self.after_first(half);
        Some(part)
    }

    fn estimate_size(&self) -> u64 {
        capped(self.count())
    }

    fn characteristics(&self) -> u32 {
        told(self.count())
    }

    ghost split_law = { λ s part rest h. IsSplit-halves (λ r. chunks r.size (map T.content r.items.now)) _ _ _ (CountsItems-by_count (λ r. chunks r.size (map T.content r.items.now))) s part rest h };

    ghost size_law = { λ s. IsEstimate-counts (λ r. chunks r.size (map T.content r.items.now)) _ _ _ (CountsItems-by_count (λ r. chunks r.size (map T.content r.items.now))) s };

    ghost flag_law = { λ s. IsSoundFor-by_count (slice_cmp T.order) (chunks s.size (map T.content s.items.now)) };
}

impl<'a, T: OrderedValue> Placed for ChunksOf<'a, T> {
    fn count(&self) -> u64 {
        (self.items.len() as u64).div_ceil(self.size as u64)
    }

    fn first(self, most: u64) -> ChunksOf<'a, T> {
        let end = most
            .saturating_mul(self.size as u64)
            .min(self.items.len() as u64);
        ChunksOf {
            items: front_of(self.items, end),
            size: self.size,
        }
    }

    fn after_first(self, number: u64) -> ChunksOf<'a, T> {
        let start = number
            .saturating_mul(self.size as u64)
            .min(self.items.len() as u64);
        ChunksOf {
            items: rest_of(self.items, start),
            size: self.size,
        }
    }
}
