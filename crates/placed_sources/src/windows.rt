//! All runs of so many items of a source in a row, as lists.
ghost use Rattle.std.specs.Prelude.{◌≡◌, ◌<◌, ⊤, length};
ghost use Rattle.placed_sources.specs.Slides.{windows};

use sources::Placed;
use sources::counted::{capped, told};
use spliterator::{NoMemory, Spliterator};
use std::alloc::{AllocError, Global};

/// The lists of so many items that stand in a row, from each place on from which there are as many. They split in half, rounded down,
/// from two lists on; the items at the cut are read on both sides.
///
/// An advance answers `NoMemory` where its list or the source finds none.
pub struct Windows<S> {
    alloc: Global,
    source: S,
    size: u64,
    ghost some: { 0 < size },
}

impl<S: Copy> Clone for Windows<S> {
    ghost is_clone = { λ s copy. copy ≡ s };

    ghost is_infallible = { λ _. ⊤ };

    fn clone(&self) -> Result<Self, AllocError> {
        Ok(*self)
    }
}

impl<S: Copy> Copy for Windows<S> {}

impl<S: Placed> Windows<S> {
    /// ```text
    /// Windows::new(alloc, RangeSplit::range(1, 6)?, 3)    // [1, 2, 3], [2, 3, 4], [3, 4, 5]
    /// ```
    pub fn new(alloc: Global, source: S, size: u64) -> Windows<S>
        requires { 0 < size }
        ensures { ⟦<Windows<S> as Spliterator>⟧.items result ≡ windows size (S.items source) }
    {
        Windows {
            alloc,
            source,
            size,
        }
    }
}

impl<S: Placed> Spliterator for Windows<S> {
    ghost use Rattle.std.specs.Cmp.Lexicographic.{slice_cmp};
    ghost use Rattle.sources.specs.Halves.{SplitsInHalf, capped_count, told_by_count};
    ghost use Rattle.sources.specs.HalvesLaws.{IsSplit-halves, IsEstimate-counts, CountsItems-by_count, IsSoundFor-by_count};

    type Item = Vec<S::Item>;

    ghost items = { λ s. windows s.size (S.items s.source) };

    ghost weight = { λ s. length (windows s.size (S.items s.source)) };

    ghost estimate = { λ s. capped_count (length (windows s.size (S.items s.source))) };

    ghost told = { λ s. told_by_count (length (windows s.size (S.items s.source))) };

    ghost MayRefuse = { λ _. ⊤ };

    ghost split_gives = { SplitsInHalf (λ s. windows s.size (S.items s.source)) };

    fn try_advance(&mut self) -> Result<Option<Vec<S::Item>>, NoMemory> {
        let mut rest = self.source;
        let mut room = Vec::new(self.alloc);
        rest.next_block(self.size as usize, &mut room)?;
        if room.len() < self.size as usize {
            return Ok(None);
        }
        self.source = self.source.after_first(1);
        Ok(Some(room))
    }

    fn try_split(&mut self) -> Option<Windows<S>> {
        let half = self.count() / 2;
        if half == 0 {
            return None;
        }
        let part = self.first(half);
        *self = self.after_first(half);
        Some(part)
    }

    fn estimate_size(&self) -> u64 {
        capped(self.count())
    }

    fn characteristics(&self) -> u32 {
        told(self.count())
    }

    ghost split_law = { λ s part rest h. IsSplit-halves (λ r. windows r.size (S.items r.source)) _ _ _ (CountsItems-by_count (λ r. windows r.size (S.items r.source))) s part rest h };

    ghost size_law = { λ s. IsEstimate-counts (λ r. windows r.size (S.items r.source)) _ _ _ (CountsItems-by_count (λ r. windows r.size (S.items r.source))) s };

    ghost flag_law = { λ s. IsSoundFor-by_count (slice_cmp S.Item.order) (windows s.size (S.items s.source)) };
}

impl<S: Placed> Placed for Windows<S> {
    fn count(&self) -> u64 {
        self.source.count().saturating_sub(self.size - 1)
    }

    fn first(self, most: u64) -> Windows<S> {
        let end = most.saturating_add(self.size - 1).min(self.source.count());
        Windows {
            alloc: self.alloc,
            source: self.source.first(end),
            size: self.size,
        }
    }

    fn after_first(self, number: u64) -> Windows<S> {
        Windows {
            alloc: self.alloc,
            source: self.source.after_first(number),
            size: self.size,
        }
    }
}
