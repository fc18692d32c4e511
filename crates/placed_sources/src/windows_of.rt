//! The runs of so many items of a slice, where they lie.
ghost use Rattle.std.specs.Prelude.{◌≡◌, ◌<◌, ⊤, length, map};
ghost use Rattle.placed_sources.specs.Slides.{windows};

use sources::counted::{capped, told};
use sources::{Placed, front_of, rest_of};
use spliterator::{NoMemory, OrderedValue, Spliterator};
use std::alloc::AllocError;

/// The parts of a slice with so many items in a row, from each place on from which there are as many. They split in half, rounded
/// down, from two parts on; the items at the cut are read on both sides. Nothing is cloned, and no memory is taken.
pub struct WindowsOf<'a, T> {
    items: &'a [T],
    size: usize,
    ghost some: { 0 < size },
}

impl<'a, T> Clone for WindowsOf<'a, T> {
    ghost is_clone = { λ s copy. copy ≡ s };

    ghost is_infallible = { λ _. ⊤ };

    fn clone(&self) -> Result<Self, AllocError> {
        Ok(*self)
    }
}

impl<'a, T> Copy for WindowsOf<'a, T> {}

impl<'a, T: OrderedValue> WindowsOf<'a, T> {
    /// ```text
    /// WindowsOf::new(&[1, 2, 3, 4], 2)    // [1, 2], [2, 3], [3, 4]
    /// ```
    pub fn new(items: &'a [T], size: usize) -> WindowsOf<'a, T>
        requires { 0 < size }
        ensures { ⟦<WindowsOf<'a, T> as Spliterator>⟧.items result
            ≡ windows size (map T.content items.now) }
    {
        WindowsOf { items, size }
    }
}

impl<'a, T: OrderedValue> Spliterator for WindowsOf<'a, T> {
    ghost use Rattle.std.specs.Cmp.Lexicographic.{slice_cmp};
    ghost use Rattle.sources.specs.Halves.{SplitsInHalf, capped_count, told_by_count};
    ghost use Rattle.sources.specs.HalvesLaws.{IsSplit-halves, IsEstimate-counts, CountsItems-by_count, IsSoundFor-by_count};

    type Item = &'a [T];

    ghost items = { λ s. windows s.size (map T.content s.items.now) };

    ghost weight = { λ s. length (windows s.size (map T.content s.items.now)) };

    ghost estimate = { λ s. capped_count (length (windows s.size (map T.content s.items.now))) };

    ghost told = { λ s. told_by_count (length (windows s.size (map T.content s.items.now))) };

    ghost MayRefuse = { λ _. ⊥ };

    ghost split_gives = { SplitsInHalf (λ s. windows s.size (map T.content s.items.now)) };

    fn try_advance(&mut self) -> Result<Option<&'a [T]>, NoMemory> {
        let items = self.items;
        if items.len() < self.size {
            return Ok(None);
        }
        let (window, _) = items.split_at(self.size);
        let (_, rest) = items.split_at(1);
        self.items = rest;
        Ok(Some(window))
    }

    fn try_split(&mut self) -> Option<WindowsOf<'a, T>> {
        let half = self.count() / 2;
        if half == 0 {
            return None;
        }
        let part = self.first(half);
        *self = self.after_first(half);
        Some(part)
    }

    fn estimate_size(&self) -> u64 {
        capped(self.count())
    }

    fn characteristics(&self) -> u32 {
        told(self.count())
    }

    ghost split_law = { λ s part rest h. IsSplit-halves (λ r. windows r.size (map T.content r.items.now)) _ _ _ (CountsItems-by_count (λ r. windows r.size (map T.content r.items.now))) s part rest h };

    ghost size_law = { λ s. IsEstimate-counts (λ r. windows r.size (map T.content r.items.now)) _ _ _ (CountsItems-by_count (λ r. windows r.size (map T.content r.items.now))) s };

    ghost flag_law = { λ s. IsSoundFor-by_count (slice_cmp T.order) (windows s.size (map T.content s.items.now)) };
}

impl<'a, T: OrderedValue> Placed for WindowsOf<'a, T> {
    fn count(&self) -> u64 {
        (self.items.len() as u64).saturating_sub(self.size as u64 - 1)
    }

    fn first(self, most: u64) -> WindowsOf<'a, T> {
        let end = most
            .saturating_add(self.size as u64 - 1)
            .min(self.items.len() as u64);
        WindowsOf {
            items: front_of(self.items, end),
            size: self.size,
        }
    }

    fn after_first(self, number: u64) -> WindowsOf<'a, T> {
        WindowsOf {
            items: rest_of(self.items, number),
            size: self.size,
        }
    }
}
