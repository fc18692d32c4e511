ghost use Rattle.std.specs.Prelude.{◌≡◌, ⊤, length, map};

use crate::counted::{capped, told};
use crate::placed::{Placed, front_of, rest_of};
use spliterator::{NoMemory, OrderedValue, Spliterator, Value};
use std::alloc::AllocError;

/// References to a slice's items, from its front to its back, which splits in half, rounded down, from two items on. Nothing is cloned.
///
/// More than 2^63 - 1 items, which only items of no size can be, have no size that is told.
// java.util.Arrays, spliterator
pub struct LentSplit<'a, T> {
    items: &'a [T],
}

impl<'a, T> Clone for LentSplit<'a, T> {
    ghost is_clone = { λ s copy. copy ≡ s };

    ghost is_infallible = { λ _. ⊤ };

    fn clone(&self) -> Result<Self, AllocError> {
        Ok(*self)
    }
}

impl<'a, T> Copy for LentSplit<'a, T> {}

impl<'a, T: OrderedValue> LentSplit<'a, T> {
    pub fn new(items: &'a [T]) -> LentSplit<'a, T>
        ensures { ⟦<LentSplit<'a, T> as Spliterator>⟧.items result ≡ map T.content items.now }
    {
        LentSplit { items }
    }
}

impl<'a, T: OrderedValue> Spliterator for LentSplit<'a, T> {
    ghost use Rattle.sources.specs.Halves.{SplitsInHalf, capped_count, told_by_count};
    ghost use Rattle.sources.specs.HalvesLaws.{IsSplit-halves, IsEstimate-counts, CountsItems-by_count, IsSoundFor-by_count};

    type Item = &'a T;

    ghost items = { λ s. map T.content s.items.now };

    ghost weight = { λ s. length (map T.content s.items.now) };

    ghost estimate = { λ s. capped_count (length (map T.content s.items.now)) };

    ghost told = { λ s. told_by_count (length (map T.content s.items.now)) };

    ghost MayRefuse = { λ _. ⊥ };

    ghost split_gives = { SplitsInHalf (λ s. map T.content s.items.now) };

    fn try_advance(&mut self) -> Result<Option<&'a T>, NoMemory> {
        let Some((first, rest)) = self.items.split_first() else {
            return Ok(None);
        };
        self.items = rest;
        Ok(Some(first))
    }

    fn try_split(&mut self) -> Option<LentSplit<'a, T>> {
        let half = self.items.len() / 2;
        if half == 0 {
            return None;
        }
        let (part, rest) = self.items.split_at(half);
        self.items = rest;
        Some(LentSplit { items: part })
    }

    fn estimate_size(&self) -> u64 {
        capped(self.items.len() as u64)
    }

    fn characteristics(&self) -> u32 {
        told(self.items.len() as u64)
    }

    ghost split_law = { λ s part rest h. IsSplit-halves (λ r. map T.content r.items.now) _ _ _ (CountsItems-by_count (λ r. map T.content r.items.now)) s part rest h };

    ghost size_law = { λ s. IsEstimate-counts (λ r. map T.content r.items.now) _ _ _ (CountsItems-by_count (λ r. map T.content r.items.now)) s };

    ghost flag_law = { λ s. IsSoundFor-by_count T.order (map T.content s.items.now) };
}

impl<'a, T: OrderedValue> Placed for LentSplit<'a, T> {
    fn count(&self) -> u64 {
        self.items.len() as u64
    }

    fn first(self, most: u64) -> LentSplit<'a, T> {
        LentSplit {
            items: front_of(self.items, most),
        }
    }

    fn after_first(self, number: u64) -> LentSplit<'a, T> {
        LentSplit {
            items: rest_of(self.items, number),
        }
    }
}
