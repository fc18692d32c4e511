//! Items that ascend.
ghost use Rattle.std.specs.Prelude.{◌≡◌, ⊤, length, map};
ghost use Rattle.std.specs.List.Sorted.{IsSorted};
ghost use Rattle.sources.specs.Ascending.{IsSorted-prop};

use crate::counted::{capped, told_sorted};
use crate::placed::{Placed, front_of, rest_of};
use spliterator::{NoMemory, OrderedValue, Spliterator};
use std::alloc::AllocError;

/// References to items that ascend, in their order. They split in half, rounded down, from two on. Nothing is cloned.
///
/// They tell SORTED, so that a stream of them isn't sorted again. More than 2^63 - 1 items have no size that is told.
pub struct SortedSplit<'a, T: OrderedValue> {
    items: &'a [T],
    ghost ascending: { IsSorted T.order (map T.content items.now) } by { IsSorted-prop T.order (map T.content items.now) },
}

impl<'a, T: OrderedValue> Clone for SortedSplit<'a, T> {
    ghost is_clone = { λ s copy. copy ≡ s };

    ghost is_infallible = { λ _. ⊤ };

    fn clone(&self) -> Result<Self, AllocError> {
        Ok(*self)
    }
}

impl<'a, T: OrderedValue> Copy for SortedSplit<'a, T> {}

impl<'a, T: OrderedValue> SortedSplit<'a, T> {
    /// The items of a list that is sorted by their order.
    ///
    /// ```text
    /// SortedSplit::new(&[1, 2, 5])    // 1, 2, 5
    /// ```
    // java.util.SortedSet, spliterator
    pub fn new(items: &'a [T]) -> SortedSplit<'a, T>
        requires { IsSorted T.order (map T.content items.now) }
        ensures { let items_of = ⟦<SortedSplit<'a, T> as Spliterator>⟧.items in
            items_of result ≡ map T.content items.now }
    {
        SortedSplit { items }
    }
}

impl<'a, T: OrderedValue> Spliterator for SortedSplit<'a, T> {
    ghost use Rattle.sources.specs.Halves.{SplitsInHalf, capped_count};
    ghost use Rattle.sources.specs.HalvesLaws.{IsSplit-halves, IsEstimate-counts};
    ghost use Rattle.sources.specs.Ascending.{told_ascending, CountsItems-ascending, IsSoundFor-ascending};

    type Item = &'a T;

    ghost items = { λ s. map T.content s.items.now };

    ghost weight = { λ s. length (map T.content s.items.now) };

    ghost estimate = { λ s. capped_count (length (map T.content s.items.now)) };

    ghost told = { λ s. told_ascending (length (map T.content s.items.now)) };

    ghost MayRefuse = { λ _. ⊥ };

    ghost split_gives = { SplitsInHalf (λ s. map T.content s.items.now) };

    fn try_advance(&mut self) -> Result<Option<&'a T>, NoMemory> {
        let Some((first, rest)) = self.items.split_first() else {
            return Ok(None);
        };
        self.items = rest;
        Ok(Some(first))
    }

    fn try_split(&mut self) -> Option<SortedSplit<'a, T>> {
        let half = self.items.len() / 2;
        if half == 0 {
            return None;
        }
        let (part, rest) = self.items.split_at(half);
        self.items = rest;
        Some(SortedSplit { items: part })
    }

    fn estimate_size(&self) -> u64 {
        capped(self.items.len() as u64)
    }

    fn characteristics(&self) -> u32 {
        told_sorted(self.items.len() as u64)
    }

    ghost split_law = { λ s part rest h. IsSplit-halves _ _ _ _ (CountsItems-ascending (λ r. map T.content r.items.now)) s part rest h };

    ghost size_law = { λ s. IsEstimate-counts _ _ _ _ (CountsItems-ascending (λ r. map T.content r.items.now)) s };

    ghost flag_law = { λ s. IsSoundFor-ascending T.order T.order_total (map T.content s.items.now) s.ascending };
}

impl<'a, T: OrderedValue> Placed for SortedSplit<'a, T> {
    fn count(&self) -> u64 {
        self.items.len() as u64
    }

    fn first(self, most: u64) -> SortedSplit<'a, T> {
        SortedSplit {
            items: front_of(self.items, most),
        }
    }

    fn after_first(self, number: u64) -> SortedSplit<'a, T> {
        SortedSplit {
            items: rest_of(self.items, number),
        }
    }
}
