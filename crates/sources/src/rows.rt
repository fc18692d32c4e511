ghost use Rattle.std.specs.Prelude.{◌≡◌, ⊤, length};
ghost use Rattle.spliterator.specs.Codes.{code_order};

use crate::counted::{capped, told};
use crate::placed::{Placed, front_of, rest_of};
use spliterator::{NoMemory, Row, Spliterator};
use std::alloc::AllocError;

/// Rows over a slice's items, of any type, from its front to its back, which splits in half, rounded down, from two items on. Nothing is cloned.
///
/// More than 2^63 - 1 items, which only items of no size can be, have no size that is told.
// java.util.Arrays, spliterator
pub struct RowsSplit<'a, T> {
    items: &'a [T],
}

impl<'a, T> Clone for RowsSplit<'a, T> {
    ghost is_clone = { λ s copy. copy ≡ s };

    ghost is_infallible = { λ _. ⊤ };

    fn clone(&self) -> Result<Self, AllocError> {
        Ok(*self)
    }
}

impl<'a, T> Copy for RowsSplit<'a, T> {}

impl<'a, T> RowsSplit<'a, T> {
    pub fn new(items: &'a [T]) -> RowsSplit<'a, T>
        ensures { ⟦<RowsSplit<'a, T> as Spliterator>⟧.items result ≡ items.now }
    {
        RowsSplit { items }
    }
}

impl<'a, T> Spliterator for RowsSplit<'a, T> {
    ghost use Rattle.sources.specs.Halves.{SplitsInHalf, capped_count, told_by_count};
    ghost use Rattle.sources.specs.HalvesLaws.{IsSplit-halves, IsEstimate-counts, CountsItems-by_count, IsSoundFor-by_count};

    type Item = Row<'a, T>;

    ghost items = { λ s. s.items.now };

    ghost weight = { λ s. length s.items.now };

    ghost estimate = { λ s. capped_count (length s.items.now) };

    ghost told = { λ s. told_by_count (length s.items.now) };

    ghost MayRefuse = { λ _. ⊥ };

    ghost split_gives = { SplitsInHalf (λ s. s.items.now) };

    fn try_advance(&mut self) -> Result<Option<Row<'a, T>>, NoMemory> {
        let Some((first, rest)) = self.items.split_first() else {
            return Ok(None);
        };
        self.items = rest;
        Ok(Some(Row(first)))
    }

    fn try_split(&mut self) -> Option<RowsSplit<'a, T>> {
        let half = self.items.len() / 2;
        if half == 0 {
            return None;
        }
        let (part, rest) = self.items.split_at(half);
        self.items = rest;
        Some(RowsSplit { items: part })
    }

    fn estimate_size(&self) -> u64 {
        capped(self.items.len() as u64)
    }

    fn characteristics(&self) -> u32 {
        told(self.items.len() as u64)
    }

    ghost split_law = { λ s part rest h. IsSplit-halves (λ r. r.items.now) _ _ _ (CountsItems-by_count (λ r. r.items.now)) s part rest h };

    ghost size_law = { λ s. IsEstimate-counts (λ r. r.items.now) _ _ _ (CountsItems-by_count (λ r. r.items.now)) s };

    ghost flag_law = { λ s. IsSoundFor-by_count (code_order T.row.coded) s.items.now };
}

impl<'a, T> Placed for RowsSplit<'a, T> {
    fn count(&self) -> u64 {
        self.items.len() as u64
    }

    fn first(self, most: u64) -> RowsSplit<'a, T> {
        RowsSplit {
            items: front_of(self.items, most),
        }
    }

    fn after_first(self, number: u64) -> RowsSplit<'a, T> {
        RowsSplit {
            items: rest_of(self.items, number),
        }
    }
}
