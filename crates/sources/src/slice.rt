ghost use Rattle.std.specs.Prelude.{◌≡◌, ⊤, length, map};
ghost use Rattle.spliterator.specs.Clones.{ClonesAlike, TestsClonesAlike};

use crate::counted::{capped, told};
use crate::placed::{Placed, front_of, rest_of};
use spliterator::{NoMemory, OrderedValue, Spliterator, Value};
use std::alloc::AllocError;

/// The clones of a slice's items, from its front to its back, which splits in half, rounded down, from two items on.
///
/// An advance answers `NoMemory` where an item's clone finds none. More than 2^63 - 1 items, which only items of no size can be,
/// have no size that is told.
// java.util.Arrays, spliterator
pub struct SliceSplit<'a, T: Value + Clone> {
    items: &'a [T],
    ghost clones_alike: { TestsClonesAlike T.same T.is_clone T.content },
}

impl<'a, T: Value + Clone> Clone for SliceSplit<'a, T> {
    ghost is_clone = { λ s copy. copy ≡ s };

    ghost is_infallible = { λ _. ⊤ };

    fn clone(&self) -> Result<Self, AllocError> {
        Ok(*self)
    }
}

impl<'a, T: Value + Clone> Copy for SliceSplit<'a, T> {}

impl<'a, T: OrderedValue + Clone> SliceSplit<'a, T> {
    /// A clone of an item must have the item's content: a condition on the type `T`.
    pub fn new(items: &'a [T]) -> SliceSplit<'a, T>
        requires { ClonesAlike T.is_clone T.content }
        ensures { ⟦<SliceSplit<'a, T> as Spliterator>⟧.items result ≡ map T.content items.now }
    {
        SliceSplit { items }
    }
}

impl<'a, T: OrderedValue + Clone> Spliterator for SliceSplit<'a, T> {
    ghost use Rattle.sources.specs.Halves.{SplitsInHalf, capped_count, told_by_count};
    ghost use Rattle.sources.specs.HalvesLaws.{IsSplit-halves, IsEstimate-counts, CountsItems-by_count, IsSoundFor-by_count};

    type Item = T;

    ghost items = { λ s. map T.content s.items.now };

    ghost weight = { λ s. length (map T.content s.items.now) };

    ghost estimate = { λ s. capped_count (length (map T.content s.items.now)) };

    ghost told = { λ s. told_by_count (length (map T.content s.items.now)) };

    ghost MayRefuse = { λ _. ¬ ((x : T) → T.is_infallible x) };

    ghost split_gives = { SplitsInHalf (λ s. map T.content s.items.now) };

    fn try_advance(&mut self) -> Result<Option<T>, NoMemory> {
        let Some((first, rest)) = self.items.split_first() else {
            return Ok(None);
        };
        let item = first.clone()?;
        self.items = rest;
        Ok(Some(item))
    }

    fn next_block(&mut self, most: usize, room: &mut Vec<T>) -> Result<(), NoMemory> {
        let (block, rest) = self.items.split_at(most.min(self.items.len()));
        room.clear();
        room.extend_from_slice(block)?;
        self.items = rest;
        Ok(())
    }

    fn lent_block(&self, most: usize) -> Option<(&[T], SliceSplit<'a, T>)> {
        let (block, rest) = self.items.split_at(most.min(self.items.len()));
        Some((block, SliceSplit { items: rest }))
    }

    fn try_split(&mut self) -> Option<SliceSplit<'a, T>> {
        let half = self.items.len() / 2;
        if half == 0 {
            return None;
        }
        let (part, rest) = self.items.split_at(half);
        self.items = rest;
        Some(SliceSplit { items: part })
    }

    fn estimate_size(&self) -> u64 {
        capped(self.items.len() as u64)
    }

    fn characteristics(&self) -> u32 {
        told(self.items.len() as u64)
    }

    ghost split_law = { λ s part rest h. IsSplit-halves (λ r. map T.content r.items.now) _ _ _ (CountsItems-by_count (λ r. map T.content r.items.now)) s part rest h };

    ghost size_law = { λ s. IsEstimate-counts (λ r. map T.content r.items.now) _ _ _ (CountsItems-by_count (λ r. map T.content r.items.now)) s };

    ghost flag_law = { λ s. IsSoundFor-by_count T.order (map T.content s.items.now) };
}

impl<'a, T: OrderedValue + Clone> Placed for SliceSplit<'a, T> {
    fn count(&self) -> u64 {
        self.items.len() as u64
    }

    fn first(self, most: u64) -> SliceSplit<'a, T> {
        SliceSplit {
            items: front_of(self.items, most),
        }
    }

    fn after_first(self, number: u64) -> SliceSplit<'a, T> {
        SliceSplit {
            items: rest_of(self.items, number),
        }
    }
}
