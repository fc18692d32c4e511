ghost use Rattle.std.specs.Prelude.{◌≡◌, ⊤, ◌≤◌, length, map};
ghost use Rattle.spliterator.specs.Clones.{ClonesAlike, TestsClonesAlike};
ghost use Rattle.sources.specs.Sections.{section};

use crate::Placed;
use crate::counted::{capped, told};
use spliterator::{NoMemory, OrderedValue, Spliterator, Value};
use std::alloc::AllocError;
use std::collections::VecDeque;

/// The clones of a deque's items from its front to its back, wherever they lie in its storage, which splits in half, rounded
/// down, from two items on.
///
/// An advance answers `NoMemory` where an item's clone finds none.
// java.util.ArrayDeque, spliterator
pub struct DequeSplit<'a, T: Value + Clone> {
    items: &'a VecDeque<T>,
    from: usize,
    to: usize,
    ghost ordered: { from ≤ to },
    ghost within: { to ≤ length items.now.items },
    ghost clones_alike: { TestsClonesAlike T.same T.is_clone T.content },
}

impl<'a, T: Value + Clone> Clone for DequeSplit<'a, T> {
    ghost is_clone = { λ s copy. copy ≡ s };

    ghost is_infallible = { λ _. ⊤ };

    fn clone(&self) -> Result<Self, AllocError> {
        Ok(*self)
    }
}

impl<'a, T: Value + Clone> Copy for DequeSplit<'a, T> {}

impl<'a, T: OrderedValue + Clone> DequeSplit<'a, T> {
    /// A clone of an item must have the item's content: a condition on the type `T`.
    pub fn new(items: &'a VecDeque<T>) -> DequeSplit<'a, T>
        requires { ClonesAlike T.is_clone T.content }
        ensures { ⟦<DequeSplit<'a, T> as Spliterator>⟧.items result ≡ map T.content items.now.items }
    {
        DequeSplit {
            items,
            from: 0,
            to: items.len(),
        }
    }
}

impl<'a, T: OrderedValue + Clone> Spliterator for DequeSplit<'a, T> {
    ghost use Rattle.sources.specs.Halves.{SplitsInHalf, capped_count, told_by_count};
    ghost use Rattle.sources.specs.HalvesLaws.{IsSplit-halves, IsEstimate-counts, CountsItems-by_count, IsSoundFor-by_count};

    type Item = T;

    ghost items = { λ s. map T.content (section s.from s.to s.items.now.items) };

    ghost weight = { λ s. length (map T.content (section s.from s.to s.items.now.items)) };

    ghost estimate = { λ s. capped_count (length (map T.content (section s.from s.to s.items.now.items))) };

    ghost told = { λ s. told_by_count (length (map T.content (section s.from s.to s.items.now.items))) };

    ghost MayRefuse = { λ _. ¬ ((x : T) → T.is_infallible x) };

    ghost split_gives = { SplitsInHalf (λ s. map T.content (section s.from s.to s.items.now.items)) };

    fn try_advance(&mut self) -> Result<Option<T>, NoMemory> {
        if self.from == self.to {
            return Ok(None);
        }
        let first = &self.items[self.from];
        let item = first.clone()?;
        self.from += 1;
        Ok(Some(item))
    }

    fn try_split(&mut self) -> Option<DequeSplit<'a, T>> {
        let half = (self.to - self.from) / 2;
        if half == 0 {
            return None;
        }
        let middle = self.from + half;
        let part = DequeSplit {
            items: self.items,
            from: self.from,
            to: middle,
        };
        self.from = middle;
        Some(part)
    }

    fn estimate_size(&self) -> u64 {
        capped((self.to - self.from) as u64)
    }

    fn characteristics(&self) -> u32 {
        told((self.to - self.from) as u64)
    }

    ghost split_law = { λ s part rest h. IsSplit-halves (λ r. map T.content (section r.from r.to r.items.now.items)) _ _ _ (CountsItems-by_count (λ r. map T.content (section r.from r.to r.items.now.items))) s part rest h };

    ghost size_law = { λ s. IsEstimate-counts (λ r. map T.content (section r.from r.to r.items.now.items)) _ _ _ (CountsItems-by_count (λ r. map T.content (section r.from r.to r.items.now.items))) s };

    ghost flag_law = { λ s. IsSoundFor-by_count T.order (map T.content (section s.from s.to s.items.now.items)) };
}

impl<'a, T: OrderedValue + Clone> Placed for DequeSplit<'a, T> {
    fn count(&self) -> u64 {
        (self.to - self.from) as u64
    }

    fn first(self, most: u64) -> DequeSplit<'a, T> {
        let number = self.count().min(most) as usize;
        DequeSplit {
            items: self.items,
            from: self.from,
            to: self.from + number,
        }
    }

    fn after_first(self, number: u64) -> DequeSplit<'a, T> {
        let number = self.count().min(number) as usize;
        DequeSplit {
            items: self.items,
            from: self.from + number,
            to: self.to,
        }
    }
}
