//! One value, so many times.
ghost use Rattle.std.specs.Prelude.{◌≡◌, ⊤, length, replicate};
ghost use Rattle.spliterator.specs.Clones.{ClonesAlike, TestsClonesAlike};

use crate::Placed;
use crate::counted::{capped, told};
use spliterator::{NoMemory, OrderedValue, Spliterator, Value};
use std::alloc::AllocError;

/// So many clones of one value. They split in half, rounded down, from two on.
///
/// An advance answers `NoMemory` where the value's clone finds none. More than 2^63 - 1 clones have no size that is told.
// java.util.Collections, nCopies
pub struct CopiesSplit<'a, T: Value + Clone> {
    value: &'a T,
    left: u64,
    ghost clones_alike: { TestsClonesAlike T.same T.is_clone T.content },
}

impl<'a, T: Value + Clone> Clone for CopiesSplit<'a, T> {
    ghost is_clone = { λ s copy. copy ≡ s };

    ghost is_infallible = { λ _. ⊤ };

    fn clone(&self) -> Result<Self, AllocError> {
        Ok(*self)
    }
}

impl<'a, T: Value + Clone> Copy for CopiesSplit<'a, T> {}

impl<'a, T: OrderedValue + Clone> CopiesSplit<'a, T> {
    /// So many clones of a value. A clone must have the value's content: a condition on the type `T`.
    ///
    /// ```text
    /// CopiesSplit::new(&7, 3)    // 7, 7, 7
    /// ```
    // java.util.stream.Stream, generate, of a supplier that gives one value, and then limit
    pub fn new(value: &'a T, number: u64) -> CopiesSplit<'a, T>
        requires { ClonesAlike T.is_clone T.content }
        ensures { ⟦<CopiesSplit<'a, T> as Spliterator>⟧.items result
            ≡ replicate number (T.content value.now) }
    {
        CopiesSplit {
            value,
            left: number,
        }
    }
}

impl<'a, T: OrderedValue + Clone> Spliterator for CopiesSplit<'a, T> {
    ghost use Rattle.sources.specs.Halves.{SplitsInHalf, capped_count, told_by_count};
    ghost use Rattle.sources.specs.HalvesLaws.{IsSplit-halves, IsEstimate-counts, CountsItems-by_count, IsSoundFor-by_count};

    type Item = T;

    ghost items = { λ s. replicate s.left (T.content s.value.now) };

    ghost weight = { λ s. length (replicate s.left (T.content s.value.now)) };

    ghost estimate = { λ s. capped_count (length (replicate s.left (T.content s.value.now))) };

    ghost told = { λ s. told_by_count (length (replicate s.left (T.content s.value.now))) };

    ghost MayRefuse = { λ s. ¬ (T.is_infallible s.value.now) };

    ghost split_gives = { SplitsInHalf (λ s. replicate s.left (T.content s.value.now)) };

    fn try_advance(&mut self) -> Result<Option<T>, NoMemory> {
        if self.left == 0 {
            return Ok(None);
        }
        let item = self.value.clone()?;
        self.left -= 1;
        Ok(Some(item))
    }

    fn try_split(&mut self) -> Option<CopiesSplit<'a, T>> {
        let half = self.left / 2;
        if half == 0 {
            return None;
        }
        self.left -= half;
        Some(CopiesSplit {
            value: self.value,
            left: half,
        })
    }

    fn estimate_size(&self) -> u64 {
        capped(self.left)
    }

    fn characteristics(&self) -> u32 {
        told(self.left)
    }

    ghost split_law = { λ s part rest h. IsSplit-halves _ _ _ _ (CountsItems-by_count (λ r. replicate r.left (T.content r.value.now))) s part rest h };

    ghost size_law = { λ s. IsEstimate-counts _ _ _ _ (CountsItems-by_count (λ r. replicate r.left (T.content r.value.now))) s };

    ghost flag_law = { λ s. IsSoundFor-by_count T.order (replicate s.left (T.content s.value.now)) };
}

impl<'a, T: OrderedValue + Clone> Placed for CopiesSplit<'a, T> {
    fn count(&self) -> u64 {
        self.left
    }

    fn first(self, most: u64) -> CopiesSplit<'a, T> {
        CopiesSplit {
            value: self.value,
            left: self.left.min(most),
        }
    }

    fn after_first(self, number: u64) -> CopiesSplit<'a, T> {
        CopiesSplit {
            value: self.value,
            left: self.left.saturating_sub(number),
        }
    }
}
