//! Every so many items of a source.
ghost use Rattle.std.specs.Prelude.{◌≡◌, ◌<◌, ⊤, length};
ghost use Rattle.placed_sources.specs.Steps.{every};

use sources::Placed;
use sources::counted::{capped, told};
use spliterator::{NoMemory, Spliterator};
use std::alloc::AllocError;

/// The first item of a source, and each that stands so many places behind the one before. They split in half, rounded down, from two
/// items on.
pub struct StepBy<S> {
    source: S,
    step: u64,
    ghost some: { 0 < step },
}

impl<S: Copy> Clone for StepBy<S> {
    ghost is_clone = { λ s copy. copy ≡ s };

    ghost is_infallible = { λ _. ⊤ };

    fn clone(&self) -> Result<Self, AllocError> {
        Ok(*self)
    }
}

impl<S: Copy> Copy for StepBy<S> {}

impl<S: Placed> StepBy<S> {
    /// ```text
    /// StepBy::new(RangeSplit::range(1, 9)?, 3)    // 1, 4, 7
    /// ```
    pub fn new(source: S, step: u64) -> StepBy<S>
        requires { 0 < step }
        ensures { ⟦<StepBy<S> as Spliterator>⟧.items result ≡ every step (S.items source) }
    {
        StepBy { source, step }
    }
}

impl<S: Placed> Spliterator for StepBy<S> {
    ghost use Rattle.sources.specs.Halves.{SplitsInHalf, capped_count, told_by_count};
    ghost use Rattle.sources.specs.HalvesLaws.{IsSplit-halves, IsEstimate-counts, CountsItems-by_count, IsSoundFor-by_count};

    type Item = S::Item;

    ghost items = { λ s. every s.step (S.items s.source) };

    ghost weight = { λ s. length (every s.step (S.items s.source)) };

    ghost estimate = { λ s. capped_count (length (every s.step (S.items s.source))) };

    ghost told = { λ s. told_by_count (length (every s.step (S.items s.source))) };

    ghost MayRefuse = { λ s. S.MayRefuse s.source };

    ghost split_gives = { SplitsInHalf (λ s. every s.step (S.items s.source)) };

    fn try_advance(&mut self) -> Result<Option<S::Item>, NoMemory> {
        let mut rest = self.source;
        let Some(item) = rest.try_advance()? else {
            return Ok(None);
        };
        self.source = rest.after_first(self.step - 1);
        Ok(Some(item))
    }

    fn try_split(&mut self) -> Option<StepBy<S>> {
        let half = self.count() / 2;
        if half == 0 {
            return None;
        }
        let part = self.first(half);
        *self = self.after_first(half);
        Some(part)
    }

    fn estimate_size(&self) -> u64 {
        capped(self.count())
    }

    fn characteristics(&self) -> u32 {
        told(self.count())
    }

    ghost split_law = { λ s part rest h. IsSplit-halves (λ r. every r.step (S.items r.source)) _ _ _ (CountsItems-by_count (λ r. every r.step (S.items r.source))) s part rest h };

    ghost size_law = { λ s. IsEstimate-counts (λ r. every r.step (S.items r.source)) _ _ _ (CountsItems-by_count (λ r. every r.step (S.items r.source))) s };

    ghost flag_law = { λ s. IsSoundFor-by_count S.Item.order (every s.step (S.items s.source)) };
}

impl<S: Placed> Placed for StepBy<S> {
    fn count(&self) -> u64 {
        self.source.count().div_ceil(self.step)
    }

    fn first(self, most: u64) -> StepBy<S> {
        let end = most.saturating_mul(self.step).min(self.source.count());
        StepBy {
            source: self.source.first(end),
            step: self.step,
        }
    }

    fn after_first(self, number: u64) -> StepBy<S> {
        let start = number.saturating_mul(self.step).min(self.source.count());
        StepBy {
            source: self.source.after_first(start),
            step: self.step,
        }
    }
}
