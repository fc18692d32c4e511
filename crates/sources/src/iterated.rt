//! A value, and what a step makes of it, again and again.
ghost use Rattle.std.specs.Prelude.{◌≡◌, IsTrue, length};
ghost use Rattle.sources.specs.Iterations.{iterates, coming};
ghost use Rattle.sources.specs.Unsplit.{NeverSplits};

use crate::Step;
use crate::counted::{capped, told};
use spliterator::{NoMemory, OrderedValue, Spliterator};
use stages::Mapping;

/// A value, what a step makes of it, what the step makes of that, and so on, so many items. It never splits, since each item
/// waits for the one before.
///
/// No step is taken before its item is asked for, and the first item takes none. An advance answers `NoMemory` where a step
/// finds none.
// java.util.stream.Stream, iterate, and then limit
#[derive(Clone, Copy)]
pub struct Iterated<T, M> {
    // the first item, or the one that was handed out last
    latest: T,
    step: M,
    is_begun: bool,
    left: u64,
}

impl<T: OrderedValue + Copy, M: Step<T> + Mapping<T, Out = T> + Copy> Iterated<T, M> {
    /// So many items from a first one on.
    ///
    /// ```text
    /// Iterated::new(1, Times(2), 5)    // 1, 2, 4, 8, 16
    /// ```
    pub fn new(seed: T, step: M, number: u64) -> Iterated<T, M>
        ensures { ⟦<Iterated<T, M> as Spliterator>⟧.items result
            ≡ iterates (M.image step) (T.content seed) number }
    {
        Iterated {
            latest: seed,
            step,
            is_begun: false,
            left: number,
        }
    }
}

impl<T: OrderedValue + Copy, M: Step<T> + Mapping<T, Out = T> + Copy> Spliterator
    for Iterated<T, M> {
    ghost use Rattle.sources.specs.Halves.{capped_count, told_by_count};
    ghost use Rattle.sources.specs.HalvesLaws.{IsEstimate-counts, CountsItems-by_count, IsSoundFor-by_count};
    ghost use Rattle.sources.specs.Unsplit.{IsSplit-never};

    type Item = T;

    ghost items = { λ s. coming (M.image s.step) s.is_begun (T.content s.latest) s.left };

    ghost weight = { λ s. s.left };

    ghost estimate = { λ s. capped_count (length (coming (M.image s.step) s.is_begun (T.content s.latest) s.left)) };

    ghost told = { λ s. told_by_count (length (coming (M.image s.step) s.is_begun (T.content s.latest) s.left)) };

    ghost MayRefuse = { λ s. IsTrue s.is_begun };

    ghost split_gives = { NeverSplits };

    fn try_advance(&mut self) -> Result<Option<T>, NoMemory> {
        if self.left == 0 {
            return Ok(None);
        }
        if self.is_begun {
            self.latest = self.step.image(&self.latest)?;
        }
        self.is_begun = true;
        self.left -= 1;
        Ok(Some(self.latest))
    }

    fn try_split(&mut self) -> Option<Iterated<T, M>> {
        None
    }

    fn estimate_size(&self) -> u64 {
        capped(self.left)
    }

    fn characteristics(&self) -> u32 {
        told(self.left)
    }

    ghost split_law = { IsSplit-never _ _ _ _ };

    ghost size_law = { λ s. IsEstimate-counts _ _ _ _ (CountsItems-by_count (λ r. coming (M.image r.step) r.is_begun (T.content r.latest) r.left)) s };

    ghost flag_law = { λ s. IsSoundFor-by_count T.order (coming (M.image s.step) s.is_begun (T.content s.latest) s.left) };
}
