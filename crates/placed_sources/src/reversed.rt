//! A source from its back to its front.
ghost use Rattle.std.specs.Prelude.{◌≡◌, ⊤, length, reverse};

use sources::Placed;
use sources::counted::{capped, told};
use spliterator::{NoMemory, Spliterator};

/// The items of a source from its last to its first. They split in half, rounded down, from two on.
#[derive(Clone, Copy)]
pub struct Reversed<S> {
    source: S,
}

impl<S: Placed> Reversed<S> {
    /// ```text
    /// Reversed::new(RangeSplit::range(1, 4)?)    // 3, 2, 1
    /// ```
    pub fn new(source: S) -> Reversed<S>
        ensures { ⟦<Reversed<S> as Spliterator>⟧.items result ≡ reverse (S.items source) }
    {
        Reversed { source }
    }
}

impl<S: Placed> Spliterator for Reversed<S> {
    ghost use Rattle.sources.specs.Halves.{SplitsInHalf, capped_count, told_by_count};
    ghost use Rattle.sources.specs.HalvesLaws.{IsSplit-halves, IsEstimate-counts, CountsItems-by_count, IsSoundFor-by_count};

    type Item = S::Item;

    ghost items = { λ s. reverse (S.items s.source) };

    ghost weight = { λ s. length (reverse (S.items s.source)) };

    ghost estimate = { λ s. capped_count (length (reverse (S.items s.source))) };

    ghost told = { λ s. told_by_count (length (reverse (S.items s.source))) };

    // the advance that is asked is one of the last item alone, of which nothing is known before
    ghost MayRefuse = { λ _. ⊤ };

    ghost split_gives = { SplitsInHalf (λ s. reverse (S.items s.source)) };

    fn try_advance(&mut self) -> Result<Option<S::Item>, NoMemory> {
        let count = self.source.count();
        if count == 0 {
            return Ok(None);
        }
        let mut last = self.source.after_first(count - 1);
        let Some(item) = last.try_advance()? else {
            unreachable!()
        };
        self.source = self.source.first(count - 1);
        Ok(Some(item))
    }

    fn next_block(&mut self, most: usize, room: &mut Vec<S::Item>) -> Result<(), NoMemory> {
        let before = self.source.count().saturating_sub(most as u64);
        let mut block = self.source.after_first(before);
        block.next_block(most, room)?;
        room.as_mut_slice().reverse();
        self.source = self.source.first(before);
        Ok(())
    }

    fn try_split(&mut self) -> Option<Reversed<S>> {
        let half = self.count() / 2;
        if half == 0 {
            return None;
        }
        let part = self.first(half);
        *self = self.after_first(half);
        Some(part)
    }

    fn estimate_size(&self) -> u64 {
        capped(self.count())
    }

    fn characteristics(&self) -> u32 {
        told(self.count())
    }

    ghost split_law = { λ s part rest h. IsSplit-halves (λ r. reverse (S.items r.source)) _ _ _ (CountsItems-by_count (λ r. reverse (S.items r.source))) s part rest h };

    ghost size_law = { λ s. IsEstimate-counts (λ r. reverse (S.items r.source)) _ _ _ (CountsItems-by_count (λ r. reverse (S.items r.source))) s };

    ghost flag_law = { λ s. IsSoundFor-by_count S.Item.order (reverse (S.items s.source)) };
}

impl<S: Placed> Placed for Reversed<S> {
    fn count(&self) -> u64 {
        self.source.count()
    }

    fn first(self, most: u64) -> Reversed<S> {
        let before = self.source.count().saturating_sub(most);
        Reversed {
            source: self.source.after_first(before),
        }
    }

    fn after_first(self, number: u64) -> Reversed<S> {
        let left = self.source.count().saturating_sub(number);
        Reversed {
            source: self.source.first(left),
        }
    }
}
