//! Two sources, place by place.
ghost use Rattle.std.specs.Prelude.{◌≡◌, ◌<◌, ◌^◌, pos, length, min, IfOk, IsErr, ◌↔◌};
ghost use Rattle.std.specs.List.{zip};
ghost use Rattle.placed_sources.specs.Zips.{numbered_from};

use sources::counted::{capped, told};
use sources::{Placed, RangeSplit, RangeTooLong};
use spliterator::{NoMemory, Spliterator};

/// The pairs of the items that stand at the same places of two sources: as many as the shorter one has. They split in half, rounded
/// down, from two pairs on, and each side is cut where the other is.
#[derive(Clone, Copy)]
pub struct Zip<A, B> {
    left: A,
    right: B,
}

impl<A: Placed, B: Placed> Zip<A, B> {
    /// ```text
    /// Zip::new(RangeSplit::range(1, 4)?, SliceSplit::new(&[7, 8]))    // (1, 7), (2, 8)
    /// ```
    pub fn new(left: A, right: B) -> Zip<A, B>
        ensures { ⟦<Zip<A, B> as Spliterator>⟧.items result
            ≡ zip (A.items left) (B.items right) }
    {
        Zip { left, right }
    }
}

impl<A: Placed, B: Placed> Spliterator for Zip<A, B> {
    ghost use Rattle.std.specs.Prelude.{◌⊎◌};
    ghost use Rattle.sources.specs.Halves.{SplitsInHalf, capped_count, told_by_count};
    ghost use Rattle.sources.specs.HalvesLaws.{IsSplit-halves, IsEstimate-counts, CountsItems-by_count, IsSoundFor-by_count};
    ghost use Rattle.spliterator.specs.Pairs.{by_first};

    type Item = (A::Item, B::Item);

    ghost items = { λ s. zip (A.items s.left) (B.items s.right) };

    ghost weight = { λ s. length (zip (A.items s.left) (B.items s.right)) };

    ghost estimate = { λ s. capped_count (length (zip (A.items s.left) (B.items s.right))) };

    ghost told = { λ s. told_by_count (length (zip (A.items s.left) (B.items s.right))) };

    ghost MayRefuse = { λ s. A.MayRefuse s.left ⊎ B.MayRefuse s.right };

    ghost split_gives = { SplitsInHalf (λ s. zip (A.items s.left) (B.items s.right)) };

    fn try_advance(&mut self) -> Result<Option<(A::Item, B::Item)>, NoMemory> {
        let mut left = self.left;
        let mut right = self.right;
        let Some(x) = left.try_advance()? else {
            return Ok(None);
        };
        let Some(y) = right.try_advance()? else {
            return Ok(None);
        };
        *self = Zip { left, right };
        Ok(Some((x, y)))
    }

    fn try_split(&mut self) -> Option<Zip<A, B>> {
        let half = self.count() / 2;
        if half == 0 {
            return None;
        }
        let part = self.first(half);
        *self = self.after_first(half);
        Some(part)
    }

    fn estimate_size(&self) -> u64 {
        capped(self.count())
    }

    fn characteristics(&self) -> u32 {
        told(self.count())
    }

    ghost split_law = { λ s part rest h. IsSplit-halves (λ r. zip (A.items r.left) (B.items r.right)) _ _ _ (CountsItems-by_count (λ r. zip (A.items r.left) (B.items r.right))) s part rest h };

    ghost size_law = { λ s. IsEstimate-counts (λ r. zip (A.items r.left) (B.items r.right)) _ _ _ (CountsItems-by_count (λ r. zip (A.items r.left) (B.items r.right))) s };

    ghost flag_law = { λ s. IsSoundFor-by_count (by_first A.Item.order B.Item.order) (zip (A.items s.left) (B.items s.right)) };
}

impl<A: Placed, B: Placed> Placed for Zip<A, B> {
    fn count(&self) -> u64 {
        self.left.count().min(self.right.count())
    }

    fn first(self, most: u64) -> Zip<A, B> {
        Zip {
            left: self.left.first(most),
            right: self.right.first(most),
        }
    }

    fn after_first(self, number: u64) -> Zip<A, B> {
        Zip {
            left: self.left.after_first(number),
            right: self.right.after_first(number),
        }
    }
}

/// The items of a source with their places, from 0 on. Refused exactly above 2^62 items.
///
/// ```text
/// indexed(SliceSplit::new(&[7, 8]))?    // (0, 7), (1, 8)
/// ```
pub fn indexed<S: Placed>(source: S) -> Result<Zip<RangeSplit, S>, RangeTooLong>
    ensures ok { let items = ⟦<Zip<RangeSplit, S> as Spliterator>⟧.items in
        IfOk result (λ s. items s ≡ numbered_from 0 (S.items source)) }
    ensures too_long { IsErr result ↔ (2 ^ 62 < length (S.items source)) }
{
    let count = source.count();
    if count > sources::MAX_RANGE {
        return Err(RangeTooLong);
    }
    let places = RangeSplit::range(0, count as i64)?;
    Ok(Zip::new(places, source))
}
