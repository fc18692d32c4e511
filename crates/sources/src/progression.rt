//! Numbers by one step.
ghost use Rattle.std.specs.Prelude.{◌≡◌, ◌≤◌, ◌^◌, ◌+ℤ◌, ◌*ℤ◌, neg_ℤ, length, map};
ghost use Rattle.std.specs.Int.{int_wrap, w64};
ghost use Rattle.sources.specs.Halves.{SplitsInHalf, told_sized};
ghost use Rattle.sources.specs.Progressions.{progression};

use crate::counted::COUNTED;
use crate::{Placed, RangeSplit};
use spliterator::{NoMemory, Spliterator};

/// A product that wraps.
fn product(a: i64, b: i64) -> i64
    ensures { result ≡ int_wrap w64 (a *ℤ b) }
{
    a.wrapping_mul(b)
}

/// A sum that wraps.
fn sum(a: i64, b: i64) -> i64
    ensures { result ≡ int_wrap w64 (a +ℤ b) }
{
    a.wrapping_add(b)
}

/// Numbers each of which is the one before and a step, wrapped. They split in half, rounded down, from two numbers on.
///
/// No call of theirs takes memory but that of a block, for its list.
#[derive(Clone, Copy, Debug)]
pub struct Progression {
    next: i64,
    step: i64,
    left: u64,
    ghost few: { left ≤ 2 ^ 62 },
}

impl Progression {
    /// The integers of a range.
    pub fn of(range: RangeSplit) -> Progression
        ensures { ⟦<Progression as Spliterator>⟧.items result ≡ ⟦<RangeSplit as Spliterator>⟧.items range }
    {
        Progression {
            next: range.next,
            step: 1,
            left: range.left,
        }
    }

    /// So much more than each number.
    pub fn plus(self, summand: i64) -> Progression
        ensures { ⟦<Progression as Spliterator>⟧.items result ≡ map (λ x. int_wrap w64 (x +ℤ summand)) (⟦<Progression as Spliterator>⟧.items self) }
    {
        Progression {
            next: sum(self.next, summand),
            step: self.step,
            left: self.left,
        }
    }

    /// So many times each number.
    pub fn times(self, factor: i64) -> Progression
        ensures { ⟦<Progression as Spliterator>⟧.items result ≡ map (λ x. int_wrap w64 (x *ℤ factor)) (⟦<Progression as Spliterator>⟧.items self) }
    {
        Progression {
            next: product(self.next, factor),
            step: product(self.step, factor),
            left: self.left,
        }
    }

    /// The negative of each number.
    pub fn negated(self) -> Progression
        ensures { ⟦<Progression as Spliterator>⟧.items result ≡ map (λ x. int_wrap w64 (neg_ℤ x)) (⟦<Progression as Spliterator>⟧.items self) }
    {
        Progression {
            next: self.next.wrapping_neg(),
            step: self.step.wrapping_neg(),
            left: self.left,
        }
    }
}

/// Writes numbers by one step over what a list holds.
fn write_steps(room: &mut [i64], first: i64, step: i64)
    ensures { room.new ≡ progression first step (length room.old) }
{
    let mut number = first;
    for x in room.iter_mut() {
        *x = number;
        number = sum(number, step);
    }
}

impl Spliterator for Progression {
    ghost use Rattle.sources.specs.HalvesLaws.{IsSplit-halves, IsEstimate-counts};
    ghost use Rattle.sources.specs.ProgressionLaws.{CountsItems-progression, IsSoundFor-sized};

    type Item = i64;

    ghost items = { λ p. progression p.next p.step p.left };

    ghost weight = { λ p. p.left };

    ghost estimate = { λ p. p.left };

    ghost told = { λ _. told_sized };

    ghost MayRefuse = { λ _. ⊥ };

    ghost split_gives = { SplitsInHalf (λ p. progression p.next p.step p.left) };

    fn try_advance(&mut self) -> Result<Option<i64>, NoMemory> {
        if self.left == 0 {
            return Ok(None);
        }
        let item = self.next;
        self.next = sum(item, self.step);
        self.left -= 1;
        Ok(Some(item))
    }

    fn next_block(&mut self, most: usize, room: &mut Vec<i64>) -> Result<(), NoMemory> {
        let count = self.left.min(most as u64);
        room.resize(count as usize, 0)?;
        write_steps(room.as_mut_slice(), self.next, self.step);
        *self = self.after_first(count);
        Ok(())
    }

    fn try_split(&mut self) -> Option<Progression> {
        let half = self.left / 2;
        if half == 0 {
            return None;
        }
        let part = self.first(half);
        *self = self.after_first(half);
        Some(part)
    }

    fn estimate_size(&self) -> u64 {
        self.left
    }

    fn characteristics(&self) -> u32 {
        COUNTED
    }

    ghost split_law = { λ p part rest h. IsSplit-halves (λ r. progression r.next r.step r.left) _ _ _ (CountsItems-progression (λ r. r.next) (λ r. r.step) (λ r. r.left) (λ r. r.few)) p part rest h };

    ghost size_law = { λ p. IsEstimate-counts (λ r. progression r.next r.step r.left) _ _ _ (CountsItems-progression (λ r. r.next) (λ r. r.step) (λ r. r.left) (λ r. r.few)) p };

    ghost flag_law = { λ p. IsSoundFor-sized _ (progression p.next p.step p.left) };
}

impl Placed for Progression {
    fn count(&self) -> u64 {
        self.left
    }

    fn first(self, most: u64) -> Progression {
        Progression {
            next: self.next,
            step: self.step,
            left: self.left.min(most),
        }
    }

    fn after_first(self, number: u64) -> Progression {
        let skipped = self.left.min(number);
        Progression {
            next: sum(self.next, product(skipped as i64, self.step)),
            step: self.step,
            left: self.left - skipped,
        }
    }
}
