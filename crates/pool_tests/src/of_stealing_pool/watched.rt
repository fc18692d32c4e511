//! Functions of stages and collectors that tests watch.
ghost use Rattle.std.specs.Prelude.{◌≡◌, ◌*ℤ◌, ℤ, List, [], ◌++◌, int_lt};
ghost use Rattle.collectors.specs.NestedLaws.{push, list_laws};
ghost use Rattle.spliterator.specs.Values.{IsI64};
ghost use Rattle.stages.specs.Wrapping.{wrapped, wrapped-value};

use super::gates::{Between, HoldsFirst, wait_for};
use collectors::Collector;
use spliterator::NoMemory;
use stages::{Mapping, Test};
use std::alloc::Global;
use std::sync::atomic::{AtomicU64, Ordering};

/// A multiple of each number, but memory is refused at one of them.
#[derive(Drop)]
pub struct Times {
    pub factor: i64,
    pub refused: i64,
}

impl Times {
    /// None of the numbers of the rows is refused.
    pub fn new(factor: i64) -> Times {
        Times {
            factor,
            refused: -1,
        }
    }
}

impl Mapping<i64> for Times {
    type Out = i64;

    ghost image = { λ m x. wrapped (x *ℤ m.factor) };

    ghost images_are_values = { λ m x h. wrapped-value (x *ℤ m.factor) };

    fn image(&self, x: &i64) -> Result<i64, NoMemory> {
        if *x == self.refused {
            Err(NoMemory)
        } else {
            Ok(x.wrapping_mul(self.factor))
        }
    }
}

/// Each number as it is. A gate is told that it was met.
#[derive(Drop)]
pub struct Met<'a> {
    pub gate: &'a Between,
}

impl Mapping<i64> for Met<'_> {
    type Out = i64;

    ghost image = { λ _ x. x };

    ghost images_are_values = { λ f x h. h };

    fn image(&self, x: &i64) -> Result<i64, NoMemory> {
        self.gate.meet();
        Ok(*x)
    }
}

/// The number from which on downwards `Watched` counts.
const WATCHED: i64 = -4096;

/// The numbers above a limit. It counts how often it was asked of -4096 or less, and at -4096 it turns until leaf 0 has ended.
#[derive(Drop)]
pub struct Watched<'a> {
    pub limit: i64,
    pub gate: &'a HoldsFirst,
}

impl Test<i64> for Watched<'_> {
    ghost holds = { λ t x. int_lt t.limit x };

    fn holds(&self, x: &i64) -> bool {
        if *x <= WATCHED {
            self.gate.asked.fetch_add(1, Ordering::SeqCst);
        }
        if *x == WATCHED && !wait_for(&self.gate.first_ended, 1) {
            self.gate.missed.fetch_add(1, Ordering::SeqCst);
        }
        self.limit < *x
    }
}

/// Lists as `ToList` does, light ones where it says so. The first `together` calls of `combine` each turn until all of them were entered.
#[derive(Drop)]
pub struct MeetingLists {
    pub alloc: Global,
    pub light: bool,
    pub together: u64,
    pub entered: AtomicU64,
    pub missed: AtomicU64,
}

impl MeetingLists {
    pub fn new(alloc: Global, together: u64, light: bool) -> MeetingLists {
        MeetingLists {
            alloc,
            light,
            together,
            entered: AtomicU64::new(0),
            missed: AtomicU64::new(0),
        }
    }
}

impl Collector for MeetingLists {
    type Item = i64;

    type Acc = Vec<i64>;

    type Out = Vec<i64>;

    ghost Content = { List ℤ };

    ghost content = { λ _ v. v.items };

    ghost empty = { λ _. [] };

    ghost add = { λ _. push };

    ghost merge = { λ _ l r. l ++ r };

    ghost gives = { λ _ l v. v.items ≡ l };

    ghost laws = { λ _. list_laws IsI64 };

    fn supply(&self) -> Result<Vec<i64>, NoMemory> {
        Ok(Vec::new(self.alloc))
    }

    fn accumulate(&self, acc: &mut Vec<i64>, x: &i64) -> Result<(), NoMemory> {
        acc.push(*x)?;
        Ok(())
    }

    fn combine(&self, left: &mut Vec<i64>, mut right: Vec<i64>) -> Result<(), NoMemory> {
        let earlier = self.entered.fetch_add(1, Ordering::SeqCst);
        if earlier < self.together && !wait_for(&self.entered, self.together) {
            self.missed.fetch_add(1, Ordering::SeqCst);
        }
        left.append(&mut right)?;
        Ok(())
    }

    fn finish(&self, acc: Vec<i64>) -> Result<Vec<i64>, NoMemory> {
        Ok(acc)
    }

    fn is_light(&self, _acc: &Vec<i64>) -> bool {
        self.light
    }
}
