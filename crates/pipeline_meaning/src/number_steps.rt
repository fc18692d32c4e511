//! The stages over numbers that look at one item at a time, as one stage that runs each over a whole block.
ghost use Rattle.std.specs.Prelude.{◌≡◌, ℕ, ℤ, IsTrue, IfOk, List, true, MatchBool, MatchOption, Option, flat_map};
ghost use Rattle.std.specs.Ordering.{int_cmp};
ghost use Rattle.pipeline_meaning.specs.NumberSteps.{number_images, number_step_images, is_map_step, only_maps, Follows, KeepsSound-number_steps};
ghost use Rattle.pipeline_meaning.specs.Walks.{row_of, size_of, IsStep};
ghost use Rattle.pipeline_meaning.specs.Stages.{number_stage, is_barrier_stage, is_map_stage};

use crate::number_copies::feed_steps;
use crate::{NumberCheck, NumberMapping};
use pipeline_language::NumberStage;
use spliterator::NoMemory;
use stages::{Operation, Sink, Stage};
use std::alloc::Global;

/// One stage, prepared.
#[derive(Clone, Copy)]
pub(crate) enum NumberStep {
    Map(NumberMapping),
    Filter(NumberCheck),
    Repeat(u64),
}

impl NumberStep {
    // `None` for a stage that looks at more than one item.
    fn of(stage: &NumberStage) -> Option<NumberStep>
        ensures { MatchOption result (IsTrue (is_barrier_stage stage.now)) (λ step. IsStep number_step_images number_stage is_map_step is_map_stage step stage.now) }
    {
        match *stage {
            NumberStage::Map(function) => Some(NumberStep::Map(NumberMapping::of(function))),
            NumberStage::Filter(test) => Some(NumberStep::Filter(NumberCheck::of(test))),
            NumberStage::FlatMap(number) => Some(NumberStep::Repeat(number)),
            NumberStage::Barrier(_) => None,
        }
    }

    fn is_map(&self) -> bool
        ensures { result ≡ is_map_step self.now }
    {
        matches!(self, NumberStep::Map(_))
    }
}

/// Stages over numbers up to the first that looks at more than one item, as one stage over blocks.
#[derive(Drop)]
pub struct NumberSteps {
    alloc: Global,
    steps: Vec<NumberStep>,
}

impl NumberSteps {
    /// No stage.
    pub fn new(alloc: Global) -> NumberSteps
        ensures means { (l : List ℤ) → flat_map (⟦<NumberSteps as Stage>⟧.expand result) l ≡ l }
        ensures size { (size : Option ℕ) → ⟦<NumberSteps as Stage>⟧.size_after result size ≡ size }
    {
        NumberSteps {
            alloc,
            steps: Vec::new(alloc),
        }
    }

    /// Puts a stage behind the others. Says whether it did: it doesn't put a stage that looks at more than one item.
    pub fn put(&mut self, stage: &NumberStage) -> Result<bool, NoMemory>
        ensures { IfOk result (λ is_put. MatchBool is_put (Follows stage.now self.old self.new)
            (IsTrue (is_barrier_stage stage.now) × (self.new ≡ self.old))) }
    {
        match NumberStep::of(stage) {
            Some(step) => {
                self.steps.push(step)?;
                Ok(true)
            }
            None => Ok(false),
        }
    }

    // Whether each number is its own image, with no step.
    fn is_nothing(&self) -> bool
        ensures { result ≡ true → (l : List ℤ) → flat_map (number_images self.now) l ≡ l }
    {
        matches!(self.steps.as_slice(), [])
    }

    // Whether each number has one image.
    fn keeps_size(&self) -> bool
        ensures { result ≡ only_maps self.now }
    {
        self.steps.iter().all(NumberStep::is_map)
    }
}

impl Stage for NumberSteps {
    type In = i64;

    type Out = i64;

    ghost expand = { number_images };

    ghost operation = { λ s. row_of (only_maps s) };

    ghost size_after = { λ s. size_of (only_maps s) };

    ghost flag_law = { λ s. KeepsSound-number_steps int_cmp s };

    // A number alone is a block of one.
    fn feed<K: Sink<i64>>(&self, x: i64, sink: &mut K) -> Result<(), NoMemory> {
        let mut items = Vec::from_array(self.alloc, [x])?;
        self.feed_all(&mut items, sink)
    }

    fn prefers_blocks(&self) -> bool {
        true
    }

    fn feed_all<K: Sink<i64>>(&self, items: &mut Vec<i64>, sink: &mut K) -> Result<(), NoMemory> {
        feed_steps(self.alloc, self.steps.as_slice(), items, sink)
    }

    fn lent_block<'a>(&'a self, items: &'a [i64]) -> Option<&'a [i64]> {
        if self.is_nothing() { Some(items) } else { None }
    }

    fn growth(&self) -> u64 {
        let mut growth: u64 = 1;
        for step in self.steps.iter() {
            if let NumberStep::Repeat(number) = step {
                growth = growth.saturating_mul(*number);
            }
        }
        growth.max(1)
    }

    fn operation(&self) -> Operation {
        if self.keeps_size() {
            Operation::Map
        } else {
            Operation::FlatMap
        }
    }

    fn size_after(&self, size: Option<u64>) -> Option<u64> {
        if self.keeps_size() { size } else { None }
    }
}
