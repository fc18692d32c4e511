//! The collector of a base of numbers, chosen at run time.
ghost use Rattle.std.proofs.Common.{ap};
ghost use Rattle.std.specs.Prelude.{◌≡◌, ℤ, pos, refl, codes, List};
ghost use Rattle.std.specs.Fmt.{signed_decimal};
ghost use Rattle.spliterator.specs.Values.{IsI64};
ghost use Rattle.collectors.specs.Either.{either_laws};
ghost use Rattle.collectors.specs.Reductions.{reduced};
ghost use Rattle.collectors.specs.Sums.{sum_laws};
ghost use Rattle.pipeline_meaning.specs.Functions.{merging_join};
ghost use Rattle.pipeline_meaning.specs.Adapting.{merging_laws};
ghost use Rattle.pipeline_meaning.specs.Summaries.{number_base_text};
ghost use Rattle.value_text.specs.Texts.{optional_tells, either_tells, joined_text_laws};

use crate::NumberMerging;
use collectors::{Collector, Counting, Reducing, SummingLong};
use either::{Either, Left, Right};
use pipeline_language::{Merge, NumberBase, NumberOnly};
use spliterator::NoMemory;
use std::alloc::Global;
use stream_functions::Itself;
use value_text::{ListText, Summarizes, Written};

// What is made of numbers at once, as is chosen at run time.
type NumberBaseChoice = Either<
    Either<Counting<i64>, SummingLong<i64, Itself>>,
    Either<Reducing<i64, NumberMerging>, ListText<i64>>,
>;

/// What is made of numbers at once. It has a type of its own, since a tower of `Either`s costs what stands over it.
#[derive(Drop)]
pub struct NumberBaseCollector {
    chosen: NumberBaseChoice,
}

/// The container of a `NumberBaseCollector`.
#[derive(Drop)]
pub struct NumberBaseContainer {
    held: <NumberBaseChoice as Collector>::Acc,
}

/// What a `NumberBaseCollector` makes.
#[derive(Drop)]
pub struct NumberBaseResult {
    made: <NumberBaseChoice as Collector>::Out,
}

impl Written for NumberBaseResult {
    ghost text = { λ result. ⟦<<NumberBaseChoice as Collector>::Out as Written>⟧.text result.made };

    fn write_to(&self, out: &mut String) -> Result<(), NoMemory> {
        self.made.write_to(out)
    }
}

impl Collector for NumberBaseCollector {
    type Item = i64;

    type Acc = NumberBaseContainer;

    type Out = NumberBaseResult;

    ghost ready = { λ c. ⟦<NumberBaseChoice as Collector>⟧.ready c.chosen };

    ghost Content = { ⟦<NumberBaseChoice as Collector>⟧.Content };

    ghost content = { λ c acc. ⟦<NumberBaseChoice as Collector>⟧.content c.chosen acc.held };

    ghost empty = { λ c. ⟦<NumberBaseChoice as Collector>⟧.empty c.chosen };

    ghost add = { λ c. ⟦<NumberBaseChoice as Collector>⟧.add c.chosen };

    ghost merge = { λ c. ⟦<NumberBaseChoice as Collector>⟧.merge c.chosen };

    ghost gives = { λ c l result. ⟦<NumberBaseChoice as Collector>⟧.gives c.chosen l result.made };

    ghost laws = { λ c. either_laws IsI64 _ _ _ _ _ _
        (either_laws IsI64 _ _ _ _ _ _ (λ _. sum_laws (λ _. pos 1) IsI64) (λ _. sum_laws (λ x. x) IsI64))
        (either_laws IsI64 _ _ _ _ _ _ (λ r. merging_laws r.operator) (λ _. joined_text_laws signed_decimal (codes ", ") IsI64))
        c.chosen };

    fn supply(&self) -> Result<NumberBaseContainer, NoMemory> {
        let held = self.chosen.supply()?;
        Ok(NumberBaseContainer { held })
    }

    #[inline(always)]
    fn accumulate(&self, acc: &mut NumberBaseContainer, x: &i64) -> Result<(), NoMemory> {
        self.chosen.accumulate(&mut acc.held, x)
    }

    fn accumulate_all(&self, acc: &mut NumberBaseContainer, items: &[i64]) -> Result<(), NoMemory> {
        self.chosen.accumulate_all(&mut acc.held, items)
    }

    fn combine(
        &self,
        left: &mut NumberBaseContainer,
        right: NumberBaseContainer,
    ) -> Result<(), NoMemory> {
        self.chosen.combine(&mut left.held, right.held)
    }

    fn finish(&self, acc: NumberBaseContainer) -> Result<NumberBaseResult, NoMemory> {
        let made = self.chosen.finish(acc.held)?;
        Ok(NumberBaseResult { made })
    }

    fn is_light(&self, acc: &NumberBaseContainer) -> bool {
        self.chosen.is_light(&acc.held)
    }

    fn counts_alone(&self) -> bool {
        self.chosen.counts_alone()
    }
}

impl Summarizes for NumberBaseCollector {
    ghost summary = { λ c. ⟦<NumberBaseChoice as Summarizes>⟧.summary c.chosen };

    ghost tells = { λ c l result. either_tells
        (either_tells (λ _ _ _ h. ap signed_decimal h) (λ _ _ _ h. ap signed_decimal h))
        (either_tells (λ r l made. optional_tells signed_decimal (λ x. x) signed_decimal (λ _. refl) made (reduced (merging_join r.operator) l)) (λ _ _ _ h. h))
        c.chosen l result.made };
}

/// The collector of a base of numbers.
pub fn number_base(alloc: Global, base: NumberBase) -> NumberBaseCollector
    ensures ready { ⟦<NumberBaseCollector as Collector>⟧.ready result }
    ensures summary { (l : List ℤ) → ⟦<NumberBaseCollector as Summarizes>⟧.summary result l
        ≡ number_base_text base l }
{
    let chosen = match base {
        NumberBase::Count => Left(Left(Counting::new())),
        NumberBase::Own(NumberOnly::Sum) => Left(Right(SummingLong::new(Itself))),
        NumberBase::Own(NumberOnly::Max) => Right(Left(Reducing::new(NumberMerging::of(
            Merge::Max,
        )))),
        NumberBase::Own(NumberOnly::Min) => Right(Left(Reducing::new(NumberMerging::of(
            Merge::Min,
        )))),
        NumberBase::First => Right(Left(Reducing::new(NumberMerging::of(Merge::First)))),
        NumberBase::ToList => Right(Right(ListText::new(alloc))),
    };
    NumberBaseCollector { chosen }
}
