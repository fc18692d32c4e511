//! The language's collectors of numbers, one in another, each chosen at run time.
ghost use Rattle.std.specs.Prelude.{◌≡◌, ℤ, refl, List};
ghost use Rattle.std.specs.Fmt.{signed_decimal};
ghost use Rattle.std.specs.Ordering.{int_eq};
ghost use Rattle.spliterator.specs.Values.{IsI64, int_eq-decides};
ghost use Rattle.collectors.specs.Either.{either_laws};
ghost use Rattle.collectors.specs.GroupingLaws.{grouping_laws};
ghost use Rattle.pipeline_meaning.specs.Adapting.{numbers_behind, numbers_behind_laws};
ghost use Rattle.pipeline_meaning.specs.Functions.{mapping_image};
ghost use Rattle.pipeline_meaning.specs.Summaries.{number_inner_text, number_summary_text};
ghost use Rattle.value_text.specs.Texts.{either_tells, groups_tell};
ghost use Rattle.pipeline_meaning.specs.contracts.number_bases.NumberBaseCollectorCollector.TheImpl.Laws as base;
ghost use Rattle.pipeline_meaning.specs.contracts.number_bases.NumberBaseCollectorSummarizes.TheImpl.Laws as tells;

use crate::number_bases::{NumberBaseCollector, number_base};
use crate::seeded_hashes::SeededHashes;
use crate::{Adapted, Adapting, NumberCheck, NumberMapping};
use collectors::{Collector, GroupingBy};
use either::{Either, Left, Right};
use pipeline_language::{NumberInner, NumberSummary};
use spliterator::NoMemory;
use std::alloc::Global;
use value_text::{Summarizes, Written, grouped};

/// What is made of numbers inside another collector.
pub type NumberInnerCollector = Adapted<NumberMapping, NumberCheck, NumberBaseCollector>;

// What is made of some of the numbers, as is chosen at run time.
type NumberSummaryChoice = Either<
    Adapted<NumberMapping, NumberCheck, NumberInnerCollector>,
    GroupingBy<NumberMapping, NumberInnerCollector, SeededHashes>,
>;

/// What is made of some of the numbers.
#[derive(Drop)]
pub struct NumberSummaryCollector {
    chosen: NumberSummaryChoice,
}

/// The container of a `NumberSummaryCollector`.
#[derive(Drop)]
pub struct NumberSummaryContainer {
    held: <NumberSummaryChoice as Collector>::Acc,
}

/// What a `NumberSummaryCollector` makes.
#[derive(Drop)]
pub struct NumberSummaryResult {
    made: <NumberSummaryChoice as Collector>::Out,
}

impl Written for NumberSummaryResult {
    ghost text = { λ result. ⟦<<NumberSummaryChoice as Collector>::Out as Written>⟧.text result.made };

    fn write_to(&self, out: &mut String) -> Result<(), NoMemory> {
        self.made.write_to(out)
    }
}

impl Collector for NumberSummaryCollector {
    type Item = i64;

    type Acc = NumberSummaryContainer;

    type Out = NumberSummaryResult;

    ghost ready = { λ c. ⟦<NumberSummaryChoice as Collector>⟧.ready c.chosen };

    ghost Content = { ⟦<NumberSummaryChoice as Collector>⟧.Content };

    ghost content = { λ c acc. ⟦<NumberSummaryChoice as Collector>⟧.content c.chosen acc.held };

    ghost empty = { λ c. ⟦<NumberSummaryChoice as Collector>⟧.empty c.chosen };

    ghost add = { λ c. ⟦<NumberSummaryChoice as Collector>⟧.add c.chosen };

    ghost merge = { λ c. ⟦<NumberSummaryChoice as Collector>⟧.merge c.chosen };

    ghost gives = { λ c l result. ⟦<NumberSummaryChoice as Collector>⟧.gives c.chosen l result.made };

    ghost laws = { λ c. either_laws IsI64 _ _ _ _ _ _
        (λ a. numbers_behind_laws (numbers_behind_laws (base.laws-law a.downstream.downstream) a.downstream.step) a.step)
        (λ g. grouping_laws int_eq int_eq-decides (mapping_image g.key) IsI64 _ _ _ (numbers_behind_laws (base.laws-law g.downstream.downstream) g.downstream.step))
        c.chosen };

    fn supply(&self) -> Result<NumberSummaryContainer, NoMemory> {
        let held = self.chosen.supply()?;
        Ok(NumberSummaryContainer { held })
    }

    fn accumulate(&self, acc: &mut NumberSummaryContainer, x: &i64) -> Result<(), NoMemory> {
        self.chosen.accumulate(&mut acc.held, x)
    }

    fn accumulate_all(
        &self,
        acc: &mut NumberSummaryContainer,
        items: &[i64],
    ) -> Result<(), NoMemory> {
        self.chosen.accumulate_all(&mut acc.held, items)
    }

    fn combine(
        &self,
        left: &mut NumberSummaryContainer,
        right: NumberSummaryContainer,
    ) -> Result<(), NoMemory> {
        self.chosen.combine(&mut left.held, right.held)
    }

    fn finish(&self, acc: NumberSummaryContainer) -> Result<NumberSummaryResult, NoMemory> {
        let made = self.chosen.finish(acc.held)?;
        Ok(NumberSummaryResult { made })
    }

    fn is_light(&self, acc: &NumberSummaryContainer) -> bool {
        self.chosen.is_light(&acc.held)
    }
}

impl Summarizes for NumberSummaryCollector {
    ghost summary = { λ c. ⟦<NumberSummaryChoice as Summarizes>⟧.summary c.chosen };

    ghost tells = { λ c l result. either_tells
        (λ a l. tells.tells-law a.downstream.downstream (numbers_behind a.downstream.step (numbers_behind a.step l)))
        (λ g l made. groups_tell signed_decimal (λ x. x) signed_decimal (λ _. refl) int_eq (mapping_image g.key) _ _ _
        (λ l. tells.tells-law g.downstream.downstream (numbers_behind g.downstream.step l)) l made.entries)
        c.chosen l result.made };
}

/// The collector of numbers inside another.
pub fn number_inner(alloc: Global, inner: NumberInner) -> NumberInnerCollector
    ensures ready { ⟦<NumberInnerCollector as Collector>⟧.ready result }
    ensures summary { (l : List ℤ) → ⟦<NumberInnerCollector as Summarizes>⟧.summary result l
        ≡ number_inner_text inner l }
{
    let (step, base) = match inner {
        NumberInner::Base(base) => (Adapting::Nothing, base),
        NumberInner::Mapping((function, base)) => {
            (Adapting::Mapping(NumberMapping::of(function)), base)
        }
        NumberInner::Filtering(test, base) => (Adapting::Filtering(NumberCheck::of(test)), base),
    };
    Adapted::new(step, number_base(alloc, base))
}

/// The collector of numbers. Groups are hashed by `hashes`, since whoever writes a file picks the keys.
pub fn number_summary(
    alloc: Global,
    hashes: SeededHashes,
    summary: NumberSummary,
) -> NumberSummaryCollector
    ensures ready { ⟦<NumberSummaryCollector as Collector>⟧.ready result }
    ensures summary { (l : List ℤ) → ⟦<NumberSummaryCollector as Summarizes>⟧.summary result l
        ≡ number_summary_text summary l }
{
    let (step, inner) = match summary {
        NumberSummary::Base(base) => (Adapting::Nothing, NumberInner::Base(base)),
        NumberSummary::Mapping((function, inner)) => {
            (Adapting::Mapping(NumberMapping::of(function)), inner)
        }
        NumberSummary::Filtering(test, inner) => {
            (Adapting::Filtering(NumberCheck::of(test)), inner)
        }
        NumberSummary::GroupBy(function, inner) => {
            let key = NumberMapping::of(function);
            let chosen = Right(grouped(alloc, key, number_inner(alloc, inner), hashes));
            return NumberSummaryCollector { chosen };
        }
    };
    let chosen = Left(Adapted::new(step, number_inner(alloc, inner)));
    NumberSummaryCollector { chosen }
}
