//! The value of a pipeline.

ghost use Rattle.pipeline_language.specs.Content.{program_of};
ghost use Rattle.pipeline_value.specs.Typed.{number_body_told, source_numbers};
ghost use Rattle.pipeline_value.specs.Value.{Tells, program_told};
ghost use Rattle.std.specs.Prelude.{◌≡◌, ℕ, List};
ghost use Rattle.pipeline_language.specs.Language.{Means};
ghost use Rattle.pipeline_language.specs.Syntax.{Program};

use crate::known::known_number_sum;
use crate::numbers::number_value;
use crate::ranges::{closed_numbers, open_numbers};
use crate::texts::text_value;
use crate::told::ValueError;
use parallel_streams::{Engine, of};
use pipeline_language::{NumberBody, NumberSource, Pipeline};
use pipeline_meaning::SeededHashes;
use pipeline_plan::{NumberRange, Numbers, Plan, Section, optimised};
use sources::{RangeSplit, SliceSplit};
use spliterator::Spliterator;
use std::thread::Threads;
use std::time::Clock;
use stealing_pool::Gate;
use value_text::Rope;

/// The text of a pipeline's value. Keys are hashed by `hashes`, since whoever writes a file picks them. A count that is known from the
/// source's size runs no leaf.
pub fn pipeline_value(
    engine: &Engine<'_, impl Threads + Clock + Sync, impl Gate + Sync>,
    hashes: SeededHashes,
    pipeline: Pipeline<'_>,
) -> Result<Rope, ValueError>
    ensures { Tells (program_told (program_of pipeline.entry)) result }
{
    match pipeline {
        Pipeline::Numbers(source, body) => source_value(engine, hashes, source, body),
        Pipeline::Texts(texts, body) => text_value(engine, hashes, texts.as_slice(), body),
    }
}

/// The text of the value of a body, over a source of numbers.
fn source_value(
    engine: &Engine<'_, impl Threads + Clock + Sync, impl Gate + Sync>,
    hashes: SeededHashes,
    source: NumberSource,
    body: NumberBody,
) -> Result<Rope, ValueError>
    ensures { Tells (number_body_told body (source_numbers source)) result }
{
    match source {
        NumberSource::Range(range) => range_value(engine, hashes, open_numbers(range), body),
        NumberSource::Closed(range) => range_value(engine, hashes, closed_numbers(range), body),
        NumberSource::Numbers(numbers) => list_value(engine, hashes, numbers.as_slice(), body),
    }
}

/// The text of the value of a body, over numbers as they stand.
fn list_value(
    engine: &Engine<'_, impl Threads + Clock + Sync, impl Gate + Sync>,
    hashes: SeededHashes,
    numbers: &[i64],
    body: NumberBody,
) -> Result<Rope, ValueError>
    ensures { Tells (number_body_told body numbers.now) result }
{
    let NumberBody { stages, terminal } = body;
    let source = Section {
        source: SliceSplit::new(numbers),
    };
    let mut plan: Plan<Section<SliceSplit<'_, i64>>, Numbers> = Plan { source, stages };
    optimised(&mut plan);
    number_value(
        engine,
        hashes,
        of(plan.source.source),
        plan.stages.as_slice(),
        &terminal,
    )
}

/// The text of the value of a body, over a range.
fn range_value(
    engine: &Engine<'_, impl Threads + Clock + Sync, impl Gate + Sync>,
    hashes: SeededHashes,
    range: RangeSplit,
    body: NumberBody,
) -> Result<Rope, ValueError>
    ensures { Tells (number_body_told body (⟦<RangeSplit as Spliterator>⟧.items range)) result }
{
    let NumberBody { stages, terminal } = body;
    let source = NumberRange::Range(range);
    let mut plan: Plan<NumberRange, Numbers> = Plan { source, stages };
    optimised(&mut plan);
    if let Some(told) = known_number_sum(engine, &plan, &terminal) {
        return told;
    }
    number_value(
        engine,
        hashes,
        of(plan.source.steps()),
        plan.stages.as_slice(),
        &terminal,
    )
}

/// All programs that a file means tell the same.
pub fn one_value()
    ensures by_file { (file : List ℕ) (one other : Program)
        → Means file one → Means file other → program_told one ≡ program_told other }
{}
