//! The value of stages over texts and what follows them.

ghost use Rattle.std.specs.Prelude.{map};
ghost use Rattle.pipeline_meaning.specs.Functions.{text_length};
ghost use Rattle.pipeline_value.specs.Typed.{number_body_told, text_body_told, text_end_told};
ghost use Rattle.pipeline_value.specs.Value.{Tells};

use crate::linked::linked;
use crate::numbers::number_value;
use crate::text_end::{Texts, text_end};
use crate::told::ValueError;
use chained_streams::Chain;
use parallel_streams::{Engine, Plumbing, Stream, of};
use pipeline_language::{NumberBody, TextBody, TextEnd};
use pipeline_meaning::SeededHashes;
use pipeline_plan::{Plan, Section, Texts as OfTexts, optimised};
use sources::SliceSplit;
use spliterator::{OrderedValue, Text};
use std::thread::Threads;
use std::time::Clock;
use stealing_pool::Gate;
use stream_functions::Length;
use value_text::Rope;

/// The text of the value of a body, over a list of texts.
pub(crate) fn text_value<'s, 'a>(
    engine: &Engine<'_, impl Threads + Clock + Sync, impl Gate + Sync>,
    hashes: SeededHashes,
    items: &'s [&'a str],
    body: TextBody<'a>,
) -> Result<Rope, ValueError>
    ensures { Tells (text_body_told body.entry (map (λ t. t.now) items.now)) result }
{
    let TextBody { stages, end } = body;
    let source = Section {
        source: SliceSplit::new(items),
    };
    let mut plan: Plan<Section<SliceSplit<'s, &'a str>>, OfTexts<'a>> = Plan { source, stages };
    optimised(&mut plan);
    let linked = linked(engine.alloc, hashes, plan.stages.as_slice())?;
    let chain = Chain {
        upstream: of(plan.source.source),
        links: linked.links,
    };
    end_value(engine, hashes, chain.then(linked.steps), &end)
}

/// The text of the value of what follows stages over texts, over a stream of texts.
fn end_value<'s, 'a>(
    engine: &Engine<'_, impl Threads + Clock + Sync, impl Gate + Sync>,
    hashes: SeededHashes,
    texts: Texts<'s, 'a>,
    end: &TextEnd<'a>,
) -> Result<Rope, ValueError>
    requires texts { ⟦<Texts<'s, 'a> as Plumbing>⟧.ready texts }
    ensures { Tells (text_end_told end.now (⟦<Texts<'s, 'a> as Plumbing>⟧.value texts.entry)) result }
{
    match end {
        TextEnd::Terminal(terminal) => text_end(engine, hashes, &texts, terminal),
        TextEnd::Lengths(body) => lengths_value(engine, hashes, texts, body),
    }
}

/// The text of the value of a body over the lengths of a stream's texts.
fn lengths_value<T, X>(
    engine: &Engine<'_, impl Threads + Clock + Sync, impl Gate + Sync>,
    hashes: SeededHashes,
    texts: X,
    body: &NumberBody,
) -> Result<Rope, ValueError>
where
    T: Text + OrderedValue + Drop + Send + Sync,
    X: Plumbing<Item = T> + Drop,
    requires texts { X.ready texts }
    ensures { Tells (number_body_told body.now (map text_length (X.value texts))) result }
{
    let stages = body.stages.as_slice();
    number_value(engine, hashes, texts.map(Length), stages, &body.terminal)
}
