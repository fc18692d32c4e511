//! The value of stages over numbers and a terminal.

ghost use Rattle.pipeline_meaning.specs.Stages.{number_stages};
ghost use Rattle.pipeline_value.specs.Typed.{number_told};
ghost use Rattle.pipeline_value.specs.Value.{Tells};

use crate::linked::linked;
use crate::number_end::number_end;
use crate::told::ValueError;
use chained_streams::Chain;
use parallel_streams::{Engine, Plumbing, Stream};
use pipeline_language::{NumberStage, NumberTerminal};
use pipeline_meaning::SeededHashes;
use std::thread::Threads;
use std::time::Clock;
use stealing_pool::Gate;
use value_text::Rope;

/// The text of the value of stages and a terminal, over a stream of numbers.
pub(crate) fn number_value<X>(
    engine: &Engine<'_, impl Threads + Clock + Sync, impl Gate + Sync>,
    hashes: SeededHashes,
    stream: X,
    stages: &[NumberStage],
    terminal: &NumberTerminal,
) -> Result<Rope, ValueError>
where
    X: Plumbing<Item = i64> + Drop,
    requires stream { X.ready stream }
    ensures { Tells (number_told terminal.now (number_stages stages.now (X.value stream))) result }
{
    let linked = linked(engine.alloc, hashes, stages)?;
    let chain = Chain {
        upstream: stream,
        links: linked.links,
    };
    number_end(engine, hashes, &chain.then(linked.steps), terminal)
}
