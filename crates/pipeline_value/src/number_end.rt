//! What the terminals make of numbers.

ghost use Rattle.pipeline_value.specs.Typed.{number_told};
ghost use Rattle.pipeline_value.specs.Value.{Tells};
ghost use Rattle.pipeline_language.specs.declared.grammar.Terminal.TheVariants.{Own};

use crate::arranged::{group_value, number_group, paired_value, parted_value};
use crate::maps::{merged_value, strict_value};
use crate::told::{ValueError, match_value, told, told_item, whole_value};
use collectors::SummingLong;
use parallel_streams::{Engine, Plumbing, Stream};
use pipeline_language::{NumberTerminal, NumberTotal};
use pipeline_meaning::{
    NumberCheck as Check, NumberMapping as Mapping, NumberMerging, SeededHashes, number_summary,
};
use stages::{Max, Min, WrapMul};
use std::thread::Threads;
use std::time::Clock;
use stealing_pool::Gate;
use stream_functions::Itself;
use value_text::Rope;

/// The text of a terminal's value on a stream of numbers.
pub(crate) fn number_end<X>(
    engine: &Engine<'_, impl Threads + Clock + Sync, impl Gate + Sync>,
    hashes: SeededHashes,
    stream: &X,
    terminal: &NumberTerminal,
) -> Result<Rope, ValueError>
where
    X: Plumbing<Item = i64>,
    requires stream { X.ready stream.now }
    ensures { Tells (number_told terminal.now (X.value stream.now)) result }
{
    let alloc = engine.alloc;
    match *terminal {
        NumberTerminal::Whole(made) => whole_value(engine, stream, made),
        NumberTerminal::Match(how, test) => match_value(engine, stream, how, &Check::of(test)),
        NumberTerminal::ToMap(key, value) => {
            let merge = NumberMerging::of(value.1);
            let (key, value) = (Mapping::of(key), Mapping::of(value.0));
            merged_value(engine, hashes, stream, key, value, merge)
        }
        NumberTerminal::ToMapStrict(key, value) => {
            strict_value(engine, hashes, stream, Mapping::of(key), Mapping::of(value))
        }
        NumberTerminal::Own(total) => total_value(engine, stream, total),
        NumberTerminal::GroupBy(key, summary) => {
            let group = number_group(alloc, hashes, summary);
            group_value(engine, hashes, stream, Mapping::of(key), group)
        }
        NumberTerminal::Partition(test, summary) => {
            let parts = number_summary(alloc, hashes, summary);
            parted_value(engine, stream, Check::of(test), parts)
        }
        NumberTerminal::Teeing(one, other) => {
            let one = number_summary(alloc, hashes, one);
            let other = number_summary(alloc, hashes, other);
            paired_value(engine, stream, one, other)
        }
    }
}

/// The text of what joins all numbers of a stream into one.
pub(crate) fn total_value<X>(
    engine: &Engine<'_, impl Threads + Clock + Sync, impl Gate + Sync>,
    stream: &X,
    total: NumberTotal,
) -> Result<Rope, ValueError>
where
    X: Plumbing<Item = i64>,
    requires stream { X.ready stream.now }
    ensures { Tells (number_told (Own total) (X.value stream.now)) result }
{
    let alloc = engine.alloc;
    match total {
        // a sum needs no question whether a number came before
        NumberTotal::Sum => {
            let sum = SummingLong::new(Itself);
            told(alloc, &stream.collect_on(engine, &sum)?)
        }
        NumberTotal::Product => told(alloc, &stream.reduce_on(engine, 1, &WrapMul::new())?),
        NumberTotal::Max => told_item(alloc, &stream.reduce_optional_on(engine, &Max::new())?),
        NumberTotal::Min => told_item(alloc, &stream.reduce_optional_on(engine, &Min::new())?),
    }
}
