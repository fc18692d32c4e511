//! What the terminals make of texts.

ghost use Rattle.std.specs.Prelude.{◌≡◌, bytes_eq, false};
ghost use Rattle.value_text.specs.Texts.{itself};
ghost use Rattle.pipeline_value.specs.Groups.{arranges};
ghost use Rattle.pipeline_value.specs.Typed.{text_told};
ghost use Rattle.pipeline_value.specs.Value.{Tells};
ghost use Rattle.spliterator.specs.Clones.{ClonesAlike};

use crate::arranged::{group_value, paired_value, parted_value, text_group};
use crate::linked::LanguageBarrier;
use crate::maps::{text_map, text_strict_map};
use crate::told::{ValueError, match_value, whole_value};
use chained_streams::Chain;
use parallel_streams::{Engine, Plumbing, Source, Staged, Stream};
use pipeline_language::{Joint, TextFunction, TextTerminal};
use pipeline_meaning::{SeededHashes, TextCheck, TextSteps, text_summary};
use sources::SliceSplit;
use spliterator::{SortedValue, Text};
use std::hash::Hash;
use std::thread::Threads;
use std::time::Clock;
use stealing_pool::Gate;
use stream_functions::{Itself, Length};
use value_text::{JoinedText, Rope, Spelled};

/// The chain of a list's texts.
pub(crate) type TextChain<'s, 'a> = Chain<
    Source<SliceSplit<'s, &'a str>>,
    TextSteps<'a>,
    LanguageBarrier<TextCheck<'a>>,
>;

/// The stream of a list's texts through stages.
pub(crate) type Texts<'s, 'a> = Staged<TextChain<'s, 'a>, TextSteps<'a>>;

/// The text of a terminal's value on a stream of texts.
pub(crate) fn text_end<'s, 'a>(
    engine: &Engine<'_, impl Threads + Clock + Sync, impl Gate + Sync>,
    hashes: SeededHashes,
    stream: &Texts<'s, 'a>,
    terminal: &TextTerminal<'a>,
) -> Result<Rope, ValueError>
    requires stream { ⟦<Texts<'s, 'a> as Plumbing>⟧.ready stream.now }
    ensures { Tells (text_told terminal.now (⟦<Texts<'s, 'a> as Plumbing>⟧.value stream.now)) result }
{
    let alloc = engine.alloc;
    match *terminal {
        TextTerminal::GroupBy(TextFunction::Length, summary) => {
            let group = text_group(alloc, hashes, summary);
            group_value(engine, hashes, stream, Length, group)
        }
        TextTerminal::GroupBy(TextFunction::Itself, summary) => {
            let group = text_group(alloc, hashes, summary);
            group_value(engine, hashes, stream, Itself, group)
        }
        TextTerminal::Partition(test, summary) => {
            let parts = text_summary(alloc, hashes, summary);
            parted_value(engine, stream, TextCheck::of(test), parts)
        }
        TextTerminal::Teeing(one, other) => {
            let one = text_summary(alloc, hashes, one);
            let other = text_summary(alloc, hashes, other);
            paired_value(engine, stream, one, other)
        }
        _ => plain_end(engine, hashes, stream, terminal),
    }
}

/// The text of the value of a terminal that arranges nothing, on a stream of texts.
fn plain_end<T, X>(
    engine: &Engine<'_, impl Threads + Clock + Sync, impl Gate + Sync>,
    hashes: SeededHashes,
    stream: &X,
    terminal: &TextTerminal<'_>,
) -> Result<Rope, ValueError>
where
    T: Text + SortedValue + Spelled + Hash + Clone + Copy + Drop + Send + Sync,
    X: Plumbing<Item = T>,
    requires stream { X.ready stream.now }
    requires plain { arranges terminal.now ≡ false }
    requires clones { ClonesAlike T.is_clone T.content }
    requires spelling { T.spelling ≡ itself }
    requires same { T.same ≡ bytes_eq }
    ensures { Tells (text_told terminal.now (X.value stream.now)) result }
{
    let alloc = engine.alloc;
    match *terminal {
        TextTerminal::Whole(made) => whole_value(engine, stream, made),
        TextTerminal::Match(how, test) => match_value(engine, stream, how, &TextCheck::of(test)),
        TextTerminal::Own(Joint::Plain(between)) => {
            Ok(stream.collect_on(engine, &JoinedText::new(alloc, between))?)
        }
        TextTerminal::Own(Joint::Within(between, front, back)) => {
            let joining = JoinedText::within(alloc, between, front, back);
            Ok(stream.collect_on(engine, &joining)?)
        }
        TextTerminal::ToMap(TextFunction::Length, value) => {
            text_map(engine, hashes, stream, Length, value)
        }
        TextTerminal::ToMap(TextFunction::Itself, value) => {
            text_map(engine, hashes, stream, Itself, value)
        }
        TextTerminal::ToMapStrict(TextFunction::Length, value) => {
            text_strict_map(engine, hashes, stream, Length, value)
        }
        TextTerminal::ToMapStrict(TextFunction::Itself, value) => {
            text_strict_map(engine, hashes, stream, Itself, value)
        }
        TextTerminal::GroupBy(_, _) | TextTerminal::Partition(_, _) | TextTerminal::Teeing(_, _) =>
            unreachable!(),
    }
}
