//! Groups, parts and pairs of a stream's items, told by their texts.

ghost use Rattle.std.specs.Prelude.{Ok, ◌≡◌, ℕ, ℤ, List};
ghost use Rattle.value_text.specs.Texts.{groups_text, parts_text, pair_text};
ghost use Rattle.pipeline_value.specs.Groups.{IsReady, group_text};
ghost use Rattle.pipeline_value.specs.Value.{Tells};
ghost use Rattle.pipeline_meaning.specs.Summaries.{number_summary_text, text_summary_text};

use crate::told::{ValueError, collected};
use collectors::{Collector, Counting, PartitioningBy, Teeing};
use parallel_streams::{Engine, Plumbing};
use pipeline_language::{NumberBase, NumberSummary, TextBase, TextSummary};
use pipeline_meaning::{
    NumberBaseCollector, NumberSummaryCollector, SeededHashes, TextBaseCollector,
    TextSummaryCollector, number_base, number_summary, text_base, text_summary,
};
use spliterator::EqualValue;
use stages::{Mapping, Test};
use std::alloc::Global;
use std::hash::Hash;
use std::thread::Threads;
use std::time::Clock;
use stealing_pool::Gate;
use value_text::{Both, Rope, Spelled, Summarizes, Written, grouped};

/// The text of what is kept of a stream's items of each key.
pub(crate) fn group_value<X, K, B, D>(
    engine: &Engine<'_, impl Threads + Clock + Sync, impl Gate + Sync>,
    hashes: SeededHashes,
    stream: &X,
    key: K,
    group: Group<B, D>,
) -> Result<Rope, ValueError>
where
    X: Plumbing,
    K: Mapping<X::Item> + Drop + Sync,
    K::Out: EqualValue + Spelled + Hash + Drop + Send,
    B: Summarizes + Collector<Item = X::Item> + Drop + Sync,
    B::Acc: Send,
    B::Out: Written + Send,
    D: Summarizes + Collector<Item = X::Item> + Drop + Sync,
    D::Acc: Send,
    D::Out: Written + Send,
    requires stream { X.ready stream.now }
    requires key { K.ready key }
    requires group { IsReady B.ready D.ready group }
    ensures { Tells (Ok (groups_text K.Out.spelling K.Out.same (K.image key) (group_text B.summary D.summary group) (X.value stream.now))) result }
{
    match group {
        Group::Count => grouped_value(engine, hashes, stream, key, Counting::new()),
        Group::Base(base) => grouped_value(engine, hashes, stream, key, base),
        Group::Summary(summary) => grouped_value(engine, hashes, stream, key, summary),
    }
}

/// The text of what a collector makes of a stream's items of each key.
fn grouped_value<X, K, D>(
    engine: &Engine<'_, impl Threads + Clock + Sync, impl Gate + Sync>,
    hashes: SeededHashes,
    stream: &X,
    key: K,
    downstream: D,
) -> Result<Rope, ValueError>
where
    X: Plumbing,
    K: Mapping<X::Item> + Drop + Sync,
    K::Out: EqualValue + Spelled + Hash + Drop + Send,
    D: Summarizes + Collector<Item = X::Item> + Drop + Sync,
    D::Acc: Send,
    D::Out: Written + Send,
    requires stream { X.ready stream.now }
    requires key { K.ready key }
    requires downstream { D.ready downstream }
    ensures { Tells (Ok (groups_text K.Out.spelling K.Out.same (K.image key) (D.summary downstream) (X.value stream.now))) result }
{
    collected(
        engine,
        stream,
        &grouped(engine.alloc, key, downstream, hashes),
    )
}

/// The text of what a collector makes of a stream's items that fail a test, and of those that pass.
pub(crate) fn parted_value<X, P, D>(
    engine: &Engine<'_, impl Threads + Clock + Sync, impl Gate + Sync>,
    stream: &X,
    test: P,
    downstream: D,
) -> Result<Rope, ValueError>
where
    X: Plumbing,
    P: Test<X::Item> + Drop + Sync,
    D: Summarizes + Collector<Item = X::Item> + Drop + Sync,
    D::Acc: Send,
    D::Out: Written + Send,
    requires stream { X.ready stream.now }
    requires test { P.ready test }
    requires downstream { D.ready downstream }
    ensures { Tells (Ok (parts_text (P.holds test) (D.summary downstream) (X.value stream.now))) result }
{
    collected(engine, stream, &PartitioningBy::new(test, downstream))
}

/// The text of what two collectors make of a stream's items.
pub(crate) fn paired_value<X, D>(
    engine: &Engine<'_, impl Threads + Clock + Sync, impl Gate + Sync>,
    stream: &X,
    first: D,
    second: D,
) -> Result<Rope, ValueError>
where
    X: Plumbing,
    D: Summarizes + Collector<Item = X::Item> + Drop + Sync,
    D::Acc: Send,
    D::Out: Written + Send,
    requires stream { X.ready stream.now }
    requires first { D.ready first }
    requires second { D.ready second }
    ensures { Tells (Ok (pair_text (D.summary first (X.value stream.now)) (D.summary second (X.value stream.now)))) result }
{
    collected(engine, stream, &Teeing::new(first, second, Both))
}

/// What is kept of the items of each key, by collectors.
#[derive(Drop)]
pub(crate) enum Group<B, D> {
    /// How many there are. A group keeps a number, where those below keep what is chosen at run time.
    Count,
    /// What is made of them at once. A group keeps less than one whose summary may itself group.
    Base(B),
    Summary(D),
}

/// What is kept of numbers.
pub(crate) type NumberGroup = Group<NumberBaseCollector, NumberSummaryCollector>;

/// What is kept of texts.
pub(crate) type TextGroup<'a> = Group<TextBaseCollector<'a>, TextSummaryCollector<'a>>;

/// What a summary keeps of the numbers of each key.
pub(crate) fn number_group(
    alloc: Global,
    hashes: SeededHashes,
    summary: NumberSummary,
) -> NumberGroup
    ensures ready { IsReady (λ c. ⟦<NumberBaseCollector as Collector>⟧.ready c) (λ c. ⟦<NumberSummaryCollector as Collector>⟧.ready c) result }
    ensures told { (l : List ℤ) → group_text (λ c. ⟦<NumberBaseCollector as Summarizes>⟧.summary c) (λ c. ⟦<NumberSummaryCollector as Summarizes>⟧.summary c) result l ≡ number_summary_text summary l }
{
    match summary {
        NumberSummary::Base(NumberBase::Count) => Group::Count,
        NumberSummary::Base(base) => Group::Base(number_base(alloc, base)),
        summary => Group::Summary(number_summary(alloc, hashes, summary)),
    }
}

/// What a summary keeps of the texts of each key.
pub(crate) fn text_group<'a>(
    alloc: Global,
    hashes: SeededHashes,
    summary: TextSummary<'a>,
) -> TextGroup<'a>
    ensures ready { IsReady (λ c. ⟦<TextBaseCollector<'a> as Collector>⟧.ready c) (λ c. ⟦<TextSummaryCollector<'a> as Collector>⟧.ready c) result }
    ensures told { (l : List (List ℕ)) → group_text (λ c. ⟦<TextBaseCollector<'a> as Summarizes>⟧.summary c) (λ c. ⟦<TextSummaryCollector<'a> as Summarizes>⟧.summary c) result l ≡ text_summary_text summary.entry l }
{
    match summary {
        TextSummary::Base(TextBase::Count) => Group::Count,
        TextSummary::Base(base) => Group::Base(text_base(alloc, base)),
        summary => Group::Summary(text_summary(alloc, hashes, summary)),
    }
}
