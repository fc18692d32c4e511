//! What a pipeline tells: the text of its value, or of a repeated key.

ghost use Rattle.std.specs.Prelude.{◌≡◌, Ok, option_map, List};
ghost use Rattle.value_text.specs.Texts.{optional_text};
ghost use Rattle.pipeline_value.specs.Value.{Tells, match_text, whole_text};
ghost use Rattle.spliterator.specs.Clones.{ClonesAlike};
ghost use Rattle.pipeline_value.specs.declared.told.ValueError.TheVariants as variants;

use collectors::Collector;
use parallel_streams::{Engine, Plumbing, Stream};
use pipeline_language::{AllItems, Quantifier};
use spliterator::{NoMemory, OrderedValue};
use stages::Test;
use std::alloc::{AllocError, Global};
use std::thread::Threads;
use std::time::Clock;
use stealing_pool::Gate;
use value_text::{JoinedText, Rope, Spelled, Summarizes, Written, text_of, write_result};

/// Why a pipeline has no value.
#[derive(Debug, Drop)]
pub enum ValueError {
    NoMemory,
    /// The text of a key that came before.
    DuplicateKey(String),
}

impl From<NoMemory> for ValueError {
    ghost from_gives = { λ _ e. e ≡ variants.NoMemory };

    fn from(_refused: NoMemory) -> ValueError {
        ValueError::NoMemory
    }
}

impl From<AllocError> for ValueError {
    ghost from_gives = { λ _ e. e ≡ variants.NoMemory };

    fn from(_refused: AllocError) -> ValueError {
        ValueError::NoMemory
    }
}

/// A value, told by its text.
pub(crate) fn told<V: Written>(alloc: Global, value: &V) -> Result<Rope, ValueError>
    ensures { Tells (Ok (V.text value.now)) result }
{
    let text = text_of(alloc, value)?;
    Ok(Rope::of(alloc, text))
}

/// An item, or that there is none, told by its text.
pub(crate) fn told_item<T: Spelled>(alloc: Global, found: &Option<T>) -> Result<Rope, ValueError>
    ensures { Tells (Ok (optional_text T.spelling (option_map T.content found.now))) result }
{
    told(alloc, found)
}

/// The text of what a collector makes of a stream.
pub(crate) fn collected<X, C>(
    engine: &Engine<'_, impl Threads + Clock + Sync, impl Gate + Sync>,
    stream: &X,
    collector: &C,
) -> Result<Rope, ValueError>
where
    X: Plumbing,
    C: Summarizes + Collector<Item = X::Item> + Sync,
    C::Acc: Send,
    C::Out: Written + Send,
    requires stream { X.ready stream.now }
    requires collector { C.ready collector.now }
    ensures { Tells (Ok (C.summary collector.now (X.value stream.now))) result }
{
    let made = stream.collect_on(engine, collector)?;
    told_summary(engine.alloc, collector, &made)
}

/// The text of what a collector made.
fn told_summary<C: Summarizes>(
    alloc: Global,
    collector: &C,
    made: &C::Out,
) -> Result<Rope, ValueError>
where
    C::Out: Written,
    ensures { (l : List C.Item.Content) → C.gives collector.now l made.now → Tells (Ok (C.summary collector.now l)) result }
{
    let mut text = String::new(alloc);
    write_result(collector, made, &mut text)?;
    Ok(Rope::of(alloc, text))
}

/// The text of what is made of all items of a stream.
pub(crate) fn whole_value<T, X>(
    engine: &Engine<'_, impl Threads + Clock + Sync, impl Gate + Sync>,
    stream: &X,
    made: AllItems,
) -> Result<Rope, ValueError>
where
    T: OrderedValue + Spelled + Clone + Drop + Send + Sync,
    X: Plumbing<Item = T>,
    requires stream { X.ready stream.now }
    requires clones { ClonesAlike T.is_clone T.content }
    ensures { Tells (Ok (whole_text T.spelling made (X.value stream.now))) result }
{
    let alloc = engine.alloc;
    match made {
        AllItems::Count => told(alloc, &stream.count_on(engine)?),
        AllItems::FindFirst => told_item(alloc, &stream.find_first_on(engine)?),
        AllItems::ToList => Ok(stream.collect_on(engine, &JoinedText::list(alloc))?),
    }
}

/// The text of whether a test holds of as many items of a stream.
pub(crate) fn match_value<X, P>(
    engine: &Engine<'_, impl Threads + Clock + Sync, impl Gate + Sync>,
    stream: &X,
    how: Quantifier,
    test: &P,
) -> Result<Rope, ValueError>
where
    X: Plumbing,
    P: Test<X::Item> + Sync,
    requires stream { X.ready stream.now }
    requires test { P.ready test.now }
    ensures { Tells (Ok (match_text how (P.holds test.now) (X.value stream.now))) result }
{
    let alloc = engine.alloc;
    match how {
        Quantifier::AllMatch => told(alloc, &stream.all_match_on(engine, test)?),
        Quantifier::AnyMatch => told(alloc, &stream.any_match_on(engine, test)?),
        Quantifier::NoneMatch => told(alloc, &stream.none_match_on(engine, test)?),
    }
}
