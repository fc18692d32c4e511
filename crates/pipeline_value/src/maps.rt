//! Maps of a stream's keys and values, told by their texts.

ghost use Rattle.std.specs.Prelude.{Ok, List, ◌≡◌};
ghost use Rattle.stages.specs.Operators.{IsAssociative};
ghost use Rattle.value_text.specs.Texts.{merged_text, itself};
ghost use Rattle.pipeline_value.specs.Value.{Tells, strict_told};
ghost use Rattle.pipeline_value.specs.Typed.{text_map_text, text_strict_told};

use crate::told::{ValueError, collected, told};
use collectors::{Collector, DuplicateKey, ToMap, ToMapStrict};
use indexmap::IndexMap;
use parallel_streams::{Engine, Plumbing, Stream};
use pipeline_language::{TextFunction, TextValue};
use pipeline_meaning::{NumberMerging, SeededHashes, TextMerging};
use spliterator::{EqualValue, OrderedValue, Text, Value};
use stages::{Mapping, Operator};
use std::alloc::Global;
use std::hash::Hash;
use std::thread::Threads;
use std::time::Clock;
use stealing_pool::Gate;
use stream_functions::{Itself, Length};
use value_text::{Rope, Spelled, text_of};

/// The text of the map of a stream's keys and values, where values of one key are merged.
pub(crate) fn merged_value<X, U, K, V, M>(
    engine: &Engine<'_, impl Threads + Clock + Sync, impl Gate + Sync>,
    hashes: SeededHashes,
    stream: &X,
    key: K,
    value: V,
    merge: M,
) -> Result<Rope, ValueError>
where
    X: Plumbing,
    U: Spelled + Drop + Send + Sync,
    K: Mapping<X::Item> + Drop + Sync,
    V: Mapping<X::Item, Out = U> + Drop + Sync,
    M: Operator<U> + Drop + Sync,
    K::Out: EqualValue + Spelled + Hash + Drop + Send,
    requires stream { X.ready stream.now }
    requires keys { K.ready key }
    requires values { V.ready value }
    requires merge { M.ready merge }
    requires associative { IsAssociative U.is_value (M.join merge) }
    ensures { Tells (Ok (merged_text K.Out.spelling U.spelling K.Out.same (K.image key) (V.image value) (M.join merge) (X.value stream.now))) result }
{
    let map = ToMap::with_hasher(engine.alloc, key, value, merge, hashes);
    collected(engine, stream, &map)
}

/// The text of the map of a stream's keys and values, or of the first key that comes again.
pub(crate) fn strict_value<X, K, V>(
    engine: &Engine<'_, impl Threads + Clock + Sync, impl Gate + Sync>,
    hashes: SeededHashes,
    stream: &X,
    key: K,
    value: V,
) -> Result<Rope, ValueError>
where
    X: Plumbing,
    K: Mapping<X::Item> + Drop + Sync,
    V: Mapping<X::Item> + Drop + Sync,
    K::Out: EqualValue + Spelled + Hash + Drop + Send,
    V::Out: Spelled + Drop + Send,
    requires stream { X.ready stream.now }
    requires keys { K.ready key }
    requires values { V.ready value }
    ensures { Tells (strict_told K.Out.spelling V.Out.spelling K.Out.same (K.image key) (V.image value) (X.value stream.now)) result }
{
    let strict = ToMapStrict::with_hasher(engine.alloc, key, value, hashes);
    let made = stream.collect_on(engine, &strict)?;
    told_strict(engine.alloc, &strict, &made)
}

/// The text of what a strict map's collector made.
fn told_strict<T: Value, K: Mapping<T>, V: Mapping<T>>(
    alloc: Global,
    _strict: &ToMapStrict<T, K, V, SeededHashes>,
    made: &Result<IndexMap<K::Out, V::Out, SeededHashes>, DuplicateKey<K::Out>>,
) -> Result<Rope, ValueError>
where
    K::Out: EqualValue + Spelled + Hash + Drop,
    V::Out: Spelled + Drop,
    ensures { (l : List T.Content) → ⟦<ToMapStrict<T, K, V, SeededHashes> as Collector>⟧.gives _strict.now l made.now → Tells (strict_told K.Out.spelling V.Out.spelling K.Out.same (K.image _strict.now.key) (V.image _strict.now.value) l) result }
{
    match made {
        Ok(entries) => told(alloc, entries),
        Err(repeated) => Err(ValueError::DuplicateKey(text_of(alloc, &repeated.key)?)),
    }
}

/// The text of the map of a stream's keys and values, where values of one key are merged.
pub(crate) fn text_map<T, X, K>(
    engine: &Engine<'_, impl Threads + Clock + Sync, impl Gate + Sync>,
    hashes: SeededHashes,
    stream: &X,
    key: K,
    value: TextValue,
) -> Result<Rope, ValueError>
where
    T: Text + OrderedValue + Spelled + Copy + Drop + Send + Sync,
    X: Plumbing<Item = T>,
    K: Mapping<T> + Drop + Sync,
    K::Out: EqualValue + Spelled + Hash + Drop + Send,
    requires stream { X.ready stream.now }
    requires keys { K.ready key }
    requires spelling { T.spelling ≡ itself }
    ensures { Tells (Ok (text_map_text K.Out.spelling K.Out.same (K.image key) value (X.value stream.now))) result }
{
    match value {
        TextValue::Length(merge) => {
            let merge = NumberMerging::of(merge);
            merged_value(engine, hashes, stream, key, Length, merge)
        }
        TextValue::Itself(merge) => {
            let merge = TextMerging::of(merge);
            merged_value(engine, hashes, stream, key, Itself, merge)
        }
    }
}

/// The text of the map of a stream's keys and values, or of the first key that comes again.
pub(crate) fn text_strict_map<T, X, K>(
    engine: &Engine<'_, impl Threads + Clock + Sync, impl Gate + Sync>,
    hashes: SeededHashes,
    stream: &X,
    key: K,
    value: TextFunction,
) -> Result<Rope, ValueError>
where
    T: Text + OrderedValue + Spelled + Copy + Drop + Send + Sync,
    X: Plumbing<Item = T>,
    K: Mapping<T> + Drop + Sync,
    K::Out: EqualValue + Spelled + Hash + Drop + Send,
    requires stream { X.ready stream.now }
    requires keys { K.ready key }
    requires spelling { T.spelling ≡ itself }
    ensures { Tells (text_strict_told K.Out.spelling K.Out.same (K.image key) value (X.value stream.now)) result }
{
    match value {
        TextFunction::Length => strict_value(engine, hashes, stream, key, Length),
        TextFunction::Itself => strict_value(engine, hashes, stream, key, Itself),
    }
}
