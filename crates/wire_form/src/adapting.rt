//! Collectors over images or some of the items, and over a result, as JSON: what stands downstream.

use crate::{FromWire, WireError, WireForm};
use collectors::{Collector, FilteringTo, MappingTo};
use derived_collectors::{CollectingAndThen, Finisher, FlatMappingTo, ListOfValues};
use serde_json::Value as Json;
use spliterator::{NoMemory, Value};
use stages::{ListValue, Mapping, Test};
use std::alloc::Global;

impl<T: Value, D: WireForm, M: Mapping<T, Out = D::Item>> WireForm for MappingTo<T, M, D>
where
    D::Item: Drop,
{
    ghost form = { λ c. D.form c.downstream };

    ghost levels = { λ c. D.levels c.downstream };

    ghost pinned = { λ c. D.pinned c.downstream };

    ghost shallow = { λ c. D.shallow c.downstream };

    ghost plain = { λ c. D.plain c.downstream };

    fn write(&self, alloc: Global, acc: D::Acc) -> Result<Json, NoMemory> {
        self.downstream.write(alloc, acc)
    }
}

impl<T: Value, D: FromWire, M: Mapping<T, Out = D::Item>> FromWire for MappingTo<T, M, D>
where
    D::Item: Drop,
{
    fn read(&self, alloc: Global, value: Json) -> Result<D::Acc, WireError> {
        self.downstream.read(alloc, value)
    }
}

impl<D: WireForm, P: Test<D::Item>> WireForm for FilteringTo<P, D> {
    ghost form = { λ c. D.form c.downstream };

    ghost levels = { λ c. D.levels c.downstream };

    ghost pinned = { λ c. D.pinned c.downstream };

    ghost shallow = { λ c. D.shallow c.downstream };

    ghost plain = { λ c. D.plain c.downstream };

    fn write(&self, alloc: Global, acc: D::Acc) -> Result<Json, NoMemory> {
        self.downstream.write(alloc, acc)
    }
}

impl<D: FromWire, P: Test<D::Item>> FromWire for FilteringTo<P, D> {
    fn read(&self, alloc: Global, value: Json) -> Result<D::Acc, WireError> {
        self.downstream.read(alloc, value)
    }
}

impl<T: Value, M: Mapping<T>, D: WireForm<Item = <M::Out as ListValue>::Item>> WireForm
    for FlatMappingTo<T, M, D>
where
    M::Out: ListOfValues,
{
    ghost form = { λ c. D.form c.downstream };

    ghost levels = { λ c. D.levels c.downstream };

    ghost pinned = { λ c. D.pinned c.downstream };

    ghost shallow = { λ c. D.shallow c.downstream };

    ghost plain = { λ c. D.plain c.downstream };

    fn write(&self, alloc: Global, acc: D::Acc) -> Result<Json, NoMemory> {
        self.downstream.write(alloc, acc)
    }
}

impl<T: Value, M: Mapping<T>, D: FromWire<Item = <M::Out as ListValue>::Item>> FromWire
    for FlatMappingTo<T, M, D>
where
    M::Out: ListOfValues,
{
    fn read(&self, alloc: Global, value: Json) -> Result<D::Acc, WireError> {
        self.downstream.read(alloc, value)
    }
}

impl<D: WireForm, F: Finisher<D::Out>> WireForm for CollectingAndThen<D, F> {
    ghost form = { λ c. D.form c.downstream };

    ghost levels = { λ c. D.levels c.downstream };

    ghost pinned = { λ c. D.pinned c.downstream };

    ghost shallow = { λ c. D.shallow c.downstream };

    ghost plain = { λ c. D.plain c.downstream };

    fn write(&self, alloc: Global, acc: D::Acc) -> Result<Json, NoMemory> {
        self.downstream.write(alloc, acc)
    }
}

impl<D: FromWire, F: Finisher<D::Out>> FromWire for CollectingAndThen<D, F> {
    fn read(&self, alloc: Global, value: Json) -> Result<D::Acc, WireError> {
        self.downstream.read(alloc, value)
    }
}
