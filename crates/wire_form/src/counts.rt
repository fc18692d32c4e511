//! Counts and sums as JSON: numbers.
ghost use Rattle.std.proofs.Common.{zero-le};
ghost use Rattle.wire_form.specs.Forms.{number_form};
ghost use Rattle.wire_form.specs.FormLaws.{number_form-pinned, number_form-plain};

use crate::values::number_in;
use crate::{FromWire, WireError, WireForm};
use collectors::{Collector, Counting, SummingLong};
use serde_json::Value as Json;
use spliterator::{NoMemory, Value};
use stages::Mapping;
use std::alloc::Global;

impl<T: Value> WireForm for Counting<T> {
    ghost form = { λ _. number_form };

    ghost levels = { λ _. 0 };

    ghost pinned = { λ _. number_form-pinned };

    ghost shallow = { λ _ _. zero-le };

    ghost plain = { λ _. number_form-plain };

    fn write(&self, _alloc: Global, acc: i64) -> Result<Json, NoMemory> {
        Ok(Json::from(acc))
    }
}

impl<T: Value> FromWire for Counting<T> {
    fn read(&self, _alloc: Global, value: Json) -> Result<i64, WireError> {
        number_in(value).ok_or(WireError::OtherForm)
    }
}

impl<T: Value, M: Mapping<T, Out = i64>> WireForm for SummingLong<T, M> {
    ghost form = { λ _. number_form };

    ghost levels = { λ _. 0 };

    ghost pinned = { λ _. number_form-pinned };

    ghost shallow = { λ _ _. zero-le };

    ghost plain = { λ _. number_form-plain };

    fn write(&self, _alloc: Global, acc: i64) -> Result<Json, NoMemory> {
        Ok(Json::from(acc))
    }
}

impl<T: Value, M: Mapping<T, Out = i64>> FromWire for SummingLong<T, M> {
    fn read(&self, _alloc: Global, value: Json) -> Result<i64, WireError> {
        number_in(value).ok_or(WireError::OtherForm)
    }
}
