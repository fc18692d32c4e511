//! Reductions and joined texts as JSON: null, or what was joined.
ghost use Rattle.std.specs.Prelude.{◌+◌, option_map, string_bytes};
ghost use Rattle.wire_form.specs.Forms.{option_form, text_form};
ghost use Rattle.wire_form.specs.FormLaws.{option_form-pinned, option_form-plain, option_form-shallow, text_form-pinned, text_form-plain, text_form-shallow};

use crate::shapes::{read_option, write_option};
use crate::{FromWire, FromWireValue, WireError, WireForm, WireValue};
use collectors::{Collector, First, Joining, Reducing};
use serde_json::Value as Json;
use spliterator::{NoMemory, Text};
use stages::Operator;
use std::alloc::Global;

impl<T: WireValue + Clone + Drop, O: Operator<T>> WireForm for Reducing<T, O> {
    ghost form = { λ _ o. option_form (λ x. T.form (T.content x)) o };

    ghost levels = { λ _. T.levels + 1 };

    ghost pinned = { λ _. option_form-pinned (λ x. T.form (T.content x)) T.content
        (λ x y. T.pinned (T.content x) (T.content y)) };

    ghost shallow = { λ _. option_form-shallow (λ x. T.form (T.content x)) T.levels
        (λ x. T.shallow (T.content x)) };

    ghost plain = { λ _. option_form-plain (λ x. T.form (T.content x))
        (λ x. T.plain (T.content x)) };

    fn write(&self, alloc: Global, acc: Option<T>) -> Result<Json, NoMemory> {
        write_option(alloc, acc)
    }
}

impl<T: FromWireValue + Clone + Drop, O: Operator<T>> FromWire for Reducing<T, O> {
    fn read(&self, _alloc: Global, value: Json) -> Result<Option<T>, WireError> {
        read_option(value)
    }
}

impl<T: WireValue + Clone + Drop> WireForm for First<T> {
    ghost form = { λ _ o. option_form (λ x. T.form (T.content x)) o };

    ghost levels = { λ _. T.levels + 1 };

    ghost pinned = { λ _. option_form-pinned (λ x. T.form (T.content x)) T.content
        (λ x y. T.pinned (T.content x) (T.content y)) };

    ghost shallow = { λ _. option_form-shallow (λ x. T.form (T.content x)) T.levels
        (λ x. T.shallow (T.content x)) };

    ghost plain = { λ _. option_form-plain (λ x. T.form (T.content x))
        (λ x. T.plain (T.content x)) };

    fn write(&self, alloc: Global, acc: Option<T>) -> Result<Json, NoMemory> {
        write_option(alloc, acc)
    }
}

impl<T: FromWireValue + Clone + Drop> FromWire for First<T> {
    fn read(&self, _alloc: Global, value: Json) -> Result<Option<T>, WireError> {
        read_option(value)
    }
}

impl<'a, T: Text> WireForm for Joining<'a, T> {
    ghost form = { λ _ o. text_form (option_map string_bytes o) };

    ghost levels = { λ _. 0 };

    ghost pinned = { λ _ a b. text_form-pinned
        (option_map string_bytes a) (option_map string_bytes b) };

    ghost shallow = { λ _ a. text_form-shallow (option_map string_bytes a) };

    ghost plain = { λ _ a. text_form-plain (option_map string_bytes a) };

    fn write(&self, _alloc: Global, acc: Option<String>) -> Result<Json, NoMemory> {
        match acc {
            Some(joined) => Ok(Json::String(joined)),
            None => Ok(Json::Null),
        }
    }
}

impl<'a, T: Text> FromWire for Joining<'a, T> {
    fn read(&self, _alloc: Global, value: Json) -> Result<Option<String>, WireError> {
        match value {
            Json::String(joined) => Ok(Some(joined)),
            Json::Null => Ok(None),
            _ => Err(WireError::OtherForm),
        }
    }
}
