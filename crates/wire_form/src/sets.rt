//! Sets as JSON: arrays.
ghost use Rattle.std.specs.Prelude.{◌+◌, map};
ghost use Rattle.wire_form.specs.Forms.{list_form};
ghost use Rattle.wire_form.specs.FormLaws.{keys-pinned, list_form-plain, list_form-shallow};

use crate::shapes::{read_items, write_items};
use crate::{FromWire, FromWireValue, WireError, WireForm, WireValue};
use collectors::Collector;
use derived_collectors::ToSet;
use indexmap::IndexSet;
use serde_json::Value as Json;
use spliterator::{EqualValue, NoMemory};
use std::alloc::Global;
use std::hash::{BuildHasher, Hash};

impl<T: WireValue + EqualValue + Clone + Hash + Drop, S: BuildHasher + Copy> WireForm
    for ToSet<T, S> {
    ghost form = { λ _ set. list_form T.form (map T.content set.keys) };

    ghost levels = { λ _. T.levels + 1 };

    ghost pinned = { λ _ a b. keys-pinned T.form T.pinned
        (map T.content a.keys) (map T.content b.keys) };

    ghost shallow = { λ _ a. list_form-shallow T.form T.levels T.shallow (map T.content a.keys) };

    ghost plain = { λ _ a. list_form-plain T.form T.plain (map T.content a.keys) };

    fn write(&self, alloc: Global, acc: IndexSet<T, S>) -> Result<Json, NoMemory> {
        let mut items = Vec::with_capacity(alloc, acc.len())?;
        for item in acc {
            items.push(item)?;
        }
        write_items(alloc, items)
    }
}

impl<T: FromWireValue + EqualValue + Clone + Hash + Drop, S: BuildHasher + Copy> FromWire
    for ToSet<T, S> {
    fn read(&self, alloc: Global, value: Json) -> Result<IndexSet<T, S>, WireError> {
        let mut items = read_items::<T>(alloc, value)?;
        let number = items.len();
        let mut set = self.supply()?;
        self.accumulate_all_owned(&mut set, &mut items)?;
        if set.len() < number {
            return Err(WireError::OtherForm);
        }
        Ok(set)
    }
}
