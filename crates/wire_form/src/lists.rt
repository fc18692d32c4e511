//! Lists as JSON: arrays.
ghost use Rattle.std.specs.Prelude.{◌+◌, map};
ghost use Rattle.wire_form.specs.Forms.{list_form};
ghost use Rattle.wire_form.specs.FormLaws.{list_form-pinned, list_form-plain, list_form-shallow, map-itself};

use crate::shapes::{read_items, write_items};
use crate::{FromWire, FromWireValue, WireError, WireForm, WireValue};
use collectors::{Collector, Pieces, ToList};
use serde_json::Value as Json;
use spliterator::NoMemory;
use std::alloc::Global;

impl<T: WireValue + Clone + Drop> WireForm for ToList<T> {
    ghost form = { λ _ v. list_form T.form (map T.content v) };

    ghost levels = { λ _. T.levels + 1 };

    ghost pinned = { λ _ a b h. map-itself
        (list_form-pinned T.form (λ x. x) T.pinned (map T.content a) (map T.content b) h) };

    ghost shallow = { λ _ a. list_form-shallow T.form T.levels T.shallow (map T.content a) };

    ghost plain = { λ _ a. list_form-plain T.form T.plain (map T.content a) };

    fn write(&self, alloc: Global, acc: Pieces<T>) -> Result<Json, NoMemory> {
        write_items(alloc, acc.into_list()?)
    }
}

impl<T: FromWireValue + Clone + Drop> FromWire for ToList<T> {
    fn read(&self, alloc: Global, value: Json) -> Result<Pieces<T>, WireError> {
        let mut items = read_items::<T>(alloc, value)?;
        let mut acc = self.supply()?;
        self.accumulate_all_owned(&mut acc, &mut items)?;
        Ok(acc)
    }
}
