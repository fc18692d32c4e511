//! Groups and maps as JSON: their entries.
ghost use Rattle.std.specs.Prelude.{◌+◌, max};
ghost use Rattle.wire_form.specs.Forms.{entry_form, list_form};
ghost use Rattle.wire_form.specs.FormLaws.{entry_form-pinned, list_form-pinned, entries-plain, entries-shallow};

use crate::entries::{read_entries, write_entries};
use crate::kept::{Containers, Values};
use crate::{FromWire, FromWireValue, WireError, WireForm, WireValue};
use collectors::{Collector, GroupingBy, Groups, ToMap};
use serde_json::Value as Json;
use spliterator::{EqualValue, NoMemory, Value};
use stages::{Mapping, Operator};
use std::alloc::Global;
use std::hash::{BuildHasher, Hash};
use std::marker::PhantomData;

impl<D: WireForm, K: Mapping<D::Item>, S: BuildHasher + Copy> WireForm for GroupingBy<K, D, S>
where
    K::Out: WireValue + EqualValue + Hash + Drop,
{
    ghost form = { λ c m. list_form
        (entry_form (λ k. K.Out.form (K.Out.content k)) (D.form c.downstream)) m.entries.entries };

    ghost levels = { λ c. max K.Out.levels (D.levels c.downstream) + 2 };

    ghost pinned = { λ c a b. list_form-pinned
        (entry_form (λ k. K.Out.form (K.Out.content k)) (D.form c.downstream))
        (λ e. (K.Out.content e.0, D.content c.downstream e.1))
        (entry_form-pinned (λ k. K.Out.form (K.Out.content k)) (D.form c.downstream)
        K.Out.content (D.content c.downstream)
        (λ j k. K.Out.pinned (K.Out.content j) (K.Out.content k)) (D.pinned c.downstream))
        a.entries.entries b.entries.entries };

    ghost shallow = { λ c m. entries-shallow
        (λ k. K.Out.form (K.Out.content k)) (D.form c.downstream)
        K.Out.levels (D.levels c.downstream)
        (λ k. K.Out.shallow (K.Out.content k)) (D.shallow c.downstream) m.entries.entries };

    ghost plain = { λ c m. entries-plain (λ k. K.Out.form (K.Out.content k)) (D.form c.downstream)
        (λ k. K.Out.plain (K.Out.content k)) (D.plain c.downstream) m.entries.entries };

    fn write(&self, alloc: Global, acc: Groups<K::Out, D::Acc, S>) -> Result<Json, NoMemory> {
        let kept = Containers {
            collector: &self.downstream,
        };
        write_entries(alloc, &kept, acc.entries)
    }
}

impl<D: FromWire, K: Mapping<D::Item>, S: BuildHasher + Copy> FromWire for GroupingBy<K, D, S>
where
    K::Out: FromWireValue + EqualValue + Hash + Drop,
{
    fn read(&self, alloc: Global, value: Json) -> Result<Groups<K::Out, D::Acc, S>, WireError> {
        let kept = Containers {
            collector: &self.downstream,
        };
        let mut groups = self.supply()?;
        read_entries(alloc, &kept, &mut groups.entries, value)?;
        Ok(groups)
    }
}

impl<
    T: Value,
    U: WireValue + Drop,
    K: Mapping<T>,
    V: Mapping<T, Out = U>,
    M: Operator<U>,
    S: BuildHasher + Copy,
> WireForm for ToMap<T, U, K, V, M, S>
where
    K::Out: WireValue + EqualValue + Hash + Drop,
{
    ghost form = { λ _ m. list_form
        (entry_form (λ k. K.Out.form (K.Out.content k)) (λ x. U.form (U.content x)))
        m.entries.entries };

    ghost levels = { λ _. max K.Out.levels U.levels + 2 };

    ghost pinned = { λ _ a b. list_form-pinned
        (entry_form (λ k. K.Out.form (K.Out.content k)) (λ x. U.form (U.content x)))
        (λ e. (K.Out.content e.0, U.content e.1))
        (entry_form-pinned (λ k. K.Out.form (K.Out.content k)) (λ x. U.form (U.content x))
        K.Out.content U.content
        (λ j k. K.Out.pinned (K.Out.content j) (K.Out.content k))
        (λ x y. U.pinned (U.content x) (U.content y)))
        a.entries.entries b.entries.entries };

    ghost shallow = { λ _ m. entries-shallow
        (λ k. K.Out.form (K.Out.content k)) (λ x. U.form (U.content x))
        K.Out.levels U.levels
        (λ k. K.Out.shallow (K.Out.content k)) (λ x. U.shallow (U.content x)) m.entries.entries };

    ghost plain = { λ _ m. entries-plain
        (λ k. K.Out.form (K.Out.content k)) (λ x. U.form (U.content x))
        (λ k. K.Out.plain (K.Out.content k)) (λ x. U.plain (U.content x)) m.entries.entries };

    fn write(&self, alloc: Global, acc: Groups<K::Out, U, S>) -> Result<Json, NoMemory> {
        let kept = Values::<U> {
            values: PhantomData,
        };
        write_entries(alloc, &kept, acc.entries)
    }
}

impl<
    T: Value,
    U: FromWireValue + Drop,
    K: Mapping<T>,
    V: Mapping<T, Out = U>,
    M: Operator<U>,
    S: BuildHasher + Copy,
> FromWire for ToMap<T, U, K, V, M, S>
where
    K::Out: FromWireValue + EqualValue + Hash + Drop,
{
    fn read(&self, alloc: Global, value: Json) -> Result<Groups<K::Out, U, S>, WireError> {
        let kept = Values::<U> {
            values: PhantomData,
        };
        let mut map = self.supply()?;
        read_entries(alloc, &kept, &mut map.entries, value)?;
        Ok(map)
    }
}
