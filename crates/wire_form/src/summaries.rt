//! Summaries of numbers as JSON: a pair of the count and the sum, and a pair of the least and the greatest number.
ghost use Rattle.derived_collectors.specs.Summaries.{told};
ghost use Rattle.wire_form.specs.Forms.{facts_form};
ghost use Rattle.wire_form.specs.FormLaws.{facts_form-pinned, facts_form-plain, facts_form-shallow};

use crate::shapes::{pair, pair_of, read_option, write_option};
use crate::{FromWire, FromWireValue, WireError, WireForm};
use collectors::Collector;
use derived_collectors::{Summarizing, Summary};
use serde_json::Value as Json;
use spliterator::{NoMemory, Value};
use stages::Mapping;
use std::alloc::Global;

impl<T: Value, M: Mapping<T, Out = i64>> WireForm for Summarizing<T, M> {
    ghost form = { λ _ s. facts_form (told s) };

    ghost levels = { λ _. 3 };

    ghost pinned = { λ _ s t. facts_form-pinned (told s) (told t) };

    ghost shallow = { λ _ s. facts_form-shallow (told s) };

    ghost plain = { λ _ s. facts_form-plain (told s) };

    fn write(&self, alloc: Global, acc: Summary) -> Result<Json, NoMemory> {
        let totals = pair(alloc, Json::from(acc.count), Json::from(acc.sum))?;
        let least = write_option(alloc, acc.least)?;
        let greatest = write_option(alloc, acc.greatest)?;
        let bounds = pair(alloc, least, greatest)?;
        pair(alloc, totals, bounds)
    }
}

impl<T: Value, M: Mapping<T, Out = i64>> FromWire for Summarizing<T, M> {
    fn read(&self, _alloc: Global, value: Json) -> Result<Summary, WireError> {
        let (totals, bounds) = pair_of(value)?;
        let (count, sum) = pair_of(totals)?;
        let (least, greatest) = pair_of(bounds)?;
        let count = i64::read(count)?;
        let sum = i64::read(sum)?;
        let least = read_option(least)?;
        let greatest = read_option(greatest)?;
        Ok(Summary {
            count,
            sum,
            least,
            greatest,
        })
    }
}
