//! Two collectors at once, and the two sides of a test, as JSON: pairs.
ghost use Rattle.std.specs.Prelude.{◌+◌, max};
ghost use Rattle.std.proofs.Common.{ap₂};
ghost use Rattle.wire_form.specs.Forms.{pair_form};
ghost use Rattle.wire_form.specs.FormLaws.{pair-first, pair-second, pair_form-plain, pair_form-shallow, sides-shallow};

use crate::shapes::{pair, pair_of};
use crate::{FromWire, WireError, WireForm};
use collectors::{Collector, Pairing, Partition, PartitioningBy, Teeing};
use serde_json::Value as Json;
use spliterator::NoMemory;
use stages::Test;
use std::alloc::Global;

impl<A: WireForm, B: WireForm<Item = A::Item>, F: Pairing<A::Out, B::Out>> WireForm
    for Teeing<A, B, F> {
    ghost form = { λ c p. pair_form (A.form c.first p.0) (B.form c.second p.1) };

    ghost levels = { λ c. max (A.levels c.first) (B.levels c.second) + 1 };

    ghost pinned = { λ c p q h. ap₂ (λ a b. (a, b))
        (A.pinned c.first p.0 q.0 (pair-first h))
        (B.pinned c.second p.1 q.1 (pair-second h)) };

    ghost shallow = { λ c p. pair_form-shallow (A.form c.first p.0) (B.form c.second p.1)
        (A.levels c.first) (B.levels c.second)
        (A.shallow c.first p.0) (B.shallow c.second p.1) };

    ghost plain = { λ c p. pair_form-plain (A.form c.first p.0) (B.form c.second p.1)
        (A.plain c.first p.0) (B.plain c.second p.1) };

    fn write(&self, alloc: Global, acc: (A::Acc, B::Acc)) -> Result<Json, NoMemory> {
        let (first, second) = acc;
        let first = self.first.write(alloc, first)?;
        let second = self.second.write(alloc, second)?;
        pair(alloc, first, second)
    }
}

impl<A: FromWire, B: FromWire<Item = A::Item>, F: Pairing<A::Out, B::Out>> FromWire
    for Teeing<A, B, F> {
    fn read(&self, alloc: Global, value: Json) -> Result<(A::Acc, B::Acc), WireError> {
        let (first, second) = pair_of(value)?;
        let first = self.first.read(alloc, first)?;
        let second = self.second.read(alloc, second)?;
        Ok((first, second))
    }
}

impl<D: WireForm, P: Test<D::Item>> WireForm for PartitioningBy<P, D> {
    ghost form = { λ c p. pair_form (D.form c.downstream p.no) (D.form c.downstream p.yes) };

    ghost levels = { λ c. D.levels c.downstream + 1 };

    ghost pinned = { λ c p q h. ap₂ (λ a b. (a, b))
        (D.pinned c.downstream p.no q.no (pair-first h))
        (D.pinned c.downstream p.yes q.yes (pair-second h)) };

    ghost shallow = { λ c p. sides-shallow (D.form c.downstream)
        (D.levels c.downstream) (D.shallow c.downstream) p.no p.yes };

    ghost plain = { λ c p. pair_form-plain (D.form c.downstream p.no) (D.form c.downstream p.yes)
        (D.plain c.downstream p.no) (D.plain c.downstream p.yes) };

    fn write(&self, alloc: Global, acc: Partition<D::Acc>) -> Result<Json, NoMemory> {
        let no = self.downstream.write(alloc, acc.no)?;
        let yes = self.downstream.write(alloc, acc.yes)?;
        pair(alloc, no, yes)
    }
}

impl<D: FromWire, P: Test<D::Item>> FromWire for PartitioningBy<P, D> {
    fn read(&self, alloc: Global, value: Json) -> Result<Partition<D::Acc>, WireError> {
        let (no, yes) = pair_of(value)?;
        let no = self.downstream.read(alloc, no)?;
        let yes = self.downstream.read(alloc, yes)?;
        Ok(Partition { no, yes })
    }
}
