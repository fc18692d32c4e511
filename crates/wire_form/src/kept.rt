//! What a map keeps beside its keys: containers of a collector, or values.
ghost use Rattle.std.specs.Prelude.{◌≡◌, List, IfOk, IfErr, ⊤};
ghost use Rattle.serde_json.specs.Data.{Data};
ghost use Rattle.serde_json.specs.View.{view};
ghost use Rattle.collectors.specs.Laws.{IsContainerOf};

use crate::{FromWire, FromWireValue, WireError, WireForm, WireValue};
use serde_json::Value as Json;
use spliterator::NoMemory;
use std::alloc::Global;
use std::marker::PhantomData;

/// What writes the things that a map keeps.
pub(crate) trait WritesKept {
    type Kept: Drop;

    ghost form: { Self → Self.Kept → Data };

    fn write(&self, alloc: Global, kept: Self::Kept) -> Result<Json, NoMemory>
        ensures { IfOk result (λ value. view value ≡ form self.now kept) };
}

/// What reads them again.
pub(crate) trait ReadsKept: WritesKept {
    ghost ready: { Self → Type 0 };

    // what is read again
    ghost is_known: { Self → Self.Kept → Type 0 };

    fn read(&self, alloc: Global, value: Json) -> Result<Self::Kept, WireError>
        requires { ready self.now }
        ensures form { IfOk result (λ kept. Self.form self.now kept ≡ view value) }
        ensures known { (kept : Self.Kept) → is_known self.now kept
            → Self.form self.now kept ≡ view value → IfErr result (λ e. e ≡ WireError.NoMemory) };
}

/// A collector's containers.
#[derive(Drop)]
pub(crate) struct Containers<'a, D> {
    pub collector: &'a D,
}

impl<'a, D: WireForm> WritesKept for Containers<'a, D> {
    type Kept = D::Acc;

    ghost form = { λ k. D.form k.collector.now };

    fn write(&self, alloc: Global, kept: D::Acc) -> Result<Json, NoMemory> {
        self.collector.write(alloc, kept)
    }
}

impl<'a, D: FromWire> ReadsKept for Containers<'a, D> {
    ghost ready = { λ k. D.ready k.collector.now };

    ghost is_known = { λ k acc. let d = k.collector.now in
        (l : List D.Item.Content)
        × IsContainerOf D.Item.is_value (D.content d) (D.empty d) (D.add d) l acc };

    fn read(&self, alloc: Global, value: Json) -> Result<D::Acc, WireError> {
        self.collector.read(alloc, value)
    }
}

/// Values.
#[derive(Drop)]
pub(crate) struct Values<U> {
    pub values: PhantomData<U>,
}

impl<U: WireValue + Drop> WritesKept for Values<U> {
    type Kept = U;

    ghost form = { λ _ x. U.form (U.content x) };

    fn write(&self, alloc: Global, kept: U) -> Result<Json, NoMemory> {
        kept.write(alloc)
    }
}

impl<U: FromWireValue + Drop> ReadsKept for Values<U> {
    ghost ready = { λ _. ⊤ };

    ghost is_known = { λ _ x. U.is_value (U.content x) };

    fn read(&self, _alloc: Global, value: Json) -> Result<U, WireError> {
        U::read(value)
    }
}
