//! Collectors whose containers are written as JSON, and read again.
ghost use Rattle.std.specs.Prelude.{◌≡◌, ◌≤◌, ℕ, List, false, IfOk, IfErr};
ghost use Rattle.serde_json.specs.Data.{Data, depth};
ghost use Rattle.serde_json.specs.Written.{has_float};
ghost use Rattle.serde_json.specs.View.{view};
ghost use Rattle.wire_form.specs.Forms.{IsFormOf};

use crate::WireError;
use collectors::Collector;
use serde_json::Value as Json;
use spliterator::NoMemory;
use std::alloc::Global;

/// A collector whose containers can be written as JSON. A container's form tells its content.
pub trait WireForm: Collector {
    // what a container is written as
    ghost form: { Self → Self.Acc → Data };

    // how deep that nests
    ghost levels: { Self → ℕ };

    /// Writes a container.
    fn write(&self, alloc: Global, acc: Self::Acc) -> Result<Json, NoMemory>
        ensures { IfOk result (λ value. view value ≡ form self.now acc) };

    // containers of one form have one content
    ghost pinned: { (c : Self) (a b : Self.Acc) → form c a ≡ form c b
        → Self.Collector.content c a ≡ Self.Collector.content c b };

    ghost shallow: { (c : Self) (a : Self.Acc) → depth (form c a) ≤ levels c };

    // no number in it is a float
    ghost plain: { (c : Self) (a : Self.Acc) → has_float (form c a) ≡ false };
}

/// A collector whose containers can be read again.
pub trait FromWire: WireForm {
    /// The container that was written.
    fn read(&self, alloc: Global, value: Json) -> Result<Self::Acc, WireError>
        requires { Self.ready self.now }
        ensures form { IfOk result (λ acc. Self.form self.now acc ≡ view value) }
        ensures known { let c = self.now in
            let is_form = IsFormOf Self.Item.is_value
            (Self.content c) (Self.empty c) (Self.add c) (Self.form c) in
            (l : List Self.Item.Content) → is_form l (view value)
            → IfErr result (λ e. e ≡ WireError.NoMemory) };
}
