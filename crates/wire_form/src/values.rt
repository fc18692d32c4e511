//! Values that are written as JSON, and read again.
ghost use Rattle.std.specs.Prelude.{◌≡◌, ◌≤◌, ℕ, ℤ, false, IfOk, IfErr, IfSome, IsSome, refl};
ghost use Rattle.serde_json.specs.Data.{Data, string, depth};
ghost use Rattle.serde_json.specs.View.{view};
ghost use Rattle.serde_json.specs.Written.{has_float};
ghost use Rattle.spliterator.specs.Values.{IsI64};
ghost use Rattle.std.proofs.Common.{zero-le};
ghost use Rattle.wire_form.specs.Forms.{number_form};
ghost use Rattle.wire_form.specs.FormLaws.{number_form-pinned, number_form-plain, string-pinned};

use crate::WireError;
use serde_json::Value as Json;
use spliterator::{NoMemory, Value};
use std::alloc::Global;

/// A value that can be written as JSON. Its form tells its content.
pub trait WireValue: Value {
    // what a value of this content is written as
    ghost form: { Self.Content → Data };

    // how deep that nests
    ghost levels: { ℕ };

    /// Writes a value.
    fn write(self, alloc: Global) -> Result<Json, NoMemory>
        ensures { IfOk result (λ value. view value ≡ form (Self.content self)) };

    ghost pinned: { (a b : Self.Content) → form a ≡ form b → a ≡ b };

    ghost shallow: { (a : Self.Content) → depth (form a) ≤ levels };

    // no number in it is a float
    ghost plain: { (a : Self.Content) → has_float (form a) ≡ false };
}

/// A value that can be read again.
pub trait FromWireValue: WireValue {
    /// The value that was written.
    fn read(value: Json) -> Result<Self, WireError>
        ensures form { IfOk result (λ x. Self.form (Self.content x) ≡ view value) }
        ensures known { (a : Self.Content) → Self.is_value a → Self.form a ≡ view value
            → IfErr result (λ e. e ≡ WireError.NoMemory) };
}

impl WireValue for i64 {
    ghost form = { number_form };

    ghost levels = { 0 };

    ghost pinned = { number_form-pinned };

    ghost shallow = { λ _. zero-le };

    ghost plain = { number_form-plain };

    fn write(self, _alloc: Global) -> Result<Json, NoMemory> {
        Ok(Json::from(self))
    }
}

// The number that a value is, where it is one of an i64.
pub(crate) fn number_in(value: Json) -> Option<i64>
    ensures form { IfSome result (λ n. number_form n ≡ view value) }
    ensures known { (n : ℤ) → IsI64 n → number_form n ≡ view value → IsSome result }
{
    match value {
        Json::Number(number) => number.as_i64(),
        _ => None,
    }
}

impl FromWireValue for i64 {
    fn read(value: Json) -> Result<i64, WireError> {
        number_in(value).ok_or(WireError::OtherForm)
    }
}

impl WireValue for &str {
    ghost form = { string };

    ghost levels = { 0 };

    ghost pinned = { string-pinned };

    ghost shallow = { λ _. zero-le };

    ghost plain = { λ _. refl };

    fn write(self, alloc: Global) -> Result<Json, NoMemory> {
        Ok(Json::try_from_str(alloc, self)?)
    }
}

impl WireValue for String {
    ghost form = { string };

    ghost levels = { 0 };

    ghost pinned = { string-pinned };

    ghost shallow = { λ _. zero-le };

    ghost plain = { λ _. refl };

    fn write(self, _alloc: Global) -> Result<Json, NoMemory> {
        Ok(Json::String(self))
    }
}

impl FromWireValue for String {
    fn read(value: Json) -> Result<String, WireError> {
        match value {
            Json::String(text) => Ok(text),
            _ => Err(WireError::OtherForm),
        }
    }
}
