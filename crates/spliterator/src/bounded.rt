//! Values of which every content can be made.
ghost use Rattle.std.specs.Prelude.{◌≡◌, refl};
ghost use Rattle.std.specs.Int.{int_wrap, w8, w16, w32};
ghost use Rattle.std.specs.Option.{option_map};
ghost use Rattle.std.proofs.lemmas.Int.{SFits-int_wrap, int_wrap_fits};
ghost use Rattle.spliterator.specs.Bounded.{wrapped, wrapped-value, wrapped-same, low_bits, low_bits-value, low_bits-same, option-value, option-same};

use crate::{Row, Value};

/// A value of which every content can be made: what is out of range wraps, and what is within stays. So a definition says what a
/// function gives, and need not show that it is in range.
pub trait Bounded: Value {
    ghost bounded: { Self.Content → Self.Content };

    ghost bounded_is_value: { (c : Self.Content) → Self.is_value (bounded c) };

    ghost value_is_bounded: { (c : Self.Content) → Self.is_value c → bounded c ≡ c };
}

impl Bounded for i64 {
    ghost bounded = { wrapped };

    ghost bounded_is_value = { wrapped-value };

    ghost value_is_bounded = { wrapped-same };
}

impl Bounded for i8 {
    ghost bounded = { int_wrap w8 };

    ghost bounded_is_value = { SFits-int_wrap w8 };

    ghost value_is_bounded = { int_wrap_fits w8 };
}

impl Bounded for i16 {
    ghost bounded = { int_wrap w16 };

    ghost bounded_is_value = { SFits-int_wrap w16 };

    ghost value_is_bounded = { int_wrap_fits w16 };
}

impl Bounded for i32 {
    ghost bounded = { int_wrap w32 };

    ghost bounded_is_value = { SFits-int_wrap w32 };

    ghost value_is_bounded = { int_wrap_fits w32 };
}

impl Bounded for u8 {
    ghost bounded = { low_bits 8 };

    ghost bounded_is_value = { low_bits-value 8 };

    ghost value_is_bounded = { low_bits-same 8 };
}

impl Bounded for u16 {
    ghost bounded = { low_bits 16 };

    ghost bounded_is_value = { low_bits-value 16 };

    ghost value_is_bounded = { low_bits-same 16 };
}

impl Bounded for u32 {
    ghost bounded = { low_bits 32 };

    ghost bounded_is_value = { low_bits-value 32 };

    ghost value_is_bounded = { low_bits-same 32 };
}

impl Bounded for u64 {
    ghost bounded = { low_bits 64 };

    ghost bounded_is_value = { low_bits-value 64 };

    ghost value_is_bounded = { low_bits-same 64 };
}

impl Bounded for usize {
    ghost bounded = { low_bits 64 };

    ghost bounded_is_value = { low_bits-value 64 };

    ghost value_is_bounded = { low_bits-same 64 };
}

impl Bounded for bool {
    ghost bounded = { λ c. c };

    ghost bounded_is_value = { λ _. tt };

    ghost value_is_bounded = { λ _ _. refl };
}

impl Bounded for &str {
    ghost bounded = { λ c. c };

    ghost bounded_is_value = { λ _. tt };

    ghost value_is_bounded = { λ _ _. refl };
}

impl Bounded for String {
    ghost bounded = { λ c. c };

    ghost bounded_is_value = { λ _. tt };

    ghost value_is_bounded = { λ _ _. refl };
}

impl<'a, T> Bounded for Row<'a, T> {
    ghost bounded = { λ c. c };

    ghost bounded_is_value = { λ _. tt };

    ghost value_is_bounded = { λ _ _. refl };
}

impl<'a, T: Bounded> Bounded for &'a T {
    ghost bounded = { T.bounded };

    ghost bounded_is_value = { T.bounded_is_value };

    ghost value_is_bounded = { T.value_is_bounded };
}

impl<T: Bounded> Bounded for Option<T> {
    ghost bounded = { option_map T.bounded };

    ghost bounded_is_value = { option-value T.bounded T.is_value T.bounded_is_value };

    ghost value_is_bounded = { option-same T.bounded T.is_value T.value_is_bounded };
}
