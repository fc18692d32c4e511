//! Numbers beside `i64`, characters and truth values.
ghost use Rattle.std.specs.Prelude.{◌==◌, ◌<◌, ◌^◌, FitsSigned, ⊤};
ghost use Rattle.std.specs.Bool.{beq};
ghost use Rattle.std.specs.Char.{IsScalar};
ghost use Rattle.std.specs.Int.{w8, w16, w32};
ghost use Rattle.std.specs.Ordering.{nat_cmp, int_eq, int_cmp, bool_cmp};
ghost use Rattle.spliterator.specs.Values.{int_eq-decides, int_cmp-total, int_cmp-ties};
ghost use Rattle.spliterator.specs.Scalars.{nat_eq-decides, nat_cmp-total, nat_cmp-ties, bool_eq-decides, bool_cmp-total, bool_cmp-ties};

use crate::{EqualValue, OrderedValue, SortedValue, Value};

impl Value for u8 {
    type Content = u8;

    ghost content = { λ n. n };

    ghost same = { ◌==◌ };

    ghost is_value = { λ n. n < 2 ^ 8 };

    ghost same_decides = { nat_eq-decides };

    fn is_value(&self) -> bool {
        let _value = *self;
        true
    }
}

impl EqualValue for u8 {
    ghost eq_is_same = { Prim.search };
}

impl OrderedValue for u8 {
    ghost order = { nat_cmp };

    ghost order_total = { nat_cmp-total };

    ghost order_ties = { nat_cmp-ties };
}

impl SortedValue for u8 {
    ghost cmp_is_order = { Prim.search };
}

impl Value for u16 {
    type Content = u16;

    ghost content = { λ n. n };

    ghost same = { ◌==◌ };

    ghost is_value = { λ n. n < 2 ^ 16 };

    ghost same_decides = { nat_eq-decides };

    fn is_value(&self) -> bool {
        let _value = *self;
        true
    }
}

impl EqualValue for u16 {
    ghost eq_is_same = { Prim.search };
}

impl OrderedValue for u16 {
    ghost order = { nat_cmp };

    ghost order_total = { nat_cmp-total };

    ghost order_ties = { nat_cmp-ties };
}

impl SortedValue for u16 {
    ghost cmp_is_order = { Prim.search };
}

impl Value for u32 {
    type Content = u32;

    ghost content = { λ n. n };

    ghost same = { ◌==◌ };

    ghost is_value = { λ n. n < 2 ^ 32 };

    ghost same_decides = { nat_eq-decides };

    fn is_value(&self) -> bool {
        let _value = *self;
        true
    }
}

impl EqualValue for u32 {
    ghost eq_is_same = { Prim.search };
}

impl OrderedValue for u32 {
    ghost order = { nat_cmp };

    ghost order_total = { nat_cmp-total };

    ghost order_ties = { nat_cmp-ties };
}

impl SortedValue for u32 {
    ghost cmp_is_order = { Prim.search };
}

impl Value for u64 {
    type Content = u64;

    ghost content = { λ n. n };

    ghost same = { ◌==◌ };

    ghost is_value = { λ n. n < 2 ^ 64 };

    ghost same_decides = { nat_eq-decides };

    fn is_value(&self) -> bool {
        let _value = *self;
        true
    }
}

impl EqualValue for u64 {
    ghost eq_is_same = { Prim.search };
}

impl OrderedValue for u64 {
    ghost order = { nat_cmp };

    ghost order_total = { nat_cmp-total };

    ghost order_ties = { nat_cmp-ties };
}

impl SortedValue for u64 {
    ghost cmp_is_order = { Prim.search };
}

impl Value for usize {
    type Content = usize;

    ghost content = { λ n. n };

    ghost same = { ◌==◌ };

    ghost is_value = { λ n. n < 2 ^ 64 };

    ghost same_decides = { nat_eq-decides };

    fn is_value(&self) -> bool {
        let _value = *self;
        true
    }
}

impl EqualValue for usize {
    ghost eq_is_same = { Prim.search };
}

impl OrderedValue for usize {
    ghost order = { nat_cmp };

    ghost order_total = { nat_cmp-total };

    ghost order_ties = { nat_cmp-ties };
}

impl SortedValue for usize {
    ghost cmp_is_order = { Prim.search };
}

impl Value for i8 {
    type Content = i8;

    ghost content = { λ n. n };

    ghost same = { int_eq };

    ghost is_value = { FitsSigned w8 };

    ghost same_decides = { int_eq-decides };

    fn is_value(&self) -> bool {
        let _value = *self;
        true
    }
}

impl EqualValue for i8 {
    ghost eq_is_same = { Prim.search };
}

impl OrderedValue for i8 {
    ghost order = { int_cmp };

    ghost order_total = { int_cmp-total };

    ghost order_ties = { int_cmp-ties };
}

impl SortedValue for i8 {
    ghost cmp_is_order = { Prim.search };
}

impl Value for i16 {
    type Content = i16;

    ghost content = { λ n. n };

    ghost same = { int_eq };

    ghost is_value = { FitsSigned w16 };

    ghost same_decides = { int_eq-decides };

    fn is_value(&self) -> bool {
        let _value = *self;
        true
    }
}

impl EqualValue for i16 {
    ghost eq_is_same = { Prim.search };
}

impl OrderedValue for i16 {
    ghost order = { int_cmp };

    ghost order_total = { int_cmp-total };

    ghost order_ties = { int_cmp-ties };
}

impl SortedValue for i16 {
    ghost cmp_is_order = { Prim.search };
}

impl Value for i32 {
    type Content = i32;

    ghost content = { λ n. n };

    ghost same = { int_eq };

    ghost is_value = { FitsSigned w32 };

    ghost same_decides = { int_eq-decides };

    fn is_value(&self) -> bool {
        let _value = *self;
        true
    }
}

impl EqualValue for i32 {
    ghost eq_is_same = { Prim.search };
}

impl OrderedValue for i32 {
    ghost order = { int_cmp };

    ghost order_total = { int_cmp-total };

    ghost order_ties = { int_cmp-ties };
}

impl SortedValue for i32 {
    ghost cmp_is_order = { Prim.search };
}

impl Value for char {
    type Content = char;

    ghost content = { λ c. c };

    ghost same = { ◌==◌ };

    ghost is_value = { IsScalar };

    ghost same_decides = { nat_eq-decides };

    fn is_value(&self) -> bool {
        let _value = *self;
        true
    }
}

impl EqualValue for char {
    ghost eq_is_same = { Prim.search };
}

impl OrderedValue for char {
    ghost order = { nat_cmp };

    ghost order_total = { nat_cmp-total };

    ghost order_ties = { nat_cmp-ties };
}

impl SortedValue for char {
    ghost cmp_is_order = { Prim.search };
}

impl Value for bool {
    type Content = bool;

    ghost content = { λ b. b };

    ghost same = { beq };

    ghost is_value = { λ _. ⊤ };

    ghost same_decides = { bool_eq-decides };

    fn is_value(&self) -> bool {
        true
    }
}

impl EqualValue for bool {
    ghost eq_is_same = { Prim.search };
}

impl OrderedValue for bool {
    ghost order = { bool_cmp };

    ghost order_total = { bool_cmp-total };

    ghost order_ties = { bool_cmp-ties };
}

impl SortedValue for bool {
    ghost cmp_is_order = { Prim.search };
}
