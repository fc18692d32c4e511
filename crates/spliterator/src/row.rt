//! A lent value of any type as an item: contracts see the value itself.
ghost use Rattle.std.specs.Prelude.{◌≡◌, ⊤};
ghost use Rattle.spliterator.specs.Codes.{code_same, code_same-decides, code_order, code_order-total, code_order-ties};

use crate::{OrderedValue, Value};
use std::alloc::AllocError;

/// A lent value of any type, of which nothing is asked: no `==`, no order, no `Clone`. Contracts see the value itself, field by field.
///
/// Its content is the struct as it lies in memory, where a text has an address: speak of its fields, and not of two rows as one.
pub struct Row<'a, T>(pub &'a T);

impl<'a, T> Clone for Row<'a, T> {
    ghost is_clone = { λ row copy. copy ≡ row };

    ghost is_infallible = { λ _. ⊤ };

    fn clone(&self) -> Result<Self, AllocError> {
        Ok(*self)
    }
}

impl<'a, T> Copy for Row<'a, T> {}

impl<'a, T> Value for Row<'a, T> {
    type Content = T;

    ghost content = { λ row. row.0.now };

    ghost same = { code_same T.row.coded };

    ghost is_value = { λ _. ⊤ };

    ghost same_decides = { code_same-decides T.row.coded };

    fn is_value(&self) -> bool {
        true
    }
}

impl<'a, T> OrderedValue for Row<'a, T> {
    ghost order = { code_order T.row.coded };

    ghost order_total = { code_order-total T.row.coded };

    ghost order_ties = { code_order-ties T.row.coded };
}
