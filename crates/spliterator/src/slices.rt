//! Parts of a slice, as lists of their items.
ghost use Rattle.std.specs.Prelude.{map, All};
ghost use Rattle.std.specs.Cmp.Lexicographic.{pointwise, pointwise_decides, slice_cmp, lists_total, lists_ties};
ghost use Rattle.spliterator.specs.Values.{pointwise-contents, slice_cmp-contents};

use crate::{EqualValue, OrderedValue, SortedValue, Value};
use std::collections::LinkedList;

impl<'a, T: Value> Value for &'a [T] {
    type Content = LinkedList<T::Content>;

    ghost content = { λ items. map T.content items.now };

    ghost same = { pointwise T.same };

    ghost is_value = { All T.is_value };

    ghost same_decides = { pointwise_decides T.same_decides };

    fn is_value(&self) -> bool {
        for item in *self {
            item.is_value();
        }
        true
    }
}

impl<'a, T: EqualValue> EqualValue for &'a [T] {
    ghost eq_is_same = { λ x y. pointwise-contents T.content T.PartialEq.eq T.same T.eq_is_same x.now y.now };
}

impl<'a, T: OrderedValue> OrderedValue for &'a [T] {
    ghost order = { slice_cmp T.order };

    ghost order_total = { lists_total T.order_total };

    ghost order_ties = { lists_ties T.order T.order_ties };
}

impl<'a, T: SortedValue> SortedValue for &'a [T] {
    ghost cmp_is_order = { λ x y. slice_cmp-contents T.content T.Ord.cmp T.order T.cmp_is_order x.now y.now };
}
