//! What may have failed: each value stands below each error.
ghost use Rattle.std.specs.Prelude.{MatchResult};
ghost use Rattle.std.specs.Result.{result_eq, result_cmp, result_map_both};
ghost use Rattle.spliterator.specs.Results.{result_eq-contents, result_eq-decides, result_cmp-contents, result_cmp-total, result_cmp-ties};

use crate::{EqualValue, OrderedValue, SortedValue, Value};

impl<T: Value, E: Value> Value for Result<T, E> {
    type Content = Result<T::Content, E::Content>;

    ghost content = { result_map_both T.content E.content };

    ghost same = { result_eq T.same E.same };

    ghost is_value = { λ c. MatchResult c T.is_value E.is_value };

    ghost same_decides = { result_eq-decides T.same E.same T.same_decides E.same_decides };

    fn is_value(&self) -> bool {
        match self {
            Ok(value) => value.is_value(),
            Err(error) => error.is_value(),
        }
    }
}

impl<T: EqualValue, E: EqualValue> EqualValue for Result<T, E> {
    ghost eq_is_same = { result_eq-contents T.content E.content T.PartialEq.eq E.PartialEq.eq T.same E.same T.eq_is_same E.eq_is_same };
}

impl<T: OrderedValue, E: OrderedValue> OrderedValue for Result<T, E> {
    ghost order = { result_cmp T.order E.order };

    ghost order_total = { result_cmp-total T.order_total E.order_total };

    ghost order_ties = { result_cmp-ties T.same E.same T.order E.order T.order_ties E.order_ties };
}

impl<T: SortedValue, E: SortedValue> SortedValue for Result<T, E> {
    ghost cmp_is_order = { result_cmp-contents T.content E.content T.Ord.cmp E.Ord.cmp T.order E.order T.cmp_is_order E.cmp_is_order };
}
