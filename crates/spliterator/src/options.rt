//! What may be absent: `None` stands below each `Some`.
ghost use Rattle.std.specs.Prelude.{IfSome};
ghost use Rattle.std.specs.Option.{option_eq, option_cmp, option_map};
ghost use Rattle.std.specs.Cmp.Lexicographic.{options_total};
ghost use Rattle.spliterator.specs.Options.{option_eq-contents, option_eq-decides, option_cmp-contents, option_cmp-ties};

use crate::{EqualValue, OrderedValue, SortedValue, Value};

impl<T: Value> Value for Option<T> {
    type Content = Option<T::Content>;

    ghost content = { option_map T.content };

    ghost same = { option_eq T.same };

    ghost is_value = { λ c. IfSome c T.is_value };

    ghost same_decides = { option_eq-decides T.same T.same_decides };

    fn is_value(&self) -> bool {
        match self {
            Some(value) => value.is_value(),
            None => true,
        }
    }
}

impl<T: EqualValue> EqualValue for Option<T> {
    ghost eq_is_same = { option_eq-contents T.content T.PartialEq.eq T.same T.eq_is_same };
}

impl<T: OrderedValue> OrderedValue for Option<T> {
    ghost order = { option_cmp T.order };

    ghost order_total = { options_total T.order_total };

    ghost order_ties = { option_cmp-ties T.same T.order T.order_ties };
}

impl<T: SortedValue> SortedValue for Option<T> {
    ghost cmp_is_order = { option_cmp-contents T.content T.Ord.cmp T.order T.cmp_is_order };
}
