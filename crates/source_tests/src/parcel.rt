ghost use Rattle.spliterator.specs.Words.{IsI64, both, both-decides, by_first, by_first-ties, by_first-total, bytes_cmp-ties, bytes_cmp-total, bytes_eq, bytes_eq-decides, int_cmp, int_cmp-ties, int_cmp-total, int_eq, int_eq-decides, nat_cmp, slice_cmp, string_bytes};

use spliterator::{EqualValue, OrderedValue, SortedValue, Value};
use std::collections::LinkedList;

#[derive(Clone, PartialEq, Eq, PartialOrd, Ord, Drop)]
pub struct Parcel {
    pub sender: String,
    pub grams: i64,
    pub place: i64,
}

impl Value for Parcel {
    type Content = (LinkedList<u8>, (i64, i64));

    ghost content = { λ o. (string_bytes o.sender, (o.grams, o.place)) };

    ghost same = { both bytes_eq (both int_eq int_eq) };

    ghost is_value = { λ c. IsI64 c.1.0 × IsI64 c.1.1 };

    ghost same_decides = { both-decides bytes_eq (both int_eq int_eq) bytes_eq-decides (both-decides int_eq int_eq int_eq-decides int_eq-decides) };

    fn is_value(&self) -> bool {
        self.grams.is_value() && self.place.is_value()
    }
}

impl EqualValue for Parcel {
    ghost eq_is_same = { Prim.search };
}

impl OrderedValue for Parcel {
    ghost order = { by_first (slice_cmp nat_cmp) (by_first int_cmp int_cmp) };

    ghost order_total = { by_first-total bytes_cmp-total (by_first-total int_cmp-total int_cmp-total) };

    ghost order_ties = { by_first-ties bytes_eq (both int_eq int_eq) (slice_cmp nat_cmp) (by_first int_cmp int_cmp) bytes_cmp-ties (by_first-ties int_eq int_eq int_cmp int_cmp int_cmp-ties int_cmp-ties) };
}

impl SortedValue for Parcel {
    ghost cmp_is_order = { Prim.search };
}
