//! Keys in descending order.
ghost use Rattle.terminals.specs.Reversed.{reversed, reversed-total, reversed-ties};

use spliterator::{EqualValue, NoMemory, OrderedValue, SortedValue, Value};
use stages::Mapping;
use std::cmp::Reverse;

/// A key whose order is turned round: the greatest stands first. Java's `Comparator.reversed`.
///
/// ```text
/// words.sorted_by_key(&engine, &Descending(Length))?    // the longest words first
/// ```
#[derive(Clone, Copy, Drop)]
pub struct Descending<M>(pub M);

/// A value in the contrary order of its type.
#[derive(PartialEq, Eq, PartialOrd, Ord, Drop)]
pub struct Reversed<V>(Reverse<V>);

impl<V: Value> Value for Reversed<V> {
    type Content = V::Content;

    ghost content = { λ r. V.content r.0.0 };

    ghost same = { V.same };

    ghost is_value = { V.is_value };

    ghost same_decides = { V.same_decides };

    fn is_value(&self) -> bool {
        self.0.0.is_value()
    }
}

impl<V: EqualValue> EqualValue for Reversed<V> {
    ghost eq_is_same = { λ x y. V.eq_is_same x.0.0 y.0.0 };
}

impl<V: OrderedValue> OrderedValue for Reversed<V> {
    ghost order = { reversed V.order };

    ghost order_total = { reversed-total V.order V.order_total };

    ghost order_ties = { reversed-ties V.order V.order_total V.same V.order_ties };
}

impl<V: SortedValue> SortedValue for Reversed<V> {
    ghost cmp_is_order = { λ x y. V.cmp_is_order y.0.0 x.0.0 };
}

impl<T: Value, M: Mapping<T>> Mapping<T> for Descending<M>
where
    M::Out: OrderedValue,
{
    type Out = Reversed<M::Out>;

    ghost ready = { λ m. M.ready m.0 };

    ghost image = { λ m x. M.image m.0 x };

    ghost images_are_values = { λ m x value. M.images_are_values m.0 x value };

    fn image(&self, x: &T) -> Result<Reversed<M::Out>, NoMemory> {
        Ok(Reversed(Reverse(self.0.image(x)?)))
    }
}
