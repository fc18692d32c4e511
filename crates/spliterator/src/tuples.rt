//! Tuples of two to eight as values: equal and ordered part by part, from the first.
ghost use Rattle.std.specs.Prelude.{◌≡◌, ◌&&◌, refl};
ghost use Rattle.std.proofs.Common.{ap₂};
ghost use Rattle.std.specs.Cmp.{then_total, on_total, both_tied};
ghost use Rattle.std.specs.Ordering.{ordering_then};
ghost use Rattle.spliterator.specs.Pairs.{also, whole};

use crate::{Bounded, EqualValue, OrderedValue, SortedValue, Value};

impl<A: Value, B: Value> Value for (A, B) {
    type Content = (A::Content, B::Content);

    ghost content = { λ t. (A.content t.0, B.content t.1) };

    ghost same = { λ x y. A.same x.0 y.0 && B.same x.1 y.1 };

    ghost is_value = { λ c. A.is_value c.0 × B.is_value c.1 };

    ghost same_decides = { whole (λ n. (n.0, n.1)) (λ _. refl) (also (λ x y. A.same_decides x.0 y.0) (λ t. t.1) B.same_decides) };

    fn is_value(&self) -> bool {
        self.0.is_value() && self.1.is_value()
    }
}

impl<A: EqualValue, B: EqualValue> EqualValue for (A, B) {
    ghost eq_is_same = { λ x y. ap₂ ◌&&◌ (A.eq_is_same x.0 y.0) (B.eq_is_same x.1 y.1) };
}

impl<A: OrderedValue, B: OrderedValue> OrderedValue for (A, B) {
    ghost order = { λ x y. ordering_then (A.order x.0 y.0) (B.order x.1 y.1) };

    ghost order_total = { then_total (on_total (λ t. t.0) A.order_total) (on_total (λ t. t.1) B.order_total) };

    ghost order_ties = { λ x y. both_tied _ _ _ (B.order x.1 y.1) (A.order_ties x.0 y.0) (B.order_ties x.1 y.1) };
}

impl<A: SortedValue, B: SortedValue> SortedValue for (A, B) {
    ghost cmp_is_order = { λ x y. ap₂ ordering_then (A.cmp_is_order x.0 y.0) (B.cmp_is_order x.1 y.1) };
}

impl<A: Bounded, B: Bounded> Bounded for (A, B) {
    ghost bounded = { λ c. (A.bounded c.0, B.bounded c.1) };

    ghost bounded_is_value = { λ c. (A.bounded_is_value c.0, B.bounded_is_value c.1) };

    ghost value_is_bounded = { λ c v i. (A.value_is_bounded c.0 v.0 i, B.value_is_bounded c.1 v.1 i) };
}

impl<A: Value, B: Value, C: Value> Value for (A, B, C) {
    type Content = (A::Content, B::Content, C::Content);

    ghost content = { λ t. (A.content t.0, B.content t.1, C.content t.2) };

    ghost same = { λ x y. (A.same x.0 y.0 && B.same x.1 y.1) && C.same x.2 y.2 };

    ghost is_value = { λ c. A.is_value c.0 × B.is_value c.1 × C.is_value c.2 };

    ghost same_decides = { whole (λ n. (n.0.0, n.0.1, n.1)) (λ _. refl) (also (also (λ x y. A.same_decides x.0 y.0) (λ t. t.1) B.same_decides) (λ t. t.2) C.same_decides) };

    fn is_value(&self) -> bool {
        self.0.is_value() && self.1.is_value() && self.2.is_value()
    }
}

impl<A: EqualValue, B: EqualValue, C: EqualValue> EqualValue for (A, B, C) {
    ghost eq_is_same = { λ x y. ap₂ ◌&&◌ (ap₂ ◌&&◌ (A.eq_is_same x.0 y.0) (B.eq_is_same x.1 y.1)) (C.eq_is_same x.2 y.2) };
}

impl<A: OrderedValue, B: OrderedValue, C: OrderedValue> OrderedValue for (A, B, C) {
    ghost order = { λ x y. ordering_then (ordering_then (A.order x.0 y.0) (B.order x.1 y.1)) (C.order x.2 y.2) };

    ghost order_total = { then_total (then_total (on_total (λ t. t.0) A.order_total) (on_total (λ t. t.1) B.order_total)) (on_total (λ t. t.2) C.order_total) };

    ghost order_ties = { λ x y. both_tied _ _ _ (C.order x.2 y.2) (both_tied _ _ _ (B.order x.1 y.1) (A.order_ties x.0 y.0) (B.order_ties x.1 y.1)) (C.order_ties x.2 y.2) };
}

impl<A: SortedValue, B: SortedValue, C: SortedValue> SortedValue for (A, B, C) {
    ghost cmp_is_order = { λ x y. ap₂ ordering_then (ap₂ ordering_then (A.cmp_is_order x.0 y.0) (B.cmp_is_order x.1 y.1)) (C.cmp_is_order x.2 y.2) };
}

impl<A: Bounded, B: Bounded, C: Bounded> Bounded for (A, B, C) {
    ghost bounded = { λ c. (A.bounded c.0, B.bounded c.1, C.bounded c.2) };

    ghost bounded_is_value = { λ c. (A.bounded_is_value c.0, B.bounded_is_value c.1, C.bounded_is_value c.2) };

    ghost value_is_bounded = { λ c v i. (A.value_is_bounded c.0 v.0 i, B.value_is_bounded c.1 v.1 i, C.value_is_bounded c.2 v.2 i) };
}

impl<A: Value, B: Value, C: Value, D: Value> Value for (A, B, C, D) {
    type Content = (A::Content, B::Content, C::Content, D::Content);

    ghost content = { λ t. (A.content t.0, B.content t.1, C.content t.2, D.content t.3) };

    ghost same = { λ x y. ((A.same x.0 y.0 && B.same x.1 y.1) && C.same x.2 y.2) && D.same x.3 y.3 };

    ghost is_value = { λ c. A.is_value c.0 × B.is_value c.1 × C.is_value c.2 × D.is_value c.3 };

    ghost same_decides = { whole (λ n. (n.0.0.0, n.0.0.1, n.0.1, n.1)) (λ _. refl) (also (also (also (λ x y. A.same_decides x.0 y.0) (λ t. t.1) B.same_decides) (λ t. t.2) C.same_decides) (λ t. t.3) D.same_decides) };

    fn is_value(&self) -> bool {
        self.0.is_value() && self.1.is_value() && self.2.is_value() && self.3.is_value()
    }
}

impl<A: EqualValue, B: EqualValue, C: EqualValue, D: EqualValue> EqualValue for (A, B, C, D) {
    ghost eq_is_same = { λ x y. ap₂ ◌&&◌ (ap₂ ◌&&◌ (ap₂ ◌&&◌ (A.eq_is_same x.0 y.0) (B.eq_is_same x.1 y.1)) (C.eq_is_same x.2 y.2)) (D.eq_is_same x.3 y.3) };
}

impl<A: OrderedValue, B: OrderedValue, C: OrderedValue, D: OrderedValue> OrderedValue
    for (A, B, C, D) {
    ghost order = { λ x y. ordering_then (ordering_then (ordering_then (A.order x.0 y.0) (B.order x.1 y.1)) (C.order x.2 y.2)) (D.order x.3 y.3) };

    ghost order_total = { then_total (then_total (then_total (on_total (λ t. t.0) A.order_total) (on_total (λ t. t.1) B.order_total)) (on_total (λ t. t.2) C.order_total)) (on_total (λ t. t.3) D.order_total) };

    ghost order_ties = { λ x y. both_tied _ _ _ (D.order x.3 y.3) (both_tied _ _ _ (C.order x.2 y.2) (both_tied _ _ _ (B.order x.1 y.1) (A.order_ties x.0 y.0) (B.order_ties x.1 y.1)) (C.order_ties x.2 y.2)) (D.order_ties x.3 y.3) };
}

impl<A: SortedValue, B: SortedValue, C: SortedValue, D: SortedValue> SortedValue for (A, B, C, D) {
    ghost cmp_is_order = { λ x y. ap₂ ordering_then (ap₂ ordering_then (ap₂ ordering_then (A.cmp_is_order x.0 y.0) (B.cmp_is_order x.1 y.1)) (C.cmp_is_order x.2 y.2)) (D.cmp_is_order x.3 y.3) };
}

impl<A: Bounded, B: Bounded, C: Bounded, D: Bounded> Bounded for (A, B, C, D) {
    ghost bounded = { λ c. (A.bounded c.0, B.bounded c.1, C.bounded c.2, D.bounded c.3) };

    ghost bounded_is_value = { λ c. (A.bounded_is_value c.0, B.bounded_is_value c.1, C.bounded_is_value c.2, D.bounded_is_value c.3) };

    ghost value_is_bounded = { λ c v i. (A.value_is_bounded c.0 v.0 i, B.value_is_bounded c.1 v.1 i, C.value_is_bounded c.2 v.2 i, D.value_is_bounded c.3 v.3 i) };
}

impl<A: Value, B: Value, C: Value, D: Value, E: Value> Value for (A, B, C, D, E) {
    type Content = (A::Content, B::Content, C::Content, D::Content, E::Content);

    ghost content = { λ t. (A.content t.0, B.content t.1, C.content t.2, D.content t.3, E.content t.4) };

    ghost same = { λ x y. (((A.same x.0 y.0 && B.same x.1 y.1) && C.same x.2 y.2) && D.same x.3 y.3) && E.same x.4 y.4 };

    ghost is_value = { λ c. A.is_value c.0 × B.is_value c.1 × C.is_value c.2 × D.is_value c.3 × E.is_value c.4 };

    ghost same_decides = { whole (λ n. (n.0.0.0.0, n.0.0.0.1, n.0.0.1, n.0.1, n.1)) (λ _. refl) (also (also (also (also (λ x y. A.same_decides x.0 y.0) (λ t. t.1) B.same_decides) (λ t. t.2) C.same_decides) (λ t. t.3) D.same_decides) (λ t. t.4) E.same_decides) };

    fn is_value(&self) -> bool {
        self.0.is_value()
            && self.1.is_value()
            && self.2.is_value()
            && self.3.is_value()
            && self.4.is_value()
    }
}

impl<A: EqualValue, B: EqualValue, C: EqualValue, D: EqualValue, E: EqualValue> EqualValue
    for (A, B, C, D, E) {
    ghost eq_is_same = { λ x y. ap₂ ◌&&◌ (ap₂ ◌&&◌ (ap₂ ◌&&◌ (ap₂ ◌&&◌ (A.eq_is_same x.0 y.0) (B.eq_is_same x.1 y.1)) (C.eq_is_same x.2 y.2)) (D.eq_is_same x.3 y.3)) (E.eq_is_same x.4 y.4) };
}

impl<
    A: OrderedValue,
    B: OrderedValue,
    C: OrderedValue,
    D: OrderedValue,
    E: OrderedValue,
> OrderedValue for (A, B, C, D, E) {
    ghost order = { λ x y. ordering_then (ordering_then (ordering_then (ordering_then (A.order x.0 y.0) (B.order x.1 y.1)) (C.order x.2 y.2)) (D.order x.3 y.3)) (E.order x.4 y.4) };

    ghost order_total = { then_total (then_total (then_total (then_total (on_total (λ t. t.0) A.order_total) (on_total (λ t. t.1) B.order_total)) (on_total (λ t. t.2) C.order_total)) (on_total (λ t. t.3) D.order_total)) (on_total (λ t. t.4) E.order_total) };

    ghost order_ties = { λ x y. both_tied _ _ _ (E.order x.4 y.4) (both_tied _ _ _ (D.order x.3 y.3) (both_tied _ _ _ (C.order x.2 y.2) (both_tied _ _ _ (B.order x.1 y.1) (A.order_ties x.0 y.0) (B.order_ties x.1 y.1)) (C.order_ties x.2 y.2)) (D.order_ties x.3 y.3)) (E.order_ties x.4 y.4) };
}

impl<A: SortedValue, B: SortedValue, C: SortedValue, D: SortedValue, E: SortedValue> SortedValue
    for (A, B, C, D, E) {
    ghost cmp_is_order = { λ x y. ap₂ ordering_then (ap₂ ordering_then (ap₂ ordering_then (ap₂ ordering_then (A.cmp_is_order x.0 y.0) (B.cmp_is_order x.1 y.1)) (C.cmp_is_order x.2 y.2)) (D.cmp_is_order x.3 y.3)) (E.cmp_is_order x.4 y.4) };
}

impl<A: Bounded, B: Bounded, C: Bounded, D: Bounded, E: Bounded> Bounded for (A, B, C, D, E) {
    ghost bounded = { λ c. (A.bounded c.0, B.bounded c.1, C.bounded c.2, D.bounded c.3, E.bounded c.4) };

    ghost bounded_is_value = { λ c. (A.bounded_is_value c.0, B.bounded_is_value c.1, C.bounded_is_value c.2, D.bounded_is_value c.3, E.bounded_is_value c.4) };

    ghost value_is_bounded = { λ c v i. (A.value_is_bounded c.0 v.0 i, B.value_is_bounded c.1 v.1 i, C.value_is_bounded c.2 v.2 i, D.value_is_bounded c.3 v.3 i, E.value_is_bounded c.4 v.4 i) };
}

impl<A: Value, B: Value, C: Value, D: Value, E: Value, F: Value> Value for (A, B, C, D, E, F) {
    type Content = (
        A::Content,
        B::Content,
        C::Content,
        D::Content,
        E::Content,
        F::Content,
    );

    ghost content = { λ t. (A.content t.0, B.content t.1, C.content t.2, D.content t.3, E.content t.4, F.content t.5) };

    ghost same = { λ x y. ((((A.same x.0 y.0 && B.same x.1 y.1) && C.same x.2 y.2) && D.same x.3 y.3) && E.same x.4 y.4) && F.same x.5 y.5 };

    ghost is_value = { λ c. A.is_value c.0 × B.is_value c.1 × C.is_value c.2 × D.is_value c.3 × E.is_value c.4 × F.is_value c.5 };

    ghost same_decides = { whole (λ n. (n.0.0.0.0.0, n.0.0.0.0.1, n.0.0.0.1, n.0.0.1, n.0.1, n.1)) (λ _. refl) (also (also (also (also (also (λ x y. A.same_decides x.0 y.0) (λ t. t.1) B.same_decides) (λ t. t.2) C.same_decides) (λ t. t.3) D.same_decides) (λ t. t.4) E.same_decides) (λ t. t.5) F.same_decides) };

    fn is_value(&self) -> bool {
        self.0.is_value()
            && self.1.is_value()
            && self.2.is_value()
            && self.3.is_value()
            && self.4.is_value()
            && self.5.is_value()
    }
}

impl<
    A: EqualValue,
    B: EqualValue,
    C: EqualValue,
    D: EqualValue,
    E: EqualValue,
    F: EqualValue,
> EqualValue for (A, B, C, D, E, F) {
    ghost eq_is_same = { λ x y. ap₂ ◌&&◌ (ap₂ ◌&&◌ (ap₂ ◌&&◌ (ap₂ ◌&&◌ (ap₂ ◌&&◌ (A.eq_is_same x.0 y.0) (B.eq_is_same x.1 y.1)) (C.eq_is_same x.2 y.2)) (D.eq_is_same x.3 y.3)) (E.eq_is_same x.4 y.4)) (F.eq_is_same x.5 y.5) };
}

impl<
    A: OrderedValue,
    B: OrderedValue,
    C: OrderedValue,
    D: OrderedValue,
    E: OrderedValue,
    F: OrderedValue,
> OrderedValue for (A, B, C, D, E, F) {
    ghost order = { λ x y. ordering_then (ordering_then (ordering_then (ordering_then (ordering_then (A.order x.0 y.0) (B.order x.1 y.1)) (C.order x.2 y.2)) (D.order x.3 y.3)) (E.order x.4 y.4)) (F.order x.5 y.5) };

    ghost order_total = { then_total (then_total (then_total (then_total (then_total (on_total (λ t. t.0) A.order_total) (on_total (λ t. t.1) B.order_total)) (on_total (λ t. t.2) C.order_total)) (on_total (λ t. t.3) D.order_total)) (on_total (λ t. t.4) E.order_total)) (on_total (λ t. t.5) F.order_total) };

    ghost order_ties = { λ x y. both_tied _ _ _ (F.order x.5 y.5) (both_tied _ _ _ (E.order x.4 y.4) (both_tied _ _ _ (D.order x.3 y.3) (both_tied _ _ _ (C.order x.2 y.2) (both_tied _ _ _ (B.order x.1 y.1) (A.order_ties x.0 y.0) (B.order_ties x.1 y.1)) (C.order_ties x.2 y.2)) (D.order_ties x.3 y.3)) (E.order_ties x.4 y.4)) (F.order_ties x.5 y.5) };
}

impl<
    A: SortedValue,
    B: SortedValue,
    C: SortedValue,
    D: SortedValue,
    E: SortedValue,
    F: SortedValue,
> SortedValue for (A, B, C, D, E, F) {
    ghost cmp_is_order = { λ x y. ap₂ ordering_then (ap₂ ordering_then (ap₂ ordering_then (ap₂ ordering_then (ap₂ ordering_then (A.cmp_is_order x.0 y.0) (B.cmp_is_order x.1 y.1)) (C.cmp_is_order x.2 y.2)) (D.cmp_is_order x.3 y.3)) (E.cmp_is_order x.4 y.4)) (F.cmp_is_order x.5 y.5) };
}

impl<A: Bounded, B: Bounded, C: Bounded, D: Bounded, E: Bounded, F: Bounded> Bounded
    for (A, B, C, D, E, F) {
    ghost bounded = { λ c. (A.bounded c.0, B.bounded c.1, C.bounded c.2, D.bounded c.3, E.bounded c.4, F.bounded c.5) };

    ghost bounded_is_value = { λ c. (A.bounded_is_value c.0, B.bounded_is_value c.1, C.bounded_is_value c.2, D.bounded_is_value c.3, E.bounded_is_value c.4, F.bounded_is_value c.5) };

    ghost value_is_bounded = { λ c v i. (A.value_is_bounded c.0 v.0 i, B.value_is_bounded c.1 v.1 i, C.value_is_bounded c.2 v.2 i, D.value_is_bounded c.3 v.3 i, E.value_is_bounded c.4 v.4 i, F.value_is_bounded c.5 v.5 i) };
}

impl<A: Value, B: Value, C: Value, D: Value, E: Value, F: Value, G: Value> Value
    for (A, B, C, D, E, F, G) {
    type Content = (
        A::Content,
        B::Content,
        C::Content,
        D::Content,
        E::Content,
        F::Content,
        G::Content,
    );

    ghost content = { λ t. (A.content t.0, B.content t.1, C.content t.2, D.content t.3, E.content t.4, F.content t.5, G.content t.6) };

    ghost same = { λ x y. (((((A.same x.0 y.0 && B.same x.1 y.1) && C.same x.2 y.2) && D.same x.3 y.3) && E.same x.4 y.4) && F.same x.5 y.5) && G.same x.6 y.6 };

    ghost is_value = { λ c. A.is_value c.0 × B.is_value c.1 × C.is_value c.2 × D.is_value c.3 × E.is_value c.4 × F.is_value c.5 × G.is_value c.6 };

    ghost same_decides = { whole (λ n. (n.0.0.0.0.0.0, n.0.0.0.0.0.1, n.0.0.0.0.1, n.0.0.0.1, n.0.0.1, n.0.1, n.1)) (λ _. refl) (also (also (also (also (also (also (λ x y. A.same_decides x.0 y.0) (λ t. t.1) B.same_decides) (λ t. t.2) C.same_decides) (λ t. t.3) D.same_decides) (λ t. t.4) E.same_decides) (λ t. t.5) F.same_decides) (λ t. t.6) G.same_decides) };

    fn is_value(&self) -> bool {
        self.0.is_value()
            && self.1.is_value()
            && self.2.is_value()
            && self.3.is_value()
            && self.4.is_value()
            && self.5.is_value()
            && self.6.is_value()
    }
}

impl<
    A: EqualValue,
    B: EqualValue,
    C: EqualValue,
    D: EqualValue,
    E: EqualValue,
    F: EqualValue,
    G: EqualValue,
> EqualValue for (A, B, C, D, E, F, G) {
    ghost eq_is_same = { λ x y. ap₂ ◌&&◌ (ap₂ ◌&&◌ (ap₂ ◌&&◌ (ap₂ ◌&&◌ (ap₂ ◌&&◌ (ap₂ ◌&&◌ (A.eq_is_same x.0 y.0) (B.eq_is_same x.1 y.1)) (C.eq_is_same x.2 y.2)) (D.eq_is_same x.3 y.3)) (E.eq_is_same x.4 y.4)) (F.eq_is_same x.5 y.5)) (G.eq_is_same x.6 y.6) };
}

impl<
    A: OrderedValue,
    B: OrderedValue,
    C: OrderedValue,
    D: OrderedValue,
    E: OrderedValue,
    F: OrderedValue,
    G: OrderedValue,
> OrderedValue for (A, B, C, D, E, F, G) {
    ghost order = { λ x y. ordering_then (ordering_then (ordering_then (ordering_then (ordering_then (ordering_then (A.order x.0 y.0) (B.order x.1 y.1)) (C.order x.2 y.2)) (D.order x.3 y.3)) (E.order x.4 y.4)) (F.order x.5 y.5)) (G.order x.6 y.6) };

    ghost order_total = { then_total (then_total (then_total (then_total (then_total (then_total (on_total (λ t. t.0) A.order_total) (on_total (λ t. t.1) B.order_total)) (on_total (λ t. t.2) C.order_total)) (on_total (λ t. t.3) D.order_total)) (on_total (λ t. t.4) E.order_total)) (on_total (λ t. t.5) F.order_total)) (on_total (λ t. t.6) G.order_total) };

    ghost order_ties = { λ x y. both_tied _ _ _ (G.order x.6 y.6) (both_tied _ _ _ (F.order x.5 y.5) (both_tied _ _ _ (E.order x.4 y.4) (both_tied _ _ _ (D.order x.3 y.3) (both_tied _ _ _ (C.order x.2 y.2) (both_tied _ _ _ (B.order x.1 y.1) (A.order_ties x.0 y.0) (B.order_ties x.1 y.1)) (C.order_ties x.2 y.2)) (D.order_ties x.3 y.3)) (E.order_ties x.4 y.4)) (F.order_ties x.5 y.5)) (G.order_ties x.6 y.6) };
}

impl<
    A: SortedValue,
    B: SortedValue,
    C: SortedValue,
    D: SortedValue,
    E: SortedValue,
    F: SortedValue,
    G: SortedValue,
> SortedValue for (A, B, C, D, E, F, G) {
    ghost cmp_is_order = { λ x y. ap₂ ordering_then (ap₂ ordering_then (ap₂ ordering_then (ap₂ ordering_then (ap₂ ordering_then (ap₂ ordering_then (A.cmp_is_order x.0 y.0) (B.cmp_is_order x.1 y.1)) (C.cmp_is_order x.2 y.2)) (D.cmp_is_order x.3 y.3)) (E.cmp_is_order x.4 y.4)) (F.cmp_is_order x.5 y.5)) (G.cmp_is_order x.6 y.6) };
}

impl<A: Bounded, B: Bounded, C: Bounded, D: Bounded, E: Bounded, F: Bounded, G: Bounded> Bounded
    for (A, B, C, D, E, F, G) {
    ghost bounded = { λ c. (A.bounded c.0, B.bounded c.1, C.bounded c.2, D.bounded c.3, E.bounded c.4, F.bounded c.5, G.bounded c.6) };

    ghost bounded_is_value = { λ c. (A.bounded_is_value c.0, B.bounded_is_value c.1, C.bounded_is_value c.2, D.bounded_is_value c.3, E.bounded_is_value c.4, F.bounded_is_value c.5, G.bounded_is_value c.6) };

    ghost value_is_bounded = { λ c v i. (A.value_is_bounded c.0 v.0 i, B.value_is_bounded c.1 v.1 i, C.value_is_bounded c.2 v.2 i, D.value_is_bounded c.3 v.3 i, E.value_is_bounded c.4 v.4 i, F.value_is_bounded c.5 v.5 i, G.value_is_bounded c.6 v.6 i) };
}

impl<A: Value, B: Value, C: Value, D: Value, E: Value, F: Value, G: Value, H: Value> Value
    for (A, B, C, D, E, F, G, H) {
    type Content = (
        A::Content,
        B::Content,
        C::Content,
        D::Content,
        E::Content,
        F::Content,
        G::Content,
        H::Content,
    );

    ghost content = { λ t. (A.content t.0, B.content t.1, C.content t.2, D.content t.3, E.content t.4, F.content t.5, G.content t.6, H.content t.7) };

    ghost same = { λ x y. ((((((A.same x.0 y.0 && B.same x.1 y.1) && C.same x.2 y.2) && D.same x.3 y.3) && E.same x.4 y.4) && F.same x.5 y.5) && G.same x.6 y.6) && H.same x.7 y.7 };

    ghost is_value = { λ c. A.is_value c.0 × B.is_value c.1 × C.is_value c.2 × D.is_value c.3 × E.is_value c.4 × F.is_value c.5 × G.is_value c.6 × H.is_value c.7 };

    ghost same_decides = { whole (λ n. (n.0.0.0.0.0.0.0, n.0.0.0.0.0.0.1, n.0.0.0.0.0.1, n.0.0.0.0.1, n.0.0.0.1, n.0.0.1, n.0.1, n.1)) (λ _. refl) (also (also (also (also (also (also (also (λ x y. A.same_decides x.0 y.0) (λ t. t.1) B.same_decides) (λ t. t.2) C.same_decides) (λ t. t.3) D.same_decides) (λ t. t.4) E.same_decides) (λ t. t.5) F.same_decides) (λ t. t.6) G.same_decides) (λ t. t.7) H.same_decides) };

    fn is_value(&self) -> bool {
        self.0.is_value()
            && self.1.is_value()
            && self.2.is_value()
            && self.3.is_value()
            && self.4.is_value()
            && self.5.is_value()
            && self.6.is_value()
            && self.7.is_value()
    }
}

impl<
    A: EqualValue,
    B: EqualValue,
    C: EqualValue,
    D: EqualValue,
    E: EqualValue,
    F: EqualValue,
    G: EqualValue,
    H: EqualValue,
> EqualValue for (A, B, C, D, E, F, G, H) {
    ghost eq_is_same = { λ x y. ap₂ ◌&&◌ (ap₂ ◌&&◌ (ap₂ ◌&&◌ (ap₂ ◌&&◌ (ap₂ ◌&&◌ (ap₂ ◌&&◌ (ap₂ ◌&&◌ (A.eq_is_same x.0 y.0) (B.eq_is_same x.1 y.1)) (C.eq_is_same x.2 y.2)) (D.eq_is_same x.3 y.3)) (E.eq_is_same x.4 y.4)) (F.eq_is_same x.5 y.5)) (G.eq_is_same x.6 y.6)) (H.eq_is_same x.7 y.7) };
}

impl<
    A: OrderedValue,
    B: OrderedValue,
    C: OrderedValue,
    D: OrderedValue,
    E: OrderedValue,
    F: OrderedValue,
    G: OrderedValue,
    H: OrderedValue,
> OrderedValue for (A, B, C, D, E, F, G, H) {
    ghost order = { λ x y. ordering_then (ordering_then (ordering_then (ordering_then (ordering_then (ordering_then (ordering_then (A.order x.0 y.0) (B.order x.1 y.1)) (C.order x.2 y.2)) (D.order x.3 y.3)) (E.order x.4 y.4)) (F.order x.5 y.5)) (G.order x.6 y.6)) (H.order x.7 y.7) };

    ghost order_total = { then_total (then_total (then_total (then_total (then_total (then_total (then_total (on_total (λ t. t.0) A.order_total) (on_total (λ t. t.1) B.order_total)) (on_total (λ t. t.2) C.order_total)) (on_total (λ t. t.3) D.order_total)) (on_total (λ t. t.4) E.order_total)) (on_total (λ t. t.5) F.order_total)) (on_total (λ t. t.6) G.order_total)) (on_total (λ t. t.7) H.order_total) };

    ghost order_ties = { λ x y. both_tied _ _ _ (H.order x.7 y.7) (both_tied _ _ _ (G.order x.6 y.6) (both_tied _ _ _ (F.order x.5 y.5) (both_tied _ _ _ (E.order x.4 y.4) (both_tied _ _ _ (D.order x.3 y.3) (both_tied _ _ _ (C.order x.2 y.2) (both_tied _ _ _ (B.order x.1 y.1) (A.order_ties x.0 y.0) (B.order_ties x.1 y.1)) (C.order_ties x.2 y.2)) (D.order_ties x.3 y.3)) (E.order_ties x.4 y.4)) (F.order_ties x.5 y.5)) (G.order_ties x.6 y.6)) (H.order_ties x.7 y.7) };
}

impl<
    A: SortedValue,
    B: SortedValue,
    C: SortedValue,
    D: SortedValue,
    E: SortedValue,
    F: SortedValue,
    G: SortedValue,
    H: SortedValue,
> SortedValue for (A, B, C, D, E, F, G, H) {
    ghost cmp_is_order = { λ x y. ap₂ ordering_then (ap₂ ordering_then (ap₂ ordering_then (ap₂ ordering_then (ap₂ ordering_then (ap₂ ordering_then (ap₂ ordering_then (A.cmp_is_order x.0 y.0) (B.cmp_is_order x.1 y.1)) (C.cmp_is_order x.2 y.2)) (D.cmp_is_order x.3 y.3)) (E.cmp_is_order x.4 y.4)) (F.cmp_is_order x.5 y.5)) (G.cmp_is_order x.6 y.6)) (H.cmp_is_order x.7 y.7) };
}

impl<
    A: Bounded,
    B: Bounded,
    C: Bounded,
    D: Bounded,
    E: Bounded,
    F: Bounded,
    G: Bounded,
    H: Bounded,
> Bounded for (A, B, C, D, E, F, G, H) {
    ghost bounded = { λ c. (A.bounded c.0, B.bounded c.1, C.bounded c.2, D.bounded c.3, E.bounded c.4, F.bounded c.5, G.bounded c.6, H.bounded c.7) };

    ghost bounded_is_value = { λ c. (A.bounded_is_value c.0, B.bounded_is_value c.1, C.bounded_is_value c.2, D.bounded_is_value c.3, E.bounded_is_value c.4, F.bounded_is_value c.5, G.bounded_is_value c.6, H.bounded_is_value c.7) };

    ghost value_is_bounded = { λ c v i. (A.value_is_bounded c.0 v.0 i, B.value_is_bounded c.1 v.1 i, C.value_is_bounded c.2 v.2 i, D.value_is_bounded c.3 v.3 i, E.value_is_bounded c.4 v.4 i, F.value_is_bounded c.5 v.5 i, G.value_is_bounded c.6 v.6 i, H.value_is_bounded c.7 v.7 i) };
}
