//! A collector by a caller's closures.
ghost use Rattle.std.specs.Prelude.{◌≡◌, List, All, IfOk, OnOk, fold};
ghost use Rattle.collectors.specs.Laws.{CollectorLaws};

use crate::Collector;
use spliterator::{NoMemory, Value};
use std::marker::PhantomData;

/// What four closures compute, for contracts alone: the content of a container, the functions on contents, and the results on a list.
/// Whoever writes an impl proves the laws of a collector.
pub trait CollectorDefinition<T: Value, A, R> {
    ghost Content: { Type 0 };

    ghost content: { A → Content };

    ghost empty: { Content };

    ghost add: { Content → T.Content → Content };

    ghost merge: { Content → Content → Content };

    ghost gives: { List T.Content → R → Type 0 };

    ghost laws: { CollectorLaws T.is_value empty add merge };
}

/// A collector by closures whose answers meet a definition. Java's `Collector.of`.
#[derive(Drop)]
pub struct CollectorOf<T, A, R, S, P, C, F, D> {
    supplier: S,
    accumulator: P,
    combiner: C,
    finisher: F,
    definition: PhantomData<(T, A, R, D)>,
}

impl<T, A, R, S, P, C, F, D> CollectorOf<T, A, R, S, P, C, F, D> {
    pub fn new(
        supplier: S,
        accumulator: P,
        combiner: C,
        finisher: F,
    ) -> CollectorOf<T, A, R, S, P, C, F, D>
        ensures supplier { result.supplier ≡ supplier }
        ensures accumulator { result.accumulator ≡ accumulator }
        ensures combiner { result.combiner ≡ combiner }
        ensures finisher { result.finisher ≡ finisher }
    {
        CollectorOf {
            supplier,
            accumulator,
            combiner,
            finisher,
            definition: PhantomData,
        }
    }
}

impl<
    T: Value,
    A: Drop,
    R: Drop,
    S: Fn() -> Result<A, NoMemory>,
    P: Fn(&mut A, &T) -> Result<(), NoMemory>,
    C: Fn(&mut A, A) -> Result<(), NoMemory>,
    F: Fn(A) -> Result<R, NoMemory>,
    D: CollectorDefinition<T, A, R>,
> Collector for CollectorOf<T, A, R, S, P, C, F, D> {
    type Item = T;

    type Acc = A;

    type Out = R;

    ghost ready = { λ c.
        S.IsAlwaysCallable c.supplier × P.IsAlwaysCallable c.accumulator × C.IsAlwaysCallable c.combiner × F.IsAlwaysCallable c.finisher
        × ((r : _) → S.post c.supplier r → IfOk r (λ a. D.content a ≡ D.empty))
        × ((a : _) (x : _) (r : _) (b : _) → P.post c.accumulator a x r b → OnOk r (D.content b.now ≡ D.add (D.content a.now) (T.content x.now)))
        × ((a : _) (y : _) (r : _) (b : _) → C.post c.combiner a y r b → OnOk r (D.content b.now ≡ D.merge (D.content a.now) (D.content y)))
        × ((a : _) (r : _) → F.post c.finisher a r → (l : List T.Content) → All T.is_value l → D.content a ≡ fold D.add D.empty l → IfOk r (D.gives l)) };

    ghost Content = { D.Content };

    ghost content = { λ _. D.content };

    ghost empty = { λ _. D.empty };

    ghost add = { λ _. D.add };

    ghost merge = { λ _. D.merge };

    ghost gives = { λ _. D.gives };

    ghost laws = { λ _. D.laws };

    fn supply(&self) -> Result<A, NoMemory> {
        (self.supplier)()
    }

    fn accumulate(&self, acc: &mut A, x: &T) -> Result<(), NoMemory> {
        (self.accumulator)(acc, x)
    }

    fn combine(&self, left: &mut A, right: A) -> Result<(), NoMemory> {
        (self.combiner)(left, right)
    }

    fn finish(&self, acc: A) -> Result<R, NoMemory> {
        (self.finisher)(acc)
    }
}
