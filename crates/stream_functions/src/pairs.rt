//! Functions and tests of one part of a pair.

use crate::PlainMapping;
use spliterator::{NoMemory, Value};
use stages::{Mapping, Test};

/// A function or a test of a pair's first part: `OnFirst(Length)` gives the length of a text that stands before something.
#[derive(Clone, Copy, Drop)]
pub struct OnFirst<F>(pub F);

impl<A: Value, B: Value, M: Mapping<A>> Mapping<(A, B)> for OnFirst<M> {
    type Out = M::Out;

    ghost ready = { λ m. M.ready m.0 };

    ghost image = { λ m x. M.image m.0 x.0 };

    ghost images_are_values = { λ m x value. M.images_are_values m.0 x.0 value.0 };

    fn image(&self, x: &(A, B)) -> Result<M::Out, NoMemory> {
        self.0.image(&x.0)
    }
}

impl<A: Value, B: Value, M: PlainMapping<A>> PlainMapping<(A, B)> for OnFirst<M> {
    fn image_of(&self, x: &(A, B)) -> M::Out {
        self.0.image_of(&x.0)
    }
}

impl<A: Value, B: Value, P: Test<A>> Test<(A, B)> for OnFirst<P> {
    ghost ready = { λ t. P.ready t.0 };

    ghost holds = { λ t x. P.holds t.0 x.0 };

    fn holds(&self, x: &(A, B)) -> bool {
        self.0.holds(&x.0)
    }
}

/// A function or a test of a pair's second part: `OnSecond(Above(10))`.
#[derive(Clone, Copy, Drop)]
pub struct OnSecond<F>(pub F);

impl<A: Value, B: Value, M: Mapping<B>> Mapping<(A, B)> for OnSecond<M> {
    type Out = M::Out;

    ghost ready = { λ m. M.ready m.0 };

    ghost image = { λ m x. M.image m.0 x.1 };

    ghost images_are_values = { λ m x value. M.images_are_values m.0 x.1 value.1 };

    fn image(&self, x: &(A, B)) -> Result<M::Out, NoMemory> {
        self.0.image(&x.1)
    }
}

impl<A: Value, B: Value, M: PlainMapping<B>> PlainMapping<(A, B)> for OnSecond<M> {
    fn image_of(&self, x: &(A, B)) -> M::Out {
        self.0.image_of(&x.1)
    }
}

impl<A: Value, B: Value, P: Test<B>> Test<(A, B)> for OnSecond<P> {
    ghost ready = { λ t. P.ready t.0 };

    ghost holds = { λ t x. P.holds t.0 x.1 };

    fn holds(&self, x: &(A, B)) -> bool {
        self.0.holds(&x.1)
    }
}
