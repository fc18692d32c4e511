//! Tests of tests.
ghost use Rattle.std.specs.Prelude.{◌&&◌, ◌||◌, not};

use spliterator::Value;
use stages::Test;

/// The contrary of a test.
#[derive(Clone, Copy, Drop)]
pub struct Not<P>(pub P);

impl<T: Value, P: Test<T>> Test<T> for Not<P> {
    ghost ready = { λ t. P.ready t.0 };

    ghost holds = { λ t x. not (P.holds t.0 x) };

    fn holds(&self, x: &T) -> bool {
        !self.0.holds(x)
    }
}

/// Whether both tests hold.
#[derive(Clone, Copy, Drop)]
pub struct And<P, Q>(pub P, pub Q);

impl<T: Value, P: Test<T>, Q: Test<T>> Test<T> for And<P, Q> {
    ghost ready = { λ t. P.ready t.0 × Q.ready t.1 };

    ghost holds = { λ t x. P.holds t.0 x && Q.holds t.1 x };

    fn holds(&self, x: &T) -> bool {
        self.0.holds(x) && self.1.holds(x)
    }
}

/// Whether one of the tests holds, or both.
#[derive(Clone, Copy, Drop)]
pub struct Or<P, Q>(pub P, pub Q);

impl<T: Value, P: Test<T>, Q: Test<T>> Test<T> for Or<P, Q> {
    ghost ready = { λ t. P.ready t.0 × Q.ready t.1 };

    ghost holds = { λ t x. P.holds t.0 x || Q.holds t.1 x };

    fn holds(&self, x: &T) -> bool {
        self.0.holds(x) || self.1.holds(x)
    }
}
