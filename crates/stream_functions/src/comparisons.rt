//! Tests by one comparison, and of divisibility.
ghost use Rattle.std.specs.Prelude.{◌≡◌, ◌≤ℤ◌, int_lt, pos};
ghost use Rattle.std.specs.Int.{int_rem_euclid};
ghost use Rattle.std.specs.Ordering.{int_eq};

use crate::Divisor;
use spliterator::EqualValue;
use stages::Test;

/// Whether a number is less than this one.
#[derive(Clone, Copy)]
pub struct Below(pub i64);

impl Test<i64> for Below {
    ghost holds = { λ t x. int_lt x t.0 };

    fn holds(&self, x: &i64) -> bool {
        *x < self.0
    }
}

/// Whether a number is greater than this one.
#[derive(Clone, Copy)]
pub struct Above(pub i64);

impl Test<i64> for Above {
    ghost holds = { λ t x. int_lt t.0 x };

    fn holds(&self, x: &i64) -> bool {
        *x > self.0
    }
}

/// Whether a value equals this one.
#[derive(Clone, Copy, Drop)]
pub struct Equal<T>(pub T);

impl<T: EqualValue> Test<T> for Equal<T> {
    ghost holds = { λ t x. T.same x (T.content t.0) };

    fn holds(&self, x: &T) -> bool {
        *x == self.0
    }
}

/// Whether a number is a multiple of 2.
#[derive(Clone, Copy)]
pub struct Even;

impl Test<i64> for Even {
    ghost holds = { λ _ x. int_eq (int_rem_euclid x (pos 2)) (pos 0) };

    fn holds(&self, x: &i64) -> bool {
        x.rem_euclid(2) == 0
    }
}

/// Whether a number is a multiple of another.
#[derive(Clone, Copy)]
pub struct Divisible {
    pub divisor: Divisor,
}

impl Divisible {
    /// Whether a number is a multiple of this one, which is at least 1.
    pub fn by(number: i64) -> Divisible
        requires { pos 1 ≤ℤ number }
        ensures { pos result.divisor.number ≡ number }
    {
        Divisible {
            divisor: Divisor::new(number),
        }
    }
}

impl Test<i64> for Divisible {
    ghost holds = { λ t x. int_eq (int_rem_euclid x (pos t.divisor.number)) (pos 0) };

    fn holds(&self, x: &i64) -> bool {
        self.divisor.divides(*x)
    }
}
