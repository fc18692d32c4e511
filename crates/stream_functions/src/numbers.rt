//! Functions of numbers. Sums, products and negations wrap, as those of Java's `long`.
ghost use Rattle.std.specs.Prelude.{◌≡◌, ◌≤ℤ◌, ◌+ℤ◌, ◌*ℤ◌, int_div, neg_ℤ, pos};
ghost use Rattle.std.specs.Int.{int_rem_euclid};
ghost use Rattle.stages.specs.Products.{wrapped_product};
ghost use Rattle.stages.specs.Wrapping.{wrapped, wrapped-value, wrapped_sum};
ghost use Rattle.stream_functions.specs.Remainders.{remainder-value};

use crate::{Divisor, PlainMapping};
use spliterator::NoMemory;
use stages::Mapping;

/// So much more: `Plus(3)` makes 8 of 5.
#[derive(Clone, Copy)]
pub struct Plus(pub i64);

impl Mapping<i64> for Plus {
    type Out = i64;

    ghost image = { λ m x. wrapped_sum x m.0 };

    ghost images_are_values = { λ m x _. wrapped-value (x +ℤ m.0) };

    fn image(&self, x: &i64) -> Result<i64, NoMemory> {
        Ok(self.image_of(x))
    }
}

impl PlainMapping<i64> for Plus {
    fn image_of(&self, x: &i64) -> i64 {
        x.wrapping_add(self.0)
    }
}

/// So many times the number: `Times(3)` makes 15 of 5.
#[derive(Clone, Copy)]
pub struct Times(pub i64);

impl Mapping<i64> for Times {
    type Out = i64;

    ghost image = { λ m x. wrapped_product x m.0 };

    ghost images_are_values = { λ m x _. wrapped-value (x *ℤ m.0) };

    fn image(&self, x: &i64) -> Result<i64, NoMemory> {
        Ok(self.image_of(x))
    }
}

impl PlainMapping<i64> for Times {
    fn image_of(&self, x: &i64) -> i64 {
        x.wrapping_mul(self.0)
    }
}

/// The number's negative.
#[derive(Clone, Copy)]
pub struct Negated;

impl Mapping<i64> for Negated {
    type Out = i64;

    ghost image = { λ _ x. wrapped (neg_ℤ x) };

    ghost images_are_values = { λ _ x _. wrapped-value (neg_ℤ x) };

    fn image(&self, x: &i64) -> Result<i64, NoMemory> {
        Ok(self.image_of(x))
    }
}

impl PlainMapping<i64> for Negated {
    fn image_of(&self, x: &i64) -> i64 {
        x.wrapping_neg()
    }
}

/// The least remainder that isn't negative (`java.lang.Math`, `floorMod`): `Modulo::by(3)` makes 2 of -1.
#[derive(Clone, Copy)]
pub struct Modulo {
    pub divisor: Divisor,
}

impl Modulo {
    /// The remainder by a number of at least 1.
    pub fn by(number: i64) -> Modulo
        requires { pos 1 ≤ℤ number }
        ensures { pos result.divisor.number ≡ number }
    {
        Modulo {
            divisor: Divisor::new(number),
        }
    }
}

impl Mapping<i64> for Modulo {
    type Out = i64;

    ghost image = { λ m x. int_rem_euclid x (pos m.divisor.number) };

    ghost images_are_values = { λ m x _. remainder-value x m.divisor.number m.divisor.least m.divisor.most };

    fn image(&self, x: &i64) -> Result<i64, NoMemory> {
        Ok(self.image_of(x))
    }
}

impl PlainMapping<i64> for Modulo {
    fn image_of(&self, x: &i64) -> i64 {
        self.divisor.remainder(*x)
    }
}

/// The quotient, rounded towards zero as Java's `/` does: `Divided::by(100)` makes 2 of 299, and -2 of -299.
#[derive(Clone, Copy)]
pub struct Divided {
    pub number: i64,
    ghost least: { pos 1 ≤ℤ number },
}

impl Divided {
    /// The quotient by a number of at least 1.
    pub fn by(number: i64) -> Divided
        requires { pos 1 ≤ℤ number }
        ensures { result.number ≡ number }
    {
        Divided { number }
    }
}

impl Mapping<i64> for Divided {
    type Out = i64;

    ghost image = { λ m x. wrapped (int_div x m.number) };

    ghost images_are_values = { λ m x _. wrapped-value (int_div x m.number) };

    fn image(&self, x: &i64) -> Result<i64, NoMemory> {
        Ok(self.image_of(x))
    }
}

impl PlainMapping<i64> for Divided {
    fn image_of(&self, x: &i64) -> i64 {
        x.wrapping_div(self.number)
    }
}
