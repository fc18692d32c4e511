//! Remainders by a small divisor over a block of near numbers, in a loop that the compiler makes a vector's.
ghost use Rattle.std.specs.Prelude.{◌≡◌, ◌≤◌, ◌<◌, ◌^◌, ◌-◌, ◌/◌, ◌%◌, ◌↔◌, All, FitsSigned, IfSome, IsSome, IsTrue, map, pos};
ghost use Rattle.std.specs.Int.{int_rem_euclid, w32};
ghost use Rattle.stream_functions.specs.Near.{IsNearNatural, distance};

use crate::Divisor;

/// A divisor from 1 to 2^31 - 1, with how often it goes into 2^32 - 1: both are factors of 32 bits, of which a processor multiplies several at
/// a time.
#[derive(Clone, Copy)]
pub(crate) struct SmallDivisor {
    number: u32,
    reciprocal: u32,
    ghost least: { 1 ≤ number },
    ghost most: { number < 2 ^ 31 },
    ghost reciprocal_is: { reciprocal ≡ (2 ^ 32 - 1) / number },
}

impl SmallDivisor {
    /// A divisor that is small enough.
    pub(crate) fn of(divisor: Divisor) -> Option<SmallDivisor>
        ensures small { IsSome result ↔ (divisor.number < 2 ^ 31) }
        ensures same { IfSome result (λ small. small.number ≡ divisor.number) }
    {
        if divisor.number < 1 << 31 {
            Some(SmallDivisor {
                number: divisor.number as u32,
                reciprocal: (divisor.reciprocal >> 32) as u32,
            })
        } else {
            None
        }
    }

    /// Puts each number's least remainder that isn't negative in its place.
    pub(crate) fn put_remainders(self, items: &mut [i64])
        requires { All (FitsSigned w32) items.old }
        ensures { items.new ≡ map (λ x. int_rem_euclid x (pos self.number)) items.old }
    {
        for x in items.iter_mut() {
            let number = *x;
            *x = self.remainder(number);
        }
    }

    /// The same where no number is negative: no sign is turned.
    pub(crate) fn put_natural_remainders(self, items: &mut [i64])
        requires { All IsNearNatural items.old }
        ensures { items.new ≡ map (λ x. int_rem_euclid x (pos self.number)) items.old }
    {
        for x in items.iter_mut() {
            let number = *x;
            *x = self.natural_remainder(number);
        }
    }

    fn natural_remainder(self, x: i64) -> i64
        requires { IsNearNatural x }
        ensures { result ≡ int_rem_euclid x (pos self.number) }
    {
        self.rest(x as u64)
    }

    fn remainder(self, x: i64) -> i64
        requires { FitsSigned w32 x }
        ensures { result ≡ int_rem_euclid x (pos self.number) }
    {
        let rest = self.rest(size(x));
        if x < 0 {
            i64::from(self.number) - 1 - rest
        } else {
            rest
        }
    }

    // The reciprocal gives the quotient, or one less. Signs are compared: a vector has no comparison of u64.
    fn rest(self, x: u64) -> i64
        requires { x < 2 ^ 31 }
        ensures { result ≡ pos (x % self.number) }
    {
        let number = u64::from(self.number);
        let quotient = (u64::from(x as u32) * u64::from(self.reciprocal)) >> 32;
        let rest = (x - quotient * number) as i64;
        let over = rest - i64::from(self.number);
        if over < 0 { rest } else { over }
    }
}

/// How far a number is from 0, or a negative one from -1.
fn size(x: i64) -> u64
    ensures { result ≡ distance x }
{
    (if x < 0 { !x } else { x }) as u64
}

/// Whether all numbers are near: from -2^31 to 2^31 - 1.
pub(crate) fn all_near(items: &[i64]) -> bool
    ensures { IsTrue result ↔ All (FitsSigned w32) items.now }
{
    // One digit that is too high stays: no number costs a branch.
    let mut digits = 0;
    for x in items {
        digits |= size(*x);
    }
    digits < 1 << 31
}

/// The digits of a number: a negative one has the highest.
fn digits_of(x: i64) -> u64
    ensures { result < 2 ^ 31 ↔ IsNearNatural x }
{
    x.cast_unsigned()
}

/// Whether all numbers are near and none is negative: from 0 to 2^31 - 1.
pub(crate) fn all_near_natural(items: &[i64]) -> bool
    ensures { IsTrue result ↔ All IsNearNatural items.now }
{
    let mut digits = 0;
    for x in items {
        digits |= digits_of(*x);
    }
    digits < 1 << 31
}
