//! Remainders by a divisor that is prepared once.
ghost use Rattle.std.specs.Prelude.{◌≡◌, ◌≤◌, ◌<◌, ◌^◌, ◌-◌, ◌*◌, ◌/◌, ◌%◌, pos};
ghost use Rattle.std.specs.Int.{int_max, int_rem_euclid};
ghost use Rattle.std.specs.Ordering.{int_eq};

/// A divisor from 1 to 2^63 - 1, with what spares each remainder and each test a division: how often it goes into 2^64 - 1, how many twos
/// it has, and the inverse of the odd number that is left without them.
#[derive(Clone, Copy)]
pub struct Divisor {
    pub number: u64,
    pub(crate) reciprocal: u64,
    twos: u32,
    inverse: u64,
    pub ghost least: { 1 ≤ number },
    pub ghost most: { number < 2 ^ 63 },
    ghost reciprocal_is: { reciprocal ≡ (2 ^ 64 - 1) / number },
    ghost twos_most: { twos < 64 },
    ghost twos_divide: { number / 2 ^ twos * 2 ^ twos ≡ number },
    ghost inverse_is: { number / 2 ^ twos * inverse % 2 ^ 64 ≡ 1 },
}

impl Divisor {
    /// The number as a divisor. One below 1 counts as 1.
    pub fn new(number: i64) -> Divisor
        ensures { pos result.number ≡ int_max number (pos 1) }
    {
        let number = number.max(1).unsigned_abs();
        let twos = number.trailing_zeros();
        Divisor {
            number,
            reciprocal: u64::MAX / number,
            twos,
            inverse: inverse(number >> twos),
        }
    }

    /// The least remainder that isn't negative.
    pub fn remainder(&self, x: i64) -> i64
        ensures { result ≡ int_rem_euclid x (pos self.now.number) }
    {
        // From the other end, a negative number counts 0, 1, .. at -1, -2, ..
        let size = if x < 0 { !x } else { x };
        let rest = self.rest(size as u64);
        if x < 0 {
            (self.number - 1 - rest) as i64
        } else {
            rest as i64
        }
    }

    /// Whether the remainder is 0.
    pub fn divides(&self, x: i64) -> bool
        ensures { result ≡ int_eq (int_rem_euclid x (pos self.now.number)) (pos 0) }
    {
        // Of a multiple this is the quotient. Any other number gives more than the greatest quotient.
        let product = x.unsigned_abs().wrapping_mul(self.inverse);
        product.rotate_right(self.twos) <= self.reciprocal
    }

    // The reciprocal gives the quotient, or one less.
    fn rest(&self, x: u64) -> u64
        requires { x ≤ 2 ^ 63 }
        ensures { result ≡ x % self.now.number }
    {
        let quotient = ((x as u128 * self.reciprocal as u128) >> 64) as u64;
        let rest = x - quotient * self.number;
        if rest < self.number {
            rest
        } else {
            rest - self.number
        }
    }
}

/// The inverse of an odd number modulo 2^64.
fn inverse(odd: u64) -> u64
    requires { odd % 2 ≡ 1 }
    ensures { odd * result % 2 ^ 64 ≡ 1 }
{
    // 1 / (1 - r) is (1 + r)(1 + r^2)(1 + r^4) .. (1 + r^32): r is even, so r^64 is 0.
    let mut inverse = 1u64;
    let mut rest = 1u64.wrapping_sub(odd);
    for _step in 0..6u32 {
        inverse = inverse.wrapping_mul(rest.wrapping_add(1));
        rest = rest.wrapping_mul(rest);
    }
    inverse
}
