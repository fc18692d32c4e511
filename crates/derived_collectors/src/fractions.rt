//! Averages that aren't rounded.
ghost use Rattle.std.specs.Prelude.{◌≡◌};

use crate::summing_exact::SummingExact;
use crate::whole::Whole;
use collectors::{Counting, Pairing, Teeing};
use spliterator::{NoMemory, Value};
use stages::Mapping;

/// An average as it is: a sum over a count, which is 0 where there are no numbers.
#[derive(Clone, Copy, Debug, PartialEq, Eq, Drop)]
pub struct Fraction {
    /// The sum of the numbers, exactly.
    pub sum: i128,
    /// How many there are, as an i64 that wraps.
    pub count: i64,
}

/// Makes a sum and a count a fraction.
#[derive(Drop)]
pub struct IntoFraction;

impl Pairing<i128, i64> for IntoFraction {
    type Out = Fraction;

    ghost gives = { λ _ sum count fraction. (fraction.sum ≡ sum) × (fraction.count ≡ count) };

    fn pair(&self, first: i128, second: i64) -> Result<Fraction, NoMemory> {
        Ok(Fraction {
            sum: first,
            count: second,
        })
    }
}

/// The sum of the items' numbers over their count. Java's `Collectors.averagingLong`, which rounds to a floating-point number:
///
///     let average = collect(&averaging(Itself), &[5, 2, 8, 2])?;    // 17 over 4
pub fn averaging<T: Value, M: Mapping<T>>(
    number: M,
) -> Teeing<SummingExact<T, M>, Counting<T>, IntoFraction>
where
    M::Out: Whole + Drop,
    ensures number { result.first.number ≡ number }
{
    Teeing::new(SummingExact::new(number), Counting::new(), IntoFraction)
}
