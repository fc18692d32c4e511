//! Sums that say where they don't fit.
ghost use Rattle.std.specs.Prelude.{◌≡◌, SomeIff, FitsSigned};
ghost use Rattle.std.specs.Int.{w64};

use crate::collecting_and_then::{CollectingAndThen, Finisher};
use crate::summing_exact::SummingExact;
use crate::whole::Whole;
use spliterator::{NoMemory, Value};
use stages::Mapping;

/// Makes a sum an i64, where it is one.
#[derive(Drop)]
pub struct IntoLong;

impl Finisher<i128> for IntoLong {
    type Out = Option<i64>;

    ghost gives = { λ _ whole long. SomeIff long (FitsSigned w64 whole) whole };

    fn apply(&self, whole: i128) -> Result<Option<i64>, NoMemory> {
        match i64::try_from(whole) {
            Ok(long) => Ok(Some(long)),
            Err(_) => Ok(None),
        }
    }
}

/// The sum of the items' numbers where the whole of it fits an i64, else none. What a part of the items comes to makes no difference. Java's
/// `Math.addExact`, asked of the whole:
///
///     let sum = collect(&summing_checked(Itself), &[i64::MAX, 1, -1])?;    // Some(9223372036854775807)
///     let sum = collect(&summing_checked(Itself), &[i64::MAX, 1])?;    // None
///
/// A whole that 128 bits have no room for is refused memory, as at `SummingExact`.
pub fn summing_checked<T: Value, M: Mapping<T>>(
    number: M,
) -> CollectingAndThen<SummingExact<T, M>, IntoLong>
where
    M::Out: Whole + Drop,
    ensures number { result.downstream.number ≡ number }
{
    CollectingAndThen::new(SummingExact::new(number), IntoLong)
}
