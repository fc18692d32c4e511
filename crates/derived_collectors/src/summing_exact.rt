//! Sums that never wrap.
ghost use Rattle.std.specs.Prelude.{◌≡◌, ◌+ℤ◌, ℤ, pos, fold, map, IfOk, OnErr, FitsSigned};
ghost use Rattle.std.specs.Int.{w128};
ghost use Rattle.collectors.specs.Sums.{int_sum};
ghost use Rattle.derived_collectors.specs.ExactSums.{add_exact, exact_laws};

use crate::whole::Whole;
use collectors::Collector;
use spliterator::{NoMemory, Value};
use stages::Mapping;
use std::marker::PhantomData;

/// The sum of two numbers. It is refused where 128 bits have no room for it.
fn exact_sum(a: i128, b: i128) -> Result<i128, NoMemory>
    ensures sum { IfOk result (λ sum. sum ≡ a +ℤ b) }
    ensures refused { OnErr result (¬ FitsSigned w128 (a +ℤ b)) }
{
    match a.checked_add(b) {
        Some(sum) => Ok(sum),
        None => Err(NoMemory),
    }
}

/// The sum of what there was and of the items' numbers. The sum so far stays out of memory.
fn sum_all<T: Value, M: Mapping<T>>(number: &M, before: i128, items: &[T]) -> Result<i128, NoMemory>
where
    M::Out: Whole + Drop,
    requires { M.ready number.now }
    ensures { let add = add_exact (λ x. M.Out.number (M.image number.now x)) in
        IfOk result (λ sum. sum ≡ fold add before (map T.content items.now)) }
{
    let mut sum = before;
    for item in items {
        sum = exact_sum(sum, number.image(item)?.whole())?;
    }
    Ok(sum)
}

/// The sum of the items' numbers, exactly. Where `Itself` is the mapping of a number to itself:
///
///     let sum = collect(&SummingExact::new(Itself), &[i64::MAX, 1])?;    // 9223372036854775808
///
/// A sum that 128 bits have no room for is refused memory: of fewer than 2^63 numbers each sum fits.
#[derive(Drop)]
pub struct SummingExact<T, M> {
    number: M,
    items: PhantomData<T>,
}

impl<T: Value, M: Mapping<T>> SummingExact<T, M>
where
    M::Out: Whole + Drop,
{
    pub fn new(number: M) -> SummingExact<T, M>
        ensures number { result.number ≡ number }
    {
        SummingExact {
            number,
            items: PhantomData,
        }
    }
}

impl<T: Value, M: Mapping<T>> Collector for SummingExact<T, M>
where
    M::Out: Whole + Drop,
{
    type Item = T;

    type Acc = i128;

    type Out = i128;

    ghost ready = { λ c. M.ready c.number };

    ghost Content = { ℤ };

    ghost content = { λ _ n. n };

    ghost empty = { λ _. pos 0 };

    ghost add = { λ c. add_exact (λ x. M.Out.number (M.image c.number x)) };

    ghost merge = { λ _. ◌+ℤ◌ };

    ghost gives = { λ c l n. n ≡ int_sum (map (λ x. M.Out.number (M.image c.number x)) l) };

    ghost laws = { λ c. exact_laws (λ x. M.Out.number (M.image c.number x)) T.is_value };

    fn supply(&self) -> Result<i128, NoMemory> {
        Ok(0)
    }

    fn accumulate(&self, acc: &mut i128, x: &T) -> Result<(), NoMemory> {
        *acc = exact_sum(*acc, self.number.image(x)?.whole())?;
        Ok(())
    }

    fn accumulate_all(&self, acc: &mut i128, items: &[T]) -> Result<(), NoMemory> {
        *acc = sum_all(&self.number, *acc, items)?;
        Ok(())
    }

    fn combine(&self, left: &mut i128, right: i128) -> Result<(), NoMemory> {
        *left = exact_sum(*left, right)?;
        Ok(())
    }

    fn finish(&self, acc: i128) -> Result<i128, NoMemory> {
        Ok(acc)
    }

    fn is_light(&self, _acc: &i128) -> bool {
        true
    }
}
