//! Operators. Each is associative, and its constructor says so.
ghost use Rattle.std.specs.Prelude.{◌+ℤ◌, ◌*ℤ◌};
ghost use Rattle.spliterator.specs.Clones.{ClonesAlike, TestsClonesAlike};
ghost use Rattle.spliterator.specs.Values.{IsI64};
ghost use Rattle.stages.specs.Operators.{IsAssociative};
ghost use Rattle.stages.specs.Wrapping.{wrapped_sum, wrapped-value};
ghost use Rattle.stages.specs.Products.{wrapped_product};
ghost use Rattle.stages.specs.Choices.{larger, smaller, first_of, last_of, either-value};
ghost use Rattle.std.specs.Ordering.{is_lt, is_gt};

use crate::Operator;
use spliterator::{NoMemory, SortedValue, Value};
use std::cmp::Ordering;
use std::marker::PhantomData;

/// The sum of two numbers, which wraps in 64-bit two's complement.
#[derive(Clone, Copy, Debug)]
pub struct WrapAdd;

impl WrapAdd {
    pub fn new() -> WrapAdd
        ensures { IsAssociative IsI64 (⟦<WrapAdd as Operator<i64>>⟧.join result) }
    {
        WrapAdd
    }
}

impl Operator<i64> for WrapAdd {
    ghost join = { λ _. wrapped_sum };

    ghost joins_are_values = { λ _ x y _ _. wrapped-value (x +ℤ y) };

    fn join(&self, a: &i64, b: &i64) -> Result<i64, NoMemory> {
        Ok(a.wrapping_add(*b))
    }
}

/// The product of two numbers, which wraps in 64-bit two's complement.
#[derive(Clone, Copy, Debug)]
pub struct WrapMul;

impl WrapMul {
    pub fn new() -> WrapMul
        ensures { IsAssociative IsI64 (⟦<WrapMul as Operator<i64>>⟧.join result) }
    {
        WrapMul
    }
}

impl Operator<i64> for WrapMul {
    ghost join = { λ _. wrapped_product };

    ghost joins_are_values = { λ _ x y _ _. wrapped-value (x *ℤ y) };

    fn join(&self, a: &i64, b: &i64) -> Result<i64, NoMemory> {
        Ok(a.wrapping_mul(*b))
    }
}

/// The greater of two values, as a clone: the first where they tie (`java.util.function.BinaryOperator`, `maxBy`).
#[derive(Drop)]
pub struct Max<T: SortedValue + Clone> {
    values: PhantomData<T>,
    ghost clones_alike: { TestsClonesAlike T.same T.is_clone T.content },
}

impl<T: SortedValue + Clone> Max<T> {
    /// A clone of a value must have its content.
    pub fn new() -> Max<T>
        requires { ClonesAlike T.is_clone T.content }
        ensures { IsAssociative T.is_value (⟦<Max<T> as Operator<T>>⟧.join result) }
    {
        Max {
            values: PhantomData,
        }
    }
}

impl<T: SortedValue + Clone> Operator<T> for Max<T> {
    ghost join = { λ _. larger T.order };

    ghost joins_are_values = { λ _ x y. either-value T.is_value (is_lt (T.order x y)) x y };

    fn join(&self, a: &T, b: &T) -> Result<T, NoMemory> {
        let larger = match a.cmp(b) {
            Ordering::Less => b,
            Ordering::Equal | Ordering::Greater => a,
        };
        Ok(larger.clone()?)
    }
}

/// The lesser of two values, as a clone: the first where they tie (`java.util.function.BinaryOperator`, `minBy`).
#[derive(Drop)]
pub struct Min<T: SortedValue + Clone> {
    values: PhantomData<T>,
    ghost clones_alike: { TestsClonesAlike T.same T.is_clone T.content },
}

impl<T: SortedValue + Clone> Min<T> {
    /// A clone of a value must have its content.
    pub fn new() -> Min<T>
        requires { ClonesAlike T.is_clone T.content }
        ensures { IsAssociative T.is_value (⟦<Min<T> as Operator<T>>⟧.join result) }
    {
        Min {
            values: PhantomData,
        }
    }
}

impl<T: SortedValue + Clone> Operator<T> for Min<T> {
    ghost join = { λ _. smaller T.order };

    ghost joins_are_values = { λ _ x y. either-value T.is_value (is_gt (T.order x y)) x y };

    fn join(&self, a: &T, b: &T) -> Result<T, NoMemory> {
        let smaller = match a.cmp(b) {
            Ordering::Greater => b,
            Ordering::Less | Ordering::Equal => a,
        };
        Ok(smaller.clone()?)
    }
}

/// The first of two values, as a clone.
#[derive(Drop)]
pub struct FirstOf<T: Value + Clone> {
    values: PhantomData<T>,
    ghost clones_alike: { TestsClonesAlike T.same T.is_clone T.content },
}

impl<T: Value + Clone> FirstOf<T> {
    /// A clone of a value must have its content.
    pub fn new() -> FirstOf<T>
        requires { ClonesAlike T.is_clone T.content }
        ensures { IsAssociative T.is_value (⟦<FirstOf<T> as Operator<T>>⟧.join result) }
    {
        FirstOf {
            values: PhantomData,
        }
    }
}

impl<T: Value + Clone> Operator<T> for FirstOf<T> {
    ghost join = { λ _. first_of };

    ghost joins_are_values = { λ _ _ _ first _. first };

    fn join(&self, a: &T, _b: &T) -> Result<T, NoMemory> {
        Ok(a.clone()?)
    }
}

/// The last of two values, as a clone.
#[derive(Drop)]
pub struct LastOf<T: Value + Clone> {
    values: PhantomData<T>,
    ghost clones_alike: { TestsClonesAlike T.same T.is_clone T.content },
}

impl<T: Value + Clone> LastOf<T> {
    /// A clone of a value must have its content.
    pub fn new() -> LastOf<T>
        requires { ClonesAlike T.is_clone T.content }
        ensures { IsAssociative T.is_value (⟦<LastOf<T> as Operator<T>>⟧.join result) }
    {
        LastOf {
            values: PhantomData,
        }
    }
}

impl<T: Value + Clone> Operator<T> for LastOf<T> {
    ghost join = { λ _. last_of };

    ghost joins_are_values = { λ _ _ _ _ last. last };

    fn join(&self, _a: &T, b: &T) -> Result<T, NoMemory> {
        Ok(b.clone()?)
    }
}
