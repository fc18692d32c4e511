//! Integers of other types as `i64`.
ghost use Rattle.std.specs.Prelude.{pos};
ghost use Rattle.std.proofs.Common.{arith};
ghost use Rattle.std.proofs.lemmas.Int.{ints};

use crate::PlainMapping;
use spliterator::NoMemory;
use stages::Mapping;

/// An integer of up to 32 bits as an `i64`, which sums and the functions and tests of numbers take (`java.util.stream.IntStream`,
/// `asLongStream`): `SummingLong::new(AsLong)` sums them, and `Composed(AsLong, Above(10))` is a test.
#[derive(Clone, Copy)]
pub struct AsLong;

impl Mapping<i8> for AsLong {
    type Out = i64;

    ghost image = { λ _ n. n };

    ghost images_are_values = { λ _ n value. (Prim.omega (arith, ints), Prim.omega (arith, ints)) };

    fn image(&self, x: &i8) -> Result<i64, NoMemory> {
        Ok(self.image_of(x))
    }
}

impl PlainMapping<i8> for AsLong {
    fn image_of(&self, x: &i8) -> i64 {
        i64::from(*x)
    }
}

impl Mapping<i16> for AsLong {
    type Out = i64;

    ghost image = { λ _ n. n };

    ghost images_are_values = { λ _ n value. (Prim.omega (arith, ints), Prim.omega (arith, ints)) };

    fn image(&self, x: &i16) -> Result<i64, NoMemory> {
        Ok(self.image_of(x))
    }
}

impl PlainMapping<i16> for AsLong {
    fn image_of(&self, x: &i16) -> i64 {
        i64::from(*x)
    }
}

impl Mapping<i32> for AsLong {
    type Out = i64;

    ghost image = { λ _ n. n };

    ghost images_are_values = { λ _ n value. (Prim.omega (arith, ints), Prim.omega (arith, ints)) };

    fn image(&self, x: &i32) -> Result<i64, NoMemory> {
        Ok(self.image_of(x))
    }
}

impl PlainMapping<i32> for AsLong {
    fn image_of(&self, x: &i32) -> i64 {
        i64::from(*x)
    }
}

impl Mapping<u8> for AsLong {
    type Out = i64;

    ghost image = { λ _ n. pos n };

    ghost images_are_values = { λ _ n value. (Prim.omega (arith, ints), Prim.omega (arith, ints)) };

    fn image(&self, x: &u8) -> Result<i64, NoMemory> {
        Ok(self.image_of(x))
    }
}

impl PlainMapping<u8> for AsLong {
    fn image_of(&self, x: &u8) -> i64 {
        i64::from(*x)
    }
}

impl Mapping<u16> for AsLong {
    type Out = i64;

    ghost image = { λ _ n. pos n };

    ghost images_are_values = { λ _ n value. (Prim.omega (arith, ints), Prim.omega (arith, ints)) };

    fn image(&self, x: &u16) -> Result<i64, NoMemory> {
        Ok(self.image_of(x))
    }
}

impl PlainMapping<u16> for AsLong {
    fn image_of(&self, x: &u16) -> i64 {
        i64::from(*x)
    }
}

impl Mapping<u32> for AsLong {
    type Out = i64;

    ghost image = { λ _ n. pos n };

    ghost images_are_values = { λ _ n value. (Prim.omega (arith, ints), Prim.omega (arith, ints)) };

    fn image(&self, x: &u32) -> Result<i64, NoMemory> {
        Ok(self.image_of(x))
    }
}

impl PlainMapping<u32> for AsLong {
    fn image_of(&self, x: &u32) -> i64 {
        i64::from(*x)
    }
}
