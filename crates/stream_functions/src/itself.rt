//! The item itself.
ghost use Rattle.spliterator.specs.Clones.{ClonesAlike, TestsClonesAlike};

use crate::PlainMapping;
use spliterator::{NoMemory, Value};
use stages::Mapping;
use std::marker::PhantomData;

/// The item itself: a number, or a text that is lent (`java.util.function.Function`, `identity`).
#[derive(Clone, Copy)]
pub struct Itself;

impl<T: Value + Copy> Mapping<T> for Itself {
    type Out = T;

    ghost image = { λ _ x. x };

    ghost images_are_values = { λ _ x value. value };

    fn image(&self, x: &T) -> Result<T, NoMemory> {
        Ok(*x)
    }
}

impl<T: Value + Copy> PlainMapping<T> for Itself {
    fn image_of(&self, x: &T) -> T {
        *x
    }
}

/// What a reference lends, as a value of its own: a number that a map or a `Vec` keeps.
///
/// ```text
/// of(SliceSplit::new(&lent)).map(Copied).filter(Above(1))    // of &i64, i64
/// ```
#[derive(Clone, Copy)]
pub struct Copied;

impl<'a, T: Value + Copy> Mapping<&'a T> for Copied {
    type Out = T;

    ghost image = { λ _ x. x };

    ghost images_are_values = { λ _ x value. value };

    fn image(&self, x: &&'a T) -> Result<T, NoMemory> {
        Ok(self.image_of(x))
    }
}

impl<'a, T: Value + Copy> PlainMapping<&'a T> for Copied {
    fn image_of(&self, x: &&'a T) -> T {
        **x
    }
}

/// The item, as a clone: a text that is owned, or a record.
#[derive(Drop)]
pub struct Cloned<T: Value + Clone> {
    values: PhantomData<T>,
    ghost clones_alike: { TestsClonesAlike T.same T.is_clone T.content },
}

impl<T: Value + Clone> Cloned<T> {
    /// A clone of a value must have its content.
    pub fn new() -> Cloned<T>
        requires { ClonesAlike T.is_clone T.content }
    {
        Cloned {
            values: PhantomData,
        }
    }
}

impl<T: Value + Clone> Mapping<T> for Cloned<T> {
    type Out = T;

    ghost image = { λ _ x. x };

    ghost images_are_values = { λ _ x value. value };

    fn image(&self, x: &T) -> Result<T, NoMemory> {
        Ok(x.clone()?)
    }
}
