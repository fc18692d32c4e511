//! Functions made of closures. Each stands beside a definition, a type of the caller's whose one ghost line says what the closure makes,
//! and is checked against it where it is made, and not where the stream runs.
ghost use Rattle.std.specs.Prelude.{◌≡◌, Bool};

use crate::PlainMapping;
use spliterator::{Bounded, NoMemory, Value};
use stages::{Mapping, Operator, Test};
use std::marker::PhantomData;

/// What a closure makes of an item, for contracts alone. What the closure captures are the definition's fields.
///
/// ```text
/// struct Cents;
/// impl Gives<Order, i64> for Cents { ghost gives = { λ _ o. o.cents }; }
/// ```
pub trait Gives<C, U: Bounded> {
    ghost gives: { Self → C → U.Content };
}

/// Which items a closure accepts, for contracts alone.
///
/// ```text
/// struct Dearer(i64);
/// impl Tells<Order> for Dearer { ghost tells = { λ d o. int_lt d.0 o.cents }; }
/// ```
pub trait Tells<C> {
    ghost tells: { Self → C → Bool };
}

/// What a closure makes of two items, for contracts alone.
///
/// ```text
/// struct Later;
/// impl Joins<i64> for Later { ghost joins = { λ _ a b. b }; }
/// ```
pub trait Joins<C> {
    ghost joins: { Self → C → C → C };
}

/// A mapping by a closure, from [`made_by`].
#[derive(Clone, Copy, Drop)]
pub struct MadeBy<U, F, D> {
    pub definition: D,
    pub function: F,
    images: PhantomData<U>,
}

/// A test by a closure, from [`such`].
#[derive(Clone, Copy, Drop)]
pub struct SuchThat<F, D> {
    pub definition: D,
    pub function: F,
}

/// An operator by a closure, from [`joined_by`].
#[derive(Clone, Copy, Drop)]
pub struct JoinedBy<F, D> {
    pub definition: D,
    pub function: F,
}

/// The mapping that makes what the closure makes: what the type keeps of what the definition gives, which is that itself where it is in range.
///
/// ```text
/// rows(&orders).map(made_by(Cents, |o: &Row<Order>| -> i64 { o.0.cents }))
/// ```
pub fn made_by<T: Value, U: Bounded, D: Gives<T::Content, U>, F: Fn(&T) -> U>(
    definition: D,
    function: F,
) -> MadeBy<U, F, D>
    requires callable { F.IsAlwaysCallable function }
    requires meets { (x : _) (y : _) → U.bounded (U.content y) ≡ U.content y → F.post function x y → U.content y ≡ U.bounded (D.gives definition (T.content x.now)) }
    ensures definition { result.definition ≡ definition }
    ensures function { result.function ≡ function }
{
    MadeBy {
        definition,
        function,
        images: PhantomData,
    }
}

/// The test that the closure is.
///
/// ```text
/// rows(&orders).filter(such(Dearer(1000), |o: &Row<Order>| o.0.cents > 1000))
/// ```
pub fn such<T: Value, D: Tells<T::Content>, F: Fn(&T) -> bool>(
    definition: D,
    function: F,
) -> SuchThat<F, D>
    requires callable { F.IsAlwaysCallable function }
    requires meets { (x : _) (b : _) → F.post function x b → b ≡ D.tells definition (T.content x.now) }
    ensures definition { result.definition ≡ definition }
    ensures function { result.function ≡ function }
{
    SuchThat {
        definition,
        function,
    }
}

/// The operator that joins as the closure does.
///
/// ```text
/// numbers.reduce_optional(rt, alloc, &run, &joined_by(Later, |_a: &i64, b: &i64| -> i64 { *b }))
/// ```
pub fn joined_by<T: Bounded, D: Joins<T::Content>, F: Fn(&T, &T) -> T>(
    definition: D,
    function: F,
) -> JoinedBy<F, D>
    requires callable { F.IsAlwaysCallable function }
    requires meets { (a : _) (b : _) (y : _) → T.bounded (T.content y) ≡ T.content y → F.post function a b y
        → T.content y ≡ T.bounded (D.joins definition (T.content a.now) (T.content b.now)) }
    ensures definition { result.definition ≡ definition }
    ensures function { result.function ≡ function }
{
    JoinedBy {
        definition,
        function,
    }
}

impl<T: Value, U: Bounded, F: Fn(&T) -> U, D: Gives<T::Content, U>> Mapping<T> for MadeBy<U, F, D> {
    type Out = U;

    ghost ready = { λ f. F.IsAlwaysCallable f.function
        × ((x : _) (y : _) → U.bounded (U.content y) ≡ U.content y → F.post f.function x y → U.content y ≡ U.bounded (D.gives f.definition (T.content x.now))) };

    ghost image = { λ f x. U.bounded (D.gives f.definition x) };

    ghost images_are_values = { λ f x _. U.bounded_is_value (D.gives f.definition x) };

    fn image(&self, x: &T) -> Result<U, NoMemory> {
        Ok(self.image_of(x))
    }
}

impl<T: Value, U: Bounded, F: Fn(&T) -> U, D: Gives<T::Content, U>> PlainMapping<T>
    for MadeBy<U, F, D> {
    fn image_of(&self, x: &T) -> U {
        let made = (self.function)(x);
        made.is_value();
        made
    }
}

impl<T: Value, F: Fn(&T) -> bool, D: Tells<T::Content>> Test<T> for SuchThat<F, D> {
    ghost ready = { λ t. F.IsAlwaysCallable t.function
        × ((x : _) (b : _) → F.post t.function x b → b ≡ D.tells t.definition (T.content x.now)) };

    ghost holds = { λ t. D.tells t.definition };

    fn holds(&self, x: &T) -> bool {
        (self.function)(x)
    }
}

impl<T: Bounded, F: Fn(&T, &T) -> T, D: Joins<T::Content>> Operator<T> for JoinedBy<F, D> {
    ghost ready = { λ o. F.IsAlwaysCallable o.function
        × ((a : _) (b : _) (y : _) → T.bounded (T.content y) ≡ T.content y → F.post o.function a b y
        → T.content y ≡ T.bounded (D.joins o.definition (T.content a.now) (T.content b.now))) };

    ghost join = { λ o a b. T.bounded (D.joins o.definition a b) };

    ghost joins_are_values = { λ o a b _ _. T.bounded_is_value (D.joins o.definition a b) };

    fn join(&self, a: &T, b: &T) -> Result<T, NoMemory> {
        let joined = (self.function)(a, b);
        joined.is_value();
        Ok(joined)
    }
}
