//! A mapping or a test behind a mapping.
ghost use Rattle.std.specs.Prelude.{◌≡◌};

use spliterator::{NoMemory, Value};
use stages::{Mapping, Test};

/// A mapping that asks for no memory, so that a test may stand behind it: each of this crate's but `Cloned` and `LowerCase`.
pub trait PlainMapping<T: Value>: Mapping<T> {
    fn image_of(&self, x: &T) -> Self::Out
        requires { Self.Mapping.ready self.now }
        ensures { Self.Out.content result ≡ Self.Mapping.image self.now (T.content x.now) };
}

/// The second one's answer to the first one's image (`java.util.function.Function`, `andThen`): `Composed(Length, Modulo::by(10))`, and as
/// a test `Composed(Length, Above(3))`, where the first is a [`PlainMapping`].
#[derive(Clone, Copy, Drop)]
pub struct Composed<M, N>(pub M, pub N);

impl<T: Value, U: Value + Drop, M: Mapping<T, Out = U>, N: Mapping<U>> Mapping<T>
    for Composed<M, N> {
    type Out = N::Out;

    ghost ready = { λ c. M.ready c.0 × N.ready c.1 };

    ghost image = { λ c x. N.image c.1 (M.image c.0 x) };

    ghost images_are_values = { λ c x value. N.images_are_values c.1 (M.image c.0 x) (M.images_are_values c.0 x value) };

    fn image(&self, x: &T) -> Result<N::Out, NoMemory> {
        let first = self.0.image(x)?;
        self.1.image(&first)
    }
}

impl<T: Value, U: Value + Drop, M: PlainMapping<T, Out = U>, N: PlainMapping<U>> PlainMapping<T>
    for Composed<M, N> {
    fn image_of(&self, x: &T) -> N::Out {
        let first = self.0.image_of(x);
        self.1.image_of(&first)
    }
}

impl<T: Value, U: Value + Drop, M: PlainMapping<T, Out = U>, P: Test<U>> Test<T>
    for Composed<M, P> {
    ghost ready = { λ c. M.ready c.0 × P.ready c.1 };

    ghost holds = { λ c x. P.holds c.1 (M.image c.0 x) };

    fn holds(&self, x: &T) -> bool {
        let first = self.0.image_of(x);
        self.1.holds(&first)
    }
}
