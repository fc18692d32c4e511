//! Mappings that are always ready.
use spliterator::Value;
use stages::Mapping;
use stream_functions::{Composed, Itself, Modulo, Negated, Plus, Times};

/// A mapping that may be used at any time: nothing is asked before a call, as a kept closure asks that it meets its definition.
///
/// ```text
/// impl Step<i64> for Tenfold {
///     ghost always_ready = { λ _. tt };
/// }
/// ```
pub trait Step<T: Value>: Mapping<T> {
    ghost always_ready: { (f : Self) → Self.Mapping.ready f };
}

impl<T: Value, M: Step<T>> Step<T> for &M {
    ghost always_ready = { λ f. M.always_ready f.now };
}

impl Step<i64> for Plus {
    ghost always_ready = { λ _. tt };
}

impl Step<i64> for Times {
    ghost always_ready = { λ _. tt };
}

impl Step<i64> for Negated {
    ghost always_ready = { λ _. tt };
}

impl Step<i64> for Modulo {
    ghost always_ready = { λ _. tt };
}

impl<T: Value + Copy> Step<T> for Itself {
    ghost always_ready = { λ _. tt };
}

impl<T, U, M, N> Step<T> for Composed<M, N>
where
    T: Value,
    U: Value + Drop,
    M: Step<T> + Mapping<T, Out = U>,
    N: Step<U>,
{
    ghost always_ready = { λ c. (M.always_ready c.0, N.always_ready c.1) };
}
