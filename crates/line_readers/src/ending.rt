//! Where the reading ends.
ghost use Rattle.std.specs.Prelude.{◌≡◌, ◌++◌, List, All, true, fold};

use crate::meeting::Meeting;
use collectors::{Collector, First};
use derived_collectors::Deciding;
use spliterator::Value;
use stages::Test;

/// Whether a container's result is known, whatever follows.
pub(crate) trait Ending<C: Collector> {
    /// It may answer no for any reason.
    fn is_over(&self, collector: &C, acc: &C::Acc) -> bool
        requires { C.ready collector.now }
        ensures { let it = collector.now in
            result ≡ true → (l more : List C.Item.Content) → All C.Item.is_value l
            → C.content it acc.now ≡ fold (C.add it) (C.empty it) l
            → (out : C.Out) → C.gives it l out → C.gives it (l ++ more) out };
}

/// Each line is read.
#[derive(Drop)]
pub(crate) struct AtTheEnd;

impl<C: Collector> Ending<C> for AtTheEnd {
    fn is_over(&self, _collector: &C, _acc: &C::Acc) -> bool {
        false
    }
}

/// No line is read behind those that decide.
#[derive(Drop)]
pub(crate) struct OnceDecided;

impl<C: Deciding> Ending<C> for OnceDecided {
    fn is_over(&self, collector: &C, acc: &C::Acc) -> bool {
        collector.is_decided(acc)
    }
}

/// No line is read behind that of the first item, or the first that meets the test.
#[derive(Drop)]
pub(crate) struct OnceFound;

impl<T: Value + Clone> Ending<First<T>> for OnceFound {
    fn is_over(&self, _collector: &First<T>, acc: &Option<T>) -> bool {
        acc.is_some()
    }
}

impl<T: Value, P: Test<T>> Ending<Meeting<T, P>> for OnceFound {
    fn is_over(&self, _collector: &Meeting<T, P>, acc: &bool) -> bool {
        *acc
    }
}
