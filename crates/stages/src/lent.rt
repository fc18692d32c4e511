//! A function or a stage that is lent serves as one that is owned.
use crate::{Mapping, Operation, Operator, Sink, Stage, Test};
use spliterator::{NoMemory, Value};

impl<T: Value, M: Mapping<T>> Mapping<T> for &M {
    type Out = M::Out;

    ghost ready = { λ f. M.ready f.now };

    ghost image = { λ f. M.image f.now };

    ghost images_are_values = { λ f. M.images_are_values f.now };

    fn image(&self, x: &T) -> Result<M::Out, NoMemory> {
        (**self).image(x)
    }
}

impl<T: Value, P: Test<T>> Test<T> for &P {
    ghost ready = { λ t. P.ready t.now };

    ghost holds = { λ t. P.holds t.now };

    fn holds(&self, x: &T) -> bool {
        (**self).holds(x)
    }

    fn count_meeting(&self, items: &[T]) -> usize {
        (**self).count_meeting(items)
    }
}

impl<T: Value, O: Operator<T>> Operator<T> for &O {
    ghost ready = { λ o. O.ready o.now };

    ghost join = { λ o. O.join o.now };

    ghost joins_are_values = { λ o. O.joins_are_values o.now };

    fn join(&self, a: &T, b: &T) -> Result<T, NoMemory> {
        (**self).join(a, b)
    }
}

impl<A: Stage> Stage for &A {
    type In = A::In;

    type Out = A::Out;

    ghost ready = { λ s. A.ready s.now };

    ghost expand = { λ s. A.expand s.now };

    ghost operation = { λ s. A.operation s.now };

    ghost size_after = { λ s. A.size_after s.now };

    ghost flag_law = { λ s. A.flag_law s.now };

    fn feed<K: Sink<A::Out>>(&self, x: A::In, sink: &mut K) -> Result<(), NoMemory> {
        (**self).feed(x, sink)
    }

    fn prefers_blocks(&self) -> bool {
        (**self).prefers_blocks()
    }

    fn prefers_blocks_behind(&self) -> bool {
        (**self).prefers_blocks_behind()
    }

    fn feed_all<K: Sink<A::Out>>(
        &self,
        items: &mut Vec<A::In>,
        sink: &mut K,
    ) -> Result<(), NoMemory> {
        (**self).feed_all(items, sink)
    }

    fn lent_block<'a>(&'a self, items: &'a [A::In]) -> Option<&'a [A::Out]> {
        (**self).lent_block(items)
    }

    fn growth(&self) -> u64 {
        (**self).growth()
    }

    fn operation(&self) -> Operation {
        (**self).operation()
    }

    fn size_after(&self, size: Option<u64>) -> Option<u64> {
        (**self).size_after(size)
    }
}
