//! Whether some item meets a test, as a collector.
ghost use Rattle.std.specs.Prelude.{◌≡◌, Bool, false, ◌||◌};
ghost use Rattle.parallel_streams.specs.Terminals.{any_meets};
ghost use Rattle.line_readers.specs.Meeting.{meets_add, meets_laws};

use collectors::Collector;
use spliterator::{NoMemory, Value};
use stages::Test;
use std::marker::PhantomData;

/// Whether some item meets a test. Behind the first one none is asked.
#[derive(Drop)]
pub(crate) struct Meeting<T, P> {
    test: P,
    items: PhantomData<T>,
}

impl<T, P> Meeting<T, P> {
    pub(crate) fn new(test: P) -> Meeting<T, P>
        ensures { result.test ≡ test }
    {
        Meeting {
            test,
            items: PhantomData,
        }
    }
}

impl<T: Value, P: Test<T>> Collector for Meeting<T, P> {
    type Item = T;

    type Acc = bool;

    type Out = bool;

    ghost ready = { λ c. P.ready c.test };

    ghost Content = { Bool };

    ghost content = { λ _ met. met };

    ghost empty = { λ _. false };

    ghost add = { λ c. meets_add (P.holds c.test) };

    ghost merge = { λ _ left right. left || right };

    ghost gives = { λ c l met. met ≡ any_meets (P.holds c.test) l };

    ghost laws = { λ c. meets_laws (P.holds c.test) T.is_value };

    fn supply(&self) -> Result<bool, NoMemory> {
        Ok(false)
    }

    fn accumulate(&self, acc: &mut bool, x: &T) -> Result<(), NoMemory> {
        if !*acc {
            *acc = self.test.holds(x);
        }
        Ok(())
    }

    fn combine(&self, left: &mut bool, right: bool) -> Result<(), NoMemory> {
        *left = *left || right;
        Ok(())
    }

    fn finish(&self, acc: bool) -> Result<bool, NoMemory> {
        Ok(acc)
    }

    fn is_light(&self, _acc: &bool) -> bool {
        true
    }
}
