//! The test that holds where another does not.
ghost use Rattle.std.specs.Prelude.{not};

use spliterator::Value;
use stages::Test;

/// The test that holds where another does not.
#[derive(Drop)]
pub struct Contrary<'a, P> {
    pub test: &'a P,
}

impl<T: Value, P: Test<T>> Test<T> for Contrary<'_, P> {
    ghost ready = { λ t. P.ready t.test.now };

    ghost holds = { λ t x. not (P.holds t.test.now x) };

    fn holds(&self, x: &T) -> bool {
        !self.test.holds(x)
    }
}
