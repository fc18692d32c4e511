//! A stop that any thread may set.
ghost use Rattle.std.specs.Prelude.{◌≡◌};

use crate::Halt;
use std::sync::{OnceLock, OnceToken};

/// A stop that any thread may set, once and for good. To set it and to ask for it takes no memory and waits for nobody.
///
/// That it was set is shown by a token, which nothing but the lock gives, and only once it is set.
///
/// ```text
/// let stop = Stop::new();    // another thread calls stop.set()
/// let until = Until::new(&stop);
/// let engine = Engine::new(&rt, rt.alloc(), &Run::new(4).with_gate(&until))?;
/// ```
#[derive(Drop)]
pub struct Stop {
    pub lock: OnceLock<()>,
}

impl Stop {
    /// One that isn't set.
    pub fn new() -> Stop {
        Stop {
            lock: OnceLock::new(),
        }
    }

    /// Sets it.
    pub fn set(&self) {
        let _first = self.lock.try_set(());
    }
}

impl<'a> Halt for &'a Stop {
    type Reason = OnceToken<'a, ()>;

    // a token of this very stop
    ghost justified = { λ s token. token.of ≡ s.now.lock.id };

    fn reason(&self) -> Option<OnceToken<'a, ()>> {
        let stop: &'a Stop = *self;
        stop.lock.witness()
    }
}
