//! What a barrier asks of the items behind those that led to a state.
use crate::{Barrier, Demand, Need};
use spliterator::OrderedValue;

/// A barrier's demand of the items behind those that led to a state.
#[derive_where(Clone, Copy)]
pub struct Behind<'a, 'b, T: OrderedValue, B: Barrier<T>> {
    pub barrier: &'a B,
    pub state: &'b B::State,
}

impl<T: OrderedValue, B: Barrier<T>> Demand<T> for Behind<'_, '_, T, B> {
    ghost ready = { λ d. B.Demand.ready d.barrier.now };

    ghost needed = { λ d. B.needed_behind d.barrier.now d.state.now };

    ghost counted = { λ d. B.Demand.counted d.barrier.now };

    fn need(&self) -> Need {
        self.barrier.need_behind(self.state)
    }

    fn counts(&self, x: &T) -> bool {
        self.barrier.counts(x)
    }

    fn front(&self, items: &[T], wanted: u64) -> (usize, u64) {
        self.barrier.front(items, wanted)
    }
}
