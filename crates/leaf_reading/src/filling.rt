//! A container that is filled, as a sink.
ghost use Rattle.std.specs.Prelude.{◌≡◌, ⊤};
ghost use Rattle.std.proofs.Common.{refl};
ghost use Rattle.collectors.specs.Laws.{IsContainerOf};
ghost use Rattle.leaf_reading.specs.KeeperLaws.{Offers, offers-none, fills-both, fills-ready};

use collectors::{Collector, are_values};
use spliterator::{NoMemory, Value};
use stages::Sink;

/// A container that takes in what comes, behind what is in it.
#[derive(Drop)]
pub struct Filling<'a, C, A> {
    pub collector: &'a C,
    pub acc: A,
}

impl<T: Value + Drop, C: Collector<Item = T>> Sink<T> for Filling<'_, C, C::Acc> {
    ghost ready = { λ f. C.ready f.collector.now };

    // Whatever list it was the container of, it is that of the list with these items behind it.
    ghost takes = { λ f xs g. let it = f.collector.now in
        let made = IsContainerOf T.is_value (C.content it) (C.empty it) (C.add it) in
        (g.collector ≡ f.collector) × Offers made f.acc xs g.acc };

    ghost spoils = { λ _ _. ⊤ };

    ghost takes_none = { λ f. let it = f.collector.now in
        (refl, offers-none (IsContainerOf T.is_value (C.content it) (C.empty it) (C.add it)) f.acc) };

    ghost spoils_nothing = { λ f. tt };

    ghost takes_both = { λ f g h xs ys p q.
        fills-both (λ c. IsContainerOf T.is_value (C.content c.now) (C.empty c.now) (C.add c.now)) f.acc g.acc h.acc xs ys p q };

    ghost spoils_later = { λ f g h xs p q. tt };

    ghost stays_ready = { λ f g xs p r. fills-ready (λ c. C.ready c.now) p.0 r };

    fn take(&mut self, x: T) -> Result<(), NoMemory> {
        let _value = x.is_value();
        self.collector.accumulate_owned(&mut self.acc, x)
    }

    fn take_all(&mut self, items: &mut Vec<T>) -> Result<(), NoMemory> {
        are_values(items.as_slice());
        self.collector.accumulate_all_owned(&mut self.acc, items)
    }

    fn take_lent(&mut self, items: &[T]) -> Result<bool, NoMemory> {
        are_values(items);
        self.collector.accumulate_all(&mut self.acc, items)?;
        Ok(true)
    }

    fn is_full(&self) -> bool {
        false
    }
}
