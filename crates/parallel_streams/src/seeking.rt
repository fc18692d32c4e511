//! A container that is filled until an item counts, as a sink.
ghost use Rattle.std.specs.Prelude.{◌≡◌, Bool, Some, ⊤};
ghost use Rattle.std.proofs.Common.{refl};
ghost use Rattle.collectors.specs.Laws.{IsContainerOf};
ghost use Rattle.leaf_reading.specs.KeeperLaws.{Offers, offers-none};
ghost use Rattle.parallel_streams.specs.Searches.{IsFound, seeks-both, seeks-ready};

use barriers::Demand;
use collectors::{Collector, are_values};
use spliterator::{NoMemory, Value};
use stages::Sink;

/// A container that takes in what comes, up to the first item that counts, where one is enough for the demand.
#[derive(Drop)]
pub struct Seeking<'a, D, C, A> {
    pub demand: &'a D,
    pub collector: &'a C,
    pub acc: A,
    pub is_hit: bool,
}

impl<T: Value + Drop, D: Demand<T>, C: Collector<Item = T>> Sink<T> for Seeking<'_, D, C, C::Acc> {
    ghost ready = { λ s. D.ready s.demand.now × C.ready s.collector.now × (D.needed s.demand.now ≡ Some 1) };

    // Whatever was found of a list, the same is found of the list with these items behind it.
    ghost takes = { λ s xs t. let it = s.collector.now in
        let made = IsContainerOf T.is_value (C.content it) (C.empty it) (C.add it) in
        (t.demand ≡ s.demand) × (t.collector ≡ s.collector)
        × Offers (λ l (found : C.Acc × Bool). IsFound (D.counted s.demand.now) made l found.0 found.1) (s.acc, s.is_hit) xs (t.acc, t.is_hit) };

    ghost spoils = { λ _ _. ⊤ };

    ghost takes_none = { λ s. let it = s.collector.now in
        let made = IsContainerOf T.is_value (C.content it) (C.empty it) (C.add it) in
        (refl, refl, offers-none (λ l (found : C.Acc × Bool). IsFound (D.counted s.demand.now) made l found.0 found.1) (s.acc, s.is_hit)) };

    ghost spoils_nothing = { λ s. tt };

    ghost takes_both = { λ s t u xs ys p q.
        seeks-both (λ d c l (found : C.Acc × Bool). let it = c.now in
        IsFound (D.counted d.now) (IsContainerOf T.is_value (C.content it) (C.empty it) (C.add it)) l found.0 found.1)
        (s.acc, s.is_hit) (t.acc, t.is_hit) (u.acc, u.is_hit) xs ys p q };

    ghost spoils_later = { λ s t u xs p q. tt };

    ghost stays_ready = { λ s t xs p r. seeks-ready (λ d c. D.ready d.now × C.ready c.now × (D.needed d.now ≡ Some 1)) p.0 p.1 r };

    fn take(&mut self, x: T) -> Result<(), NoMemory> {
        if self.is_hit {
            return Ok(());
        }
        let _value = x.is_value();
        self.is_hit = self.demand.counts(&x);
        self.collector.accumulate_owned(&mut self.acc, x)
    }

    fn take_lent(&mut self, items: &[T]) -> Result<bool, NoMemory> {
        if self.is_hit {
            return Ok(true);
        }
        let (taken, counting) = self.demand.front(items, 1);
        let front = &items[..taken];
        are_values(front);
        self.is_hit = 0 < counting;
        self.collector.accumulate_all(&mut self.acc, front)?;
        Ok(true)
    }

    fn is_full(&self) -> bool {
        self.is_hit
    }
}
