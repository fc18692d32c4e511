//! What is kept of a leaf, as a sink.
ghost use Rattle.std.specs.Prelude.{ℕ, Some, ◌≡◌, ◌<◌, ◌+◌, ◌^◌, ◌≤◌, ◌⊎◌, ◌↔◌, IsTrue, cond, true, All, map, fold, count_by, take, length, OnOk, ⊤};
ghost use Rattle.std.proofs.Common.{refl};
ghost use Rattle.barriers.specs.Needs.{need_of, Reaches};
ghost use Rattle.leaf_reading.specs.Fronts.{IsWithin, KeepsBy};
ghost use Rattle.leaf_reading.specs.Keepers.{IsNeed};
ghost use Rattle.leaf_reading.specs.KeeperLaws.{Offers, offers-none, takes-both, ready-kept};

use crate::Portion;
use barriers::{Demand, Need};
use collectors::{Collector, are_values};
use spliterator::{NoMemory, Value};
use stages::Sink;

/// Whether so many counting items are enough.
pub fn is_enough(need: Need, count: u64) -> bool
    ensures reached { IsTrue result ↔ Reaches (need_of need) count }
{
    match need {
        Need::Never => false,
        Need::Reach(needed) => needed <= count,
    }
}

/// Keeps one item.
fn keep<T: Value + Drop, D: Demand<T>, C: Collector<Item = T>>(
    demand: &D,
    collector: &C,
    portion: &mut Portion<C::Acc>,
    item: T,
) -> Result<(), NoMemory>
    requires demand { D.ready demand.now }
    requires collector { C.ready collector.now }
    requires room { D.counted demand.now (T.content item) ≡ true → portion.old.count < 2 ^ 63 }
    ensures value { T.is_value (T.content item) }
    ensures content { OnOk result (C.content collector.now portion.new.kept ≡ C.add collector.now (C.content collector.now portion.old.kept) (T.content item)) }
    ensures count { portion.new.count ≡ portion.old.count + cond (D.counted demand.now (T.content item)) 1 0 }
{
    let _value = item.is_value();
    if demand.counts(&item) {
        portion.count += 1;
    }
    collector.accumulate_owned(&mut portion.kept, item)
}

/// How many items of a block are taken behind so many counting ones, which are not enough, and how many of these count.
fn front_of<T: Value, D: Demand<T>>(demand: &D, need: Need, count: u64, items: &[T]) -> (usize, u64)
    requires demand { D.ready demand.now }
    requires need { IsNeed (D.needed demand.now) (D.counted demand.now) (need_of need) }
    requires under { Reaches (need_of need) count → ⊥ }
    ensures within { result.0 ≤ length items.now }
    ensures counting { result.1 ≡ count_by (D.counted demand.now) (map T.content (take result.0 items.now)) }
    ensures room { count + result.1 < 2 ^ 64 }
    ensures stays { IsWithin (need_of need) count → IsWithin (need_of need) (count + result.1) }
    ensures last { need_of need ≡ Some 1 → (n : ℕ) → n < result.0
        → count_by (D.counted demand.now) (map T.content (take n items.now)) ≡ 0 }
    ensures ends { (result.0 ≡ length items.now) ⊎ Reaches (need_of need) (count + result.1) }
{
    match need {
        Need::Never => (items.len(), 0),
        Need::Reach(needed) => demand.front(items, needed - count),
    }
}

/// Keeps a block of items.
fn keep_each<T: Value + Drop, C: Collector<Item = T>>(
    collector: &C,
    portion: &mut Portion<C::Acc>,
    items: &mut Vec<T>,
    counting: u64,
) -> Result<(), NoMemory>
    requires collector { C.ready collector.now }
    requires room { portion.old.count + counting < 2 ^ 64 }
    ensures values { All T.is_value (map T.content items.old.items) }
    ensures content { OnOk result (C.content collector.now portion.new.kept ≡ fold (C.add collector.now) (C.content collector.now portion.old.kept) (map T.content items.old.items)) }
    ensures count { portion.new.count ≡ portion.old.count + counting }
{
    are_values(items.as_slice());
    portion.count += counting;
    collector.accumulate_all_owned(&mut portion.kept, items)
}

/// Keeps what a block of items that is lent comes to.
fn keep_lent<T: Value + Drop, C: Collector<Item = T>>(
    collector: &C,
    portion: &mut Portion<C::Acc>,
    items: &[T],
    counting: u64,
) -> Result<(), NoMemory>
    requires collector { C.ready collector.now }
    requires room { portion.old.count + counting < 2 ^ 64 }
    ensures values { All T.is_value (map T.content items.now) }
    ensures content { OnOk result (C.content collector.now portion.new.kept ≡ fold (C.add collector.now) (C.content collector.now portion.old.kept) (map T.content items.now)) }
    ensures count { portion.new.count ≡ portion.old.count + counting }
{
    are_values(items);
    portion.count += counting;
    collector.accumulate_all(&mut portion.kept, items)
}

/// A container with its demand, which takes items until they are enough.
#[derive(Drop)]
pub(crate) struct Keeper<'a, D, C, A> {
    pub(crate) demand: &'a D,
    pub(crate) need: Need,
    pub(crate) collector: &'a C,
    pub(crate) portion: Portion<A>,
}

impl<T: Value + Drop, D: Demand<T>, C: Collector<Item = T>> Sink<T> for Keeper<'_, D, C, C::Acc> {
    ghost ready = { λ k. (D.ready k.demand.now × C.ready k.collector.now) × IsNeed (D.needed k.demand.now) (D.counted k.demand.now) (need_of k.need) };

    ghost takes = { λ k xs m. (m.demand ≡ k.demand) × (m.need ≡ k.need) × (m.collector ≡ k.collector)
        × Offers (KeepsBy D.needed D.counted T.is_value C.empty C.add C.content k.demand.now k.collector.now) k.portion xs m.portion };

    ghost spoils = { λ _ _. ⊤ };

    ghost takes_none = { λ k. let keeps = KeepsBy D.needed D.counted T.is_value C.empty C.add C.content k.demand.now k.collector.now in
        (refl, refl, refl, offers-none keeps k.portion) };

    ghost spoils_nothing = { λ k. tt };

    ghost takes_both = { λ k m n xs ys p q.
        takes-both (λ d c. KeepsBy D.needed D.counted T.is_value C.empty C.add C.content d.now c.now) k.portion m.portion n.portion xs ys p q };

    ghost spoils_later = { λ a b c xs p q. tt };

    ghost stays_ready = { λ k m xs p r. ready-kept (λ d c. D.ready d.now × C.ready c.now) (λ d n. IsNeed (D.needed d.now) (D.counted d.now) (need_of n)) k.demand m.demand k.need m.need k.collector m.collector p.0 p.1 p.2 r };

    fn take(&mut self, x: T) -> Result<(), NoMemory> {
        if is_enough(self.need, self.portion.count) {
            return Ok(());
        }
        keep(self.demand, self.collector, &mut self.portion, x)?;
        Ok(())
    }

    fn take_all(&mut self, items: &mut Vec<T>) -> Result<(), NoMemory> {
        if is_enough(self.need, self.portion.count) {
            return Ok(());
        }
        let block = items.as_slice();
        let (taken, counting) = front_of(self.demand, self.need, self.portion.count, block);
        items.truncate(taken);
        keep_each(self.collector, &mut self.portion, items, counting)?;
        Ok(())
    }

    fn take_lent(&mut self, items: &[T]) -> Result<bool, NoMemory> {
        if is_enough(self.need, self.portion.count) {
            return Ok(true);
        }
        let (taken, counting) = front_of(self.demand, self.need, self.portion.count, items);
        let (front, _) = items.split_at(taken);
        keep_lent(self.collector, &mut self.portion, front, counting)?;
        Ok(true)
    }

    fn is_full(&self) -> bool {
        is_enough(self.need, self.portion.count)
    }
}
