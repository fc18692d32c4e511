//! A function of a collector's result.
ghost use Rattle.std.specs.Prelude.{◌≡◌, IfOk, ⊤};

use collectors::Collector;
use spliterator::{NoMemory, Value};
use stages::Mapping;

/// A function of a collector's result. Each `Mapping` of a value is one; a result that is no value, as a map is none, needs one of its own.
pub trait Finisher<A> {
    type Out: Drop;

    // The finishers that may be called. By default all.
    ghost ready: { Self → Type 0 } = { λ _. ⊤ };

    // The values that it may make of a result.
    ghost gives: { Self → A → Self.Out → Type 0 };

    /// What becomes of the result.
    fn apply(&self, whole: A) -> Result<Self::Out, NoMemory>
        requires { ready self.now }
        ensures given { IfOk result (gives self.now whole) };
}

impl<A: Value + Drop, M: Mapping<A>> Finisher<A> for M
where
    M::Out: Drop,
{
    type Out = M::Out;

    ghost ready = { λ m. M.ready m };

    ghost gives = { λ m whole image. M.Out.content image ≡ M.image m (A.content whole) };

    fn apply(&self, whole: A) -> Result<M::Out, NoMemory> {
        self.image(&whole)
    }
}

/// What a finisher makes of the downstream result. Java's `Collectors.collectingAndThen`:
///
///     let doubled = CollectingAndThen::new(Counting::<i64>::new(), Times(2));
///     let number = collect(&doubled, &[5, 2, 7])?;    // 6
#[derive(Drop)]
pub struct CollectingAndThen<D, F> {
    pub downstream: D,
    pub finisher: F,
}

impl<D, F> CollectingAndThen<D, F> {
    pub fn new(downstream: D, finisher: F) -> CollectingAndThen<D, F>
        ensures downstream { result.downstream ≡ downstream }
        ensures finisher { result.finisher ≡ finisher }
    {
        CollectingAndThen {
            downstream,
            finisher,
        }
    }
}

impl<D: Collector, F: Finisher<D::Out>> Collector for CollectingAndThen<D, F> {
    type Item = D::Item;

    type Acc = D::Acc;

    type Out = F::Out;

    ghost ready = { λ c. D.ready c.downstream × F.ready c.finisher };

    ghost Content = { D.Content };

    ghost content = { λ c. D.content c.downstream };

    ghost empty = { λ c. D.empty c.downstream };

    ghost add = { λ c. D.add c.downstream };

    ghost merge = { λ c. D.merge c.downstream };

    ghost gives = { λ c l r. (whole : D.Out) × D.gives c.downstream l whole × F.gives c.finisher whole r };

    ghost laws = { λ c. D.laws c.downstream };

    fn supply(&self) -> Result<D::Acc, NoMemory> {
        self.downstream.supply()
    }

    fn supply_for(&self, number: u64) -> Result<D::Acc, NoMemory> {
        self.downstream.supply_for(number)
    }

    fn accumulate(&self, acc: &mut D::Acc, x: &D::Item) -> Result<(), NoMemory> {
        self.downstream.accumulate(acc, x)
    }

    fn accumulate_all(&self, acc: &mut D::Acc, items: &[D::Item]) -> Result<(), NoMemory> {
        self.downstream.accumulate_all(acc, items)
    }

    fn accumulate_owned(&self, acc: &mut D::Acc, x: D::Item) -> Result<(), NoMemory>
    where
        D::Item: Drop,
    {
        self.downstream.accumulate_owned(acc, x)
    }

    fn accumulate_all_owned(
        &self,
        acc: &mut D::Acc,
        items: &mut Vec<D::Item>,
    ) -> Result<(), NoMemory>
    where
        D::Item: Drop,
    {
        self.downstream.accumulate_all_owned(acc, items)
    }

    fn combine(&self, left: &mut D::Acc, right: D::Acc) -> Result<(), NoMemory> {
        self.downstream.combine(left, right)
    }

    fn finish(&self, acc: D::Acc) -> Result<F::Out, NoMemory> {
        let whole = self.downstream.finish(acc)?;
        self.finisher.apply(whole)
    }

    fn is_light(&self, acc: &D::Acc) -> bool {
        self.downstream.is_light(acc)
    }

    fn counts_alone(&self) -> bool {
        self.downstream.counts_alone()
    }

    fn keeps_lists(&self) -> bool {
        self.downstream.keeps_lists()
    }
}
