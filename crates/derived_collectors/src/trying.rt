//! A collector over items that may have failed.
ghost use Rattle.std.specs.Prelude.{◌≡◌, Result, Ok};
ghost use Rattle.std.specs.Result.{result_map_both};
ghost use Rattle.spliterator.specs.Clones.{ClonesAlike, TestsClonesAlike};
ghost use Rattle.derived_collectors.specs.Tried.{try_add, try_merge, IsTried};
ghost use Rattle.derived_collectors.specs.TriedLaws.{trying_laws};

use collectors::Collector;
use spliterator::{NoMemory, Value};
use std::marker::PhantomData;

/// The downstream result on the values where each item is one, else the error of the first item, in encounter order, that has failed.
///
///     let sum = Trying::<_, ParseError>::new(SummingLong::new(Itself));
///     let result = collect(&sum, &[Ok(5), Ok(2)])?;                 // Ok(7)
///     let result = collect(&sum, &[Ok(5), Err(early), Err(late)])?; // Err(early)
///
/// Behind a failed item nothing is asked of the downstream collector.
#[derive(Drop)]
pub struct Trying<D, E: Value + Clone> {
    downstream: D,
    errors: PhantomData<E>,
    ghost clones_alike: { TestsClonesAlike E.same E.is_clone E.content },
}

impl<D, E: Value + Clone> Trying<D, E> {
    pub fn new(downstream: D) -> Trying<D, E>
        requires { ClonesAlike E.is_clone E.content }
        ensures { result.downstream ≡ downstream }
    {
        Trying {
            downstream,
            errors: PhantomData,
        }
    }
}

impl<D: Collector, E: Value + Clone + Drop> Collector for Trying<D, E>
where
    D::Item: Drop,
{
    type Item = Result<D::Item, E>;

    type Acc = Result<D::Acc, E>;

    type Out = Result<D::Out, E>;

    ghost ready = { λ c. D.ready c.downstream };

    ghost Content = { Result D.Content E.Content };

    ghost content = { λ c. result_map_both (D.content c.downstream) E.content };

    ghost empty = { λ c. Ok (D.empty c.downstream) };

    ghost add = { λ c. try_add (D.add c.downstream) };

    ghost merge = { λ c. try_merge (D.merge c.downstream) };

    ghost gives = { λ c. IsTried (D.gives c.downstream) E.content };

    ghost laws = { λ c. let laws = trying_laws (D.add c.downstream) D.Item.is_value E.is_value (D.empty c.downstream) in
        laws (D.merge c.downstream) (D.laws c.downstream) };

    fn supply(&self) -> Result<Result<D::Acc, E>, NoMemory> {
        Ok(Ok(self.downstream.supply()?))
    }

    fn supply_for(&self, number: u64) -> Result<Result<D::Acc, E>, NoMemory> {
        Ok(Ok(self.downstream.supply_for(number)?))
    }

    fn accumulate(
        &self,
        acc: &mut Result<D::Acc, E>,
        x: &Result<D::Item, E>,
    ) -> Result<(), NoMemory> {
        match x {
            Ok(value) => match acc {
                Ok(acc) => self.downstream.accumulate(acc, value),
                Err(_) => Ok(()),
            },
            Err(error) => {
                if acc.is_ok() {
                    *acc = Err(error.clone()?);
                }
                Ok(())
            }
        }
    }

    fn accumulate_owned(
        &self,
        acc: &mut Result<D::Acc, E>,
        x: Result<D::Item, E>,
    ) -> Result<(), NoMemory> {
        match x {
            Ok(value) => match acc {
                Ok(acc) => self.downstream.accumulate_owned(acc, value),
                Err(_) => Ok(()),
            },
            Err(error) => {
                if acc.is_ok() {
                    *acc = Err(error);
                }
                Ok(())
            }
        }
    }

    fn accumulate_all_owned(
        &self,
        acc: &mut Result<D::Acc, E>,
        items: &mut Vec<Result<D::Item, E>>,
    ) -> Result<(), NoMemory> {
        for item in items.drain(..) {
            self.accumulate_owned(acc, item)?;
        }
        Ok(())
    }

    fn combine(
        &self,
        left: &mut Result<D::Acc, E>,
        right: Result<D::Acc, E>,
    ) -> Result<(), NoMemory> {
        if left.is_err() {
            return Ok(());
        }
        match right {
            Ok(right) => match left {
                Ok(left) => self.downstream.combine(left, right),
                Err(_) => Ok(()),
            },
            Err(error) => {
                *left = Err(error);
                Ok(())
            }
        }
    }

    fn finish(&self, acc: Result<D::Acc, E>) -> Result<Result<D::Out, E>, NoMemory> {
        match acc {
            Ok(acc) => Ok(Ok(self.downstream.finish(acc)?)),
            Err(error) => Ok(Err(error)),
        }
    }

    fn is_light(&self, acc: &Result<D::Acc, E>) -> bool {
        match acc {
            Ok(acc) => self.downstream.is_light(acc),
            Err(_) => true,
        }
    }
}
