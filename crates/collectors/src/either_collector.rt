//! One collector of two types.
ghost use Rattle.either.specs.declared.Either.{Either};
ghost use Rattle.either.specs.Either.{MatchEither};
ghost use Rattle.std.specs.Prelude.{◌≡◌, Option, Some, option_map, List, All, fold, IfOk};
ghost use Rattle.collectors.specs.Either.{either_content, either_empty, either_add, either_merge, either_gives, either_laws};

use crate::Collector;
use either::{Either, Left, Right};
use spliterator::NoMemory;

// The result of a container, or of a new one where there is none.
fn finish_or_new<C: Collector>(collector: &C, acc: Option<C::Acc>) -> Result<C::Out, NoMemory>
    requires { C.ready collector.now }
    ensures { let c = collector.now in
        (l : List C.Item.Content) → All C.Item.is_value l
        → option_map (C.content c) acc ≡ Some (fold (C.add c) (C.empty c) l) → IfOk result (C.gives c l) }
{
    match acc {
        Some(acc) => collector.finish(acc),
        None => collector.finish(collector.supply()?),
    }
}

/// It does what its side does, and its containers and results are of that side: a collector that is chosen at run time.
///
/// A container of the other side, which no such collector makes, takes nothing in and is finished as one of no items.
impl<A: Collector, B: Collector<Item = A::Item>> Collector for Either<A, B> {
    type Item = A::Item;

    type Acc = Either<A::Acc, B::Acc>;

    type Out = Either<A::Out, B::Out>;

    ghost ready = { λ c. MatchEither c A.ready B.ready };

    ghost Content = { Option (Either A.Content B.Content) };

    ghost content = { either_content A.content B.content };

    ghost empty = { either_empty A.empty B.empty };

    ghost add = { either_add A.add B.add };

    ghost merge = { either_merge A.merge B.merge };

    ghost gives = { either_gives A.gives B.gives };

    ghost laws = { either_laws A.Item.is_value A.empty B.empty A.add B.add A.merge B.merge A.laws B.laws };

    fn supply(&self) -> Result<Either<A::Acc, B::Acc>, NoMemory> {
        match self {
            Left(side) => Ok(Left(side.supply()?)),
            Right(side) => Ok(Right(side.supply()?)),
        }
    }

    fn supply_for(&self, number: u64) -> Result<Either<A::Acc, B::Acc>, NoMemory> {
        match self {
            Left(side) => Ok(Left(side.supply_for(number)?)),
            Right(side) => Ok(Right(side.supply_for(number)?)),
        }
    }

    fn accumulate(&self, acc: &mut Either<A::Acc, B::Acc>, x: &A::Item) -> Result<(), NoMemory> {
        match (self, acc) {
            (Left(side), Left(acc)) => side.accumulate(acc, x),
            (Right(side), Right(acc)) => side.accumulate(acc, x),
            _ => Ok(()),
        }
    }

    fn accumulate_all(
        &self,
        acc: &mut Either<A::Acc, B::Acc>,
        items: &[A::Item],
    ) -> Result<(), NoMemory> {
        match (self, acc) {
            (Left(side), Left(acc)) => side.accumulate_all(acc, items),
            (Right(side), Right(acc)) => side.accumulate_all(acc, items),
            _ => Ok(()),
        }
    }

    fn accumulate_owned(&self, acc: &mut Either<A::Acc, B::Acc>, x: A::Item) -> Result<(), NoMemory>
    where
        A::Item: Drop,
    {
        match (self, acc) {
            (Left(side), Left(acc)) => side.accumulate_owned(acc, x),
            (Right(side), Right(acc)) => side.accumulate_owned(acc, x),
            _ => Ok(()),
        }
    }

    fn accumulate_all_owned(
        &self,
        acc: &mut Either<A::Acc, B::Acc>,
        items: &mut Vec<A::Item>,
    ) -> Result<(), NoMemory>
    where
        A::Item: Drop,
    {
        match (self, acc) {
            (Left(side), Left(acc)) => side.accumulate_all_owned(acc, items),
            (Right(side), Right(acc)) => side.accumulate_all_owned(acc, items),
            _ => Ok(()),
        }
    }

    fn combine(
        &self,
        left: &mut Either<A::Acc, B::Acc>,
        right: Either<A::Acc, B::Acc>,
    ) -> Result<(), NoMemory> {
        match (self, left, right) {
            (Left(side), Left(left), Left(right)) => side.combine(left, right),
            (Right(side), Right(left), Right(right)) => side.combine(left, right),
            _ => Ok(()),
        }
    }

    fn finish(&self, acc: Either<A::Acc, B::Acc>) -> Result<Either<A::Out, B::Out>, NoMemory> {
        match self {
            Left(side) => Ok(Left(finish_or_new(side, acc.left())?)),
            Right(side) => Ok(Right(finish_or_new(side, acc.right())?)),
        }
    }

    fn is_light(&self, acc: &Either<A::Acc, B::Acc>) -> bool {
        match (self, acc) {
            (Left(side), Left(acc)) => side.is_light(acc),
            (Right(side), Right(acc)) => side.is_light(acc),
            _ => true,
        }
    }

    fn counts_alone(&self) -> bool {
        match self {
            Left(side) => side.counts_alone(),
            Right(side) => side.counts_alone(),
        }
    }
}
