//! Listing.
ghost use Rattle.std.specs.Prelude.{◌≡◌, List, [], ◌++◌, map};
ghost use Rattle.spliterator.specs.Clones.{ClonesAlike, TestsClonesAlike};
ghost use Rattle.collectors.specs.NestedLaws.{push, list_laws};

use crate::collector::LIGHT_ENTRIES;
use crate::{Collector, Pieces};
use spliterator::{NoMemory, Value};
use std::alloc::Global;
use std::marker::PhantomData;

/// The items, in their order. It keeps clones of them. Java's `Collectors.toList`.
#[derive(Drop)]
pub struct ToList<T: Value + Clone> {
    alloc: Global,
    items: PhantomData<T>,
    ghost clones_alike: { TestsClonesAlike T.same T.is_clone T.content },
}

impl<T: Value + Clone> ToList<T> {
    pub fn new(alloc: Global) -> ToList<T>
        requires { ClonesAlike T.is_clone T.content }
    {
        ToList {
            alloc,
            items: PhantomData,
        }
    }
}

impl<T: Value + Clone> Collector for ToList<T> {
    type Item = T;

    type Acc = Pieces<T>;

    type Out = Vec<T>;

    ghost Content = { List T.Content };

    ghost content = { λ _ v. map T.content v };

    ghost empty = { λ _. [] };

    ghost add = { λ _. push };

    ghost merge = { λ _ l r. l ++ r };

    ghost gives = { λ _ l v. map T.content v.items ≡ l };

    ghost laws = { λ _. list_laws T.is_value };

    fn supply(&self) -> Result<Pieces<T>, NoMemory> {
        Ok(Pieces::new(self.alloc))
    }

    fn supply_for(&self, number: u64) -> Result<Pieces<T>, NoMemory> {
        Ok(Pieces::with_room(self.alloc, number as usize))
    }

    fn accumulate(&self, acc: &mut Pieces<T>, x: &T) -> Result<(), NoMemory> {
        acc.push(x.clone()?)?;
        Ok(())
    }

    fn accumulate_all(&self, acc: &mut Pieces<T>, items: &[T]) -> Result<(), NoMemory> {
        acc.extend_from_slice(items)?;
        Ok(())
    }

    fn accumulate_owned(&self, acc: &mut Pieces<T>, x: T) -> Result<(), NoMemory> {
        acc.push(x)?;
        Ok(())
    }

    fn accumulate_all_owned(
        &self,
        acc: &mut Pieces<T>,
        items: &mut Vec<T>,
    ) -> Result<(), NoMemory> {
        acc.append(items)?;
        Ok(())
    }

    fn combine(&self, left: &mut Pieces<T>, right: Pieces<T>) -> Result<(), NoMemory> {
        left.join(right)?;
        Ok(())
    }

    fn finish(&self, acc: Pieces<T>) -> Result<Vec<T>, NoMemory> {
        Ok(acc.into_list()?)
    }

    fn is_light(&self, acc: &Pieces<T>) -> bool {
        acc.is_within(LIGHT_ENTRIES)
    }

    fn keeps_lists(&self) -> bool {
        true
    }
}
