//! The first item of the best key.
ghost use Rattle.std.specs.Prelude.{◌≡◌, Option, None, option_map};
ghost use Rattle.spliterator.specs.Clones.{ClonesAlike, TestsClonesAlike};
ghost use Rattle.derived_collectors.specs.declared.best.Best.TheVariants.{Least, Greatest};
ghost use Rattle.derived_collectors.specs.FirstBest.{is_better, better-ranks, best_add, best_merge, best_laws, IsFirstBestBy};

use crate::best::Best;
use crate::keyed::{Keyed, item_of, takes_place};
use collectors::Collector;
use spliterator::{NoMemory, SortedValue, Value};
use stages::Mapping;
use std::marker::PhantomData;

/// The item of the least or the greatest key, as a clone: the first where several have it, and none where there are no items. Java's
/// `Collectors.minBy` and `maxBy` with `Comparator.comparing` of the key:
///
///     let words = &["to", "be", "or", "not"];
///     let shortest = collect(&BestByKey::<&str, _>::least(Length), words)?;    // Some("to")
///     let longest = collect(&BestByKey::<&str, _>::greatest(Length), words)?;    // Some("not")
#[derive(Drop)]
pub struct BestByKey<T: Value + Clone, K> {
    pub key: K,
    pub best: Best,
    items: PhantomData<T>,
    ghost clones_alike: { TestsClonesAlike T.same T.is_clone T.content },
}

impl<T: Value + Clone, K> BestByKey<T, K> {
    fn new(key: K, best: Best) -> BestByKey<T, K>
        requires clones { ClonesAlike T.is_clone T.content }
        ensures key { result.key ≡ key }
        ensures best { result.best ≡ best }
    {
        BestByKey {
            key,
            best,
            items: PhantomData,
        }
    }

    /// The first item of the least key. A clone of an item must have its content.
    pub fn least(key: K) -> BestByKey<T, K>
        requires clones { ClonesAlike T.is_clone T.content }
        ensures key { result.key ≡ key }
        ensures best { result.best ≡ Least }
    {
        BestByKey::new(key, Best::Least)
    }

    /// The first item of the greatest key. A clone of an item must have its content.
    pub fn greatest(key: K) -> BestByKey<T, K>
        requires clones { ClonesAlike T.is_clone T.content }
        ensures key { result.key ≡ key }
        ensures best { result.best ≡ Greatest }
    {
        BestByKey::new(key, Best::Greatest)
    }
}

impl<T: Value + Clone, K: Mapping<T>> Collector for BestByKey<T, K>
where
    K::Out: SortedValue + Drop,
{
    type Item = T;

    type Acc = Option<Keyed<T, K::Out>>;

    type Out = Option<T>;

    ghost ready = { λ c. K.ready c.key };

    ghost Content = { Option (T.Content × K.Out.Content) };

    ghost content = { λ _. option_map (λ k. (T.content k.item, K.Out.content k.key)) };

    ghost empty = { λ _. None };

    ghost add = { λ c. best_add (is_better c.best K.Out.order) (K.image c.key) };

    ghost merge = { λ c. best_merge (is_better c.best K.Out.order) (K.image c.key) };

    ghost gives = { λ c l o. IsFirstBestBy (is_better c.best K.Out.order) (K.image c.key) l (option_map T.content o) };

    ghost laws = { λ c. best_laws (is_better c.best K.Out.order) (K.image c.key) (better-ranks c.best K.Out.order K.Out.order_total) T.is_value };

    fn supply(&self) -> Result<Option<Keyed<T, K::Out>>, NoMemory> {
        Ok(None)
    }

    fn accumulate(&self, acc: &mut Option<Keyed<T, K::Out>>, x: &T) -> Result<(), NoMemory> {
        let key = self.key.image(x)?;
        if takes_place(self.best, &key, acc) {
            let item = x.clone()?;
            *acc = Some(Keyed { item, key });
        }
        Ok(())
    }

    fn accumulate_owned(&self, acc: &mut Option<Keyed<T, K::Out>>, x: T) -> Result<(), NoMemory> {
        let key = self.key.image(&x)?;
        if takes_place(self.best, &key, acc) {
            *acc = Some(Keyed { item: x, key });
        }
        Ok(())
    }

    fn combine(
        &self,
        left: &mut Option<Keyed<T, K::Out>>,
        right: Option<Keyed<T, K::Out>>,
    ) -> Result<(), NoMemory> {
        if let Some(later) = right {
            if takes_place(self.best, &later.key, left) {
                *left = Some(later);
            }
        }
        Ok(())
    }

    fn finish(&self, acc: Option<Keyed<T, K::Out>>) -> Result<Option<T>, NoMemory> {
        Ok(item_of(acc))
    }

    fn is_light(&self, _acc: &Option<Keyed<T, K::Out>>) -> bool {
        true
    }
}
