//! The first of sorted pairs.
ghost use Rattle.std.specs.Prelude.{◌≡◌, ◌<◌, IfOk, MatchOption, OnOk, List, [], fold, length, map, true};
ghost use Rattle.std.specs.Cmp.{IsTotalOrder};
ghost use Rattle.collectors.specs.Grouping.{contents};
ghost use Rattle.terminals.specs.Sorted.{IsSortedList, by_key};
ghost use Rattle.terminals.specs.Insertion.{sorted_of, first_sorted, add_first, merge_first};
ghost use Rattle.terminals.specs.FirstSorted.{add_keyed, key_below};
ghost use Rattle.terminals.specs.Bounds.{IsBehind, IsBounded};

use crate::ordering::sort_pairs_here;
use derived_collectors::Best;
use spliterator::{NoMemory, SortedValue, Value};
use stages::Mapping;
use std::alloc::{AllocError, Global};

/// How many pairs there may be beside twice as many as are wanted.
const ROOM: usize = 64;

// Promises that pairs that are sorted by their first parts are what their contents make, one after another.
fn promise_sorted<J: SortedValue, T: Value>(_sorted: &Vec<(J, T)>)
    ensures { let seen = contents J.content T.content in
        (list : List (J × T)) → (IsTotalOrder J.cmp → IsSortedList (by_key (λ p. p.0) J.cmp) list _sorted.now.items)
        → seen _sorted.now.items ≡ sorted_of (key_below J.order) (seen list) }
{}

/// Pairs, of which so many of the first ones are known to be no greater than the last of these.
#[derive(Drop)]
pub struct FirstPairs<J: SortedValue, T: Value> {
    pub pairs: Vec<(J, T)>,
    bounded: usize,
    ghost bound: { IsBounded (key_below J.order) bounded (contents J.content T.content pairs.items) },
}

impl<J: SortedValue + Drop, T: Value + Drop> FirstPairs<J, T> {
    /// No pairs.
    pub fn new(alloc: Global) -> FirstPairs<J, T>
        ensures { result.pairs.items ≡ [] }
    {
        FirstPairs {
            pairs: Vec::new(alloc),
            bounded: 0,
        }
    }

    /// Whether an item of this key is known to stand behind so many first ones.
    fn stands_behind(&self, number: usize, key: &J) -> bool
        ensures { let seen = contents J.content T.content self.now.pairs.items in
            result ≡ true → (c : T.Content) → IsBehind (key_below J.order) number (J.content key.now, c) seen }
    {
        let Some(last) = number.checked_sub(1) else {
            return true;
        };
        match self.pairs.get(last) {
            Some((bound, _)) if self.bounded == number => !Best::Least.is_better(key, bound),
            _ => false,
        }
    }

    /// The key of an item, or none where the item is known to stand behind so many first ones, so that it changes nothing of them.
    pub fn key_inside<K: Mapping<T, Out = J>>(
        &self,
        number: usize,
        key: &K,
        item: &T,
    ) -> Result<Option<J>, NoMemory>
        requires { K.ready key.now }
        ensures { let seen = contents J.content T.content self.now.pairs.items in
            let first = first_sorted (key_below J.order) number seen in
            let put = add_keyed J.order (K.image key.now) number in
            let c = T.content item.now in
            IfOk result (λ found. MatchOption found
            (put first c ≡ first)
            (λ k. J.content k ≡ K.image key.now c)) }
    {
        let image = key.image(item)?;
        if self.stands_behind(number, &image) {
            return Ok(None);
        }
        Ok(Some(image))
    }

    /// The first item of a block that isn't known to stand behind so many first ones, with its key, and what follows it. Those in front of it,
    /// or all where there is none, change nothing of the first ones.
    pub fn first_inside<'a, K: Mapping<T, Out = J>>(
        &self,
        number: usize,
        key: &K,
        items: &'a [T],
    ) -> Result<Option<(J, &'a T, &'a [T])>, NoMemory>
        requires { K.ready key.now }
        ensures { let seen = contents J.content T.content self.now.pairs.items in
            let first = first_sorted (key_below J.order) number seen in
            let put = add_keyed J.order (K.image key.now) number in
            let all = fold put first (map T.content items.now) in
            IfOk result (λ found. MatchOption found
            (all ≡ first)
            (λ f. (J.content f.0 ≡ K.image key.now (T.content f.1.now))
            × (length f.2.now < length items.now)
            × (all ≡ fold put (put first (T.content f.1.now)) (map T.content f.2.now)))) }
    {
        let mut left = items;
        while let Some((item, behind)) = left.split_first() {
            if let Some(image) = self.key_inside(number, key, item)? {
                return Ok(Some((image, item, behind)));
            }
            left = behind;
        }
        Ok(None)
    }

    /// Sorts the pairs by their first parts, and keeps the first ones, which stay the first ones.
    pub fn keep_first(&mut self, number: usize) -> Result<(), AllocError>
        ensures first { let seen = contents J.content T.content in
            let first = first_sorted (key_below J.order) number in
            OnOk result (seen self.new.pairs.items ≡ first (seen self.old.pairs.items)) }
        ensures same { let seen = contents J.content T.content in
            let first = first_sorted (key_below J.order) number in
            OnOk result (first (seen self.new.pairs.items) ≡ first (seen self.old.pairs.items)) }
    {
        self.bounded = 0;
        sort_pairs_here(&mut self.pairs)?;
        promise_sorted(&self.pairs);
        self.pairs.truncate(number);
        self.bounded = self.pairs.len();
        Ok(())
    }

    /// Keeps the first pairs where there are many others. The first ones stay the same.
    fn shrink(&mut self, number: usize) -> Result<(), AllocError>
        ensures { let seen = contents J.content T.content in
            let first = first_sorted (key_below J.order) number in
            OnOk result (first (seen self.new.pairs.items) ≡ first (seen self.old.pairs.items)) }
    {
        if self.pairs.len() < number.saturating_mul(2).saturating_add(ROOM) {
            return Ok(());
        }
        self.keep_first(number)
    }

    /// Takes a pair in.
    pub fn put(&mut self, number: usize, pair: (J, T)) -> Result<(), AllocError>
        ensures { let seen = contents J.content T.content in
            let first = first_sorted (key_below J.order) number in
            let added = add_first (key_below J.order) number (first (seen self.old.pairs.items)) in
            OnOk result (first (seen self.new.pairs.items) ≡ added (J.content pair.0, T.content pair.1)) }
    {
        self.pairs.push(pair)?;
        self.shrink(number)
    }

    /// Takes other pairs in, behind those that are there.
    pub fn append(&mut self, number: usize, mut others: Vec<(J, T)>) -> Result<(), AllocError>
        ensures { let seen = contents J.content T.content in
            let first = first_sorted (key_below J.order) number in
            let merged = merge_first (key_below J.order) number (first (seen self.old.pairs.items)) in
            OnOk result (first (seen self.new.pairs.items) ≡ merged (first (seen others.items))) }
    {
        self.pairs.append(&mut others)?;
        self.shrink(number)
    }
}
