//! Places of items, as a collector.
ghost use Rattle.std.specs.Prelude.{◌≡◌, ◌+◌, ◌++◌, ℕ, List, [], map, take, IfOk, OnOk};
ghost use Rattle.derived_collectors.specs.FirstPlaces.{places, place_add, place_merge};
ghost use Rattle.derived_collectors.specs.PlaceLaws.{place_laws};

use collectors::Collector;
use spliterator::{NoMemory, Value};
use stages::Test;
use std::alloc::Global;
use std::marker::PhantomData;

/// How many items there were, and the places of some of them.
#[derive(Drop)]
pub struct Places {
    pub(crate) items: u64,
    pub(crate) places: Vec<u64>,
}

// The sum of two numbers. It is refused where there is no room for it.
fn later(before: u64, place: u64) -> Result<u64, NoMemory>
    ensures { IfOk result (λ sum. sum ≡ before + place) }
{
    before.checked_add(place).ok_or(NoMemory)
}

// Puts the places of what follows so many items behind those that there are.
fn put_later(places: &mut Vec<u64>, before: u64, following: &[u64]) -> Result<(), NoMemory>
    ensures { OnOk result (places.new.items ≡ places.old.items ++ map (λ place. before + place) following.now) }
{
    for place in following {
        places.push(later(before, *place)?)?;
    }
    Ok(())
}

/// The places, from 0 on, of the first so many items that meet a test. Rayon's `positions`:
///
///     let places = collect(&FirstPlaces::new(rt.alloc(), Above(3), 2), &[3, 4, 1, 5, 9])?;    // 1, 3
///
/// More items than a `u64` counts are refused memory.
#[derive(Drop)]
pub struct FirstPlaces<T, P> {
    alloc: Global,
    test: P,
    number: usize,
    items: PhantomData<T>,
}

impl<T: Value, P: Test<T>> FirstPlaces<T, P> {
    pub fn new(alloc: Global, test: P, number: usize) -> FirstPlaces<T, P>
        ensures test { result.test ≡ test }
        ensures number { result.number ≡ number }
    {
        FirstPlaces {
            alloc,
            test,
            number,
            items: PhantomData,
        }
    }
}

impl<T: Value, P: Test<T>> Collector for FirstPlaces<T, P> {
    type Item = T;

    type Acc = Places;

    type Out = Vec<u64>;

    ghost ready = { λ c. P.ready c.test };

    ghost Content = { ℕ × List ℕ };

    ghost content = { λ c acc. (acc.items, take c.number acc.places.items) };

    ghost empty = { λ _. (0, []) };

    ghost add = { λ c. place_add (P.holds c.test) c.number };

    ghost merge = { λ c. place_merge c.number };

    ghost gives = { λ c l out. out.items ≡ take c.number (places (P.holds c.test) l) };

    ghost laws = { λ c. place_laws (P.holds c.test) c.number T.is_value };

    fn supply(&self) -> Result<Places, NoMemory> {
        Ok(Places {
            items: 0,
            places: Vec::new(self.alloc),
        })
    }

    fn accumulate(&self, acc: &mut Places, x: &T) -> Result<(), NoMemory> {
        if acc.places.len() < self.number && self.test.holds(x) {
            acc.places.push(acc.items)?;
        }
        acc.items = later(acc.items, 1)?;
        Ok(())
    }

    fn combine(&self, left: &mut Places, right: Places) -> Result<(), NoMemory> {
        put_later(&mut left.places, left.items, right.places.as_slice())?;
        left.places.truncate(self.number);
        left.items = later(left.items, right.items)?;
        Ok(())
    }

    fn finish(&self, acc: Places) -> Result<Vec<u64>, NoMemory> {
        let mut places = acc.places;
        places.truncate(self.number);
        Ok(places)
    }
}
