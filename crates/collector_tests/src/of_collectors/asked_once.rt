//! How often the functions of a collector are asked.
ghost use Rattle.std.specs.Prelude.{true};

use collectors::{
    Collector, Counting, FilteringTo, GroupingBy, MappingTo, PartitioningBy, SummingLong, ToMap,
    ToMapStrict, fold_items,
};
use derived_collectors::Summarizing;
use spliterator::NoMemory;
use stages::{FirstOf, Mapping, Test};
use std::process::Abort;
use std::sync::atomic::{AtomicU64, Ordering};
use stream_functions::{Composed, Modulo};

/// Each number as it is. It counts how often it was asked.
#[derive(Drop)]
struct Itself<'a> {
    asked: &'a AtomicU64,
}

impl Mapping<i64> for Itself<'_> {
    type Out = i64;

    ghost image = { λ _ x. x };

    ghost images_are_values = { λ f x h. h };

    fn image(&self, x: &i64) -> Result<i64, NoMemory> {
        self.asked.fetch_add(1, Ordering::SeqCst);
        Ok(*x)
    }
}

/// All numbers. It counts how often it was asked.
#[derive(Drop)]
struct All<'a> {
    asked: &'a AtomicU64,
}

impl Test<i64> for All<'_> {
    ghost holds = { λ _ _. true };

    fn holds(&self, _x: &i64) -> bool {
        self.asked.fetch_add(1, Ordering::SeqCst);
        true
    }
}

/// Collects ten numbers: some one at a time, some as a block, and some into a container that is combined.
fn collect_ten<C: Collector<Item = i64>>(collector: &C) -> Result<(), NoMemory>
    requires { C.ready collector.now }
{
    let mut acc = fold_items(collector, &[0, 1, 2, 3])?;
    collector.accumulate_all(&mut acc, &[4, 5, 6])?;
    let right = fold_items(collector, &[7, 8, 9])?;
    collector.combine(&mut acc, right)?;
    let _result = collector.finish(acc)?;
    Ok(())
}

/// Checks how often functions are asked while ten numbers are collected.
fn check<C: Collector<Item = i64> + Drop>(
    rt: &impl Abort,
    asked: &AtomicU64,
    collector: C,
    times: u64,
) -> Result<(), NoMemory>
    requires { C.ready collector }
{
    asked.store(0, Ordering::SeqCst);
    collect_ten(&collector)?;
    let found = asked.load(Ordering::SeqCst);
    assert!(rt; found == times, "{found}");
    Ok(())
}

#[test]
fn functions_are_asked_once_an_item(rt: HostRuntime) -> Result<(), NoMemory> {
    let alloc = rt.alloc();
    let number = AtomicU64::new(0);
    let asked = &number;
    let images = MappingTo::new(Itself { asked }, Counting::<i64>::new());
    let passing = FilteringTo::new(All { asked }, Counting::<i64>::new());
    let parts = PartitioningBy::new(All { asked }, Counting::<i64>::new());
    let groups = GroupingBy::new(alloc, Itself { asked }, Counting::<i64>::new());
    check(&rt, asked, SummingLong::new(Itself { asked }), 10)
        .and(check(&rt, asked, Summarizing::new(Itself { asked }), 10))
        .and(check(&rt, asked, images, 10))
        .and(check(&rt, asked, passing, 10))
        .and(check(&rt, asked, parts, 10))
        .and(check(&rt, asked, groups, 10))
}

// Of each item the key and the value.
#[test]
fn functions_of_maps_are_asked_once_an_item(rt: HostRuntime) -> Result<(), NoMemory> {
    let alloc = rt.alloc();
    let number = AtomicU64::new(0);
    let asked = &number;
    let (key, value) = (Itself { asked }, Itself { asked });
    let map = ToMap::new(alloc, key, value, FirstOf::<i64>::new());
    let strict = ToMapStrict::<i64, _, _>::new(alloc, Itself { asked }, Itself { asked });
    check(&rt, asked, map, 20).and(check(&rt, asked, strict, 20))
}

// All keys are 0. The items 0 and 1, and 7 and 8 in the container that is combined, are asked for key and value. Behind a repeat none is.
#[test]
fn functions_of_a_strict_map_are_not_asked_behind_a_repeat(
    rt: HostRuntime,
) -> Result<(), NoMemory> {
    let number = AtomicU64::new(0);
    let asked = &number;
    let key = Composed(Itself { asked }, Modulo::by(1));
    let strict = ToMapStrict::<i64, _, _>::new(rt.alloc(), key, Itself { asked });
    check(&rt, asked, strict, 8)
}
