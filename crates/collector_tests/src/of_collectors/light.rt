//! Which containers count as light: a number always, a list or a map up to 64 entries, and a nested one by what it holds.
use super::functions::Pair;
use collectors::{
    Collector, Counting, GroupingBy, PartitioningBy, Reducing, SummingLong, Teeing, ToList, ToMap,
    ToMapStrict,
};
use spliterator::NoMemory;
use stages::{FirstOf, WrapAdd};
use std::alloc::Global;
use std::process::Abort;
use stream_functions::{Above, Itself, Modulo};

/// Whether a container of the first `count` numbers is light.
fn is_light<C: Collector<Item = i64>>(collector: &C, count: i64) -> Result<bool, NoMemory>
    requires { C.ready collector.now }
{
    let mut acc = collector.supply()?;
    for number in 0..count {
        collector.accumulate(&mut acc, &number)?;
    }
    Ok(collector.is_light(&acc))
}

/// How many numbers a container has, and whether it is light: a number always is.
static ALWAYS: [(i64, bool); 1] = [(100, true)];

/// Containers of up to 64 numbers alone are light.
const UP_TO_64: [(i64, bool); 3] = [(0, true), (64, true), (65, false)];

/// By which number the keys are remainders, and containers of so many numbers: each has a key of its own, or there are few keys, however many
/// items.
static BY_KEYS: [(i64, &[(i64, bool)]); 2] = [(1_000_000, &UP_TO_64), (64, &[(1000, true)])];

/// Checks whether the containers of the first numbers, so many, are light.
fn check<C: Collector<Item = i64> + Drop>(
    rt: &impl Abort,
    collector: C,
    rows: &[(i64, bool)],
) -> Result<(), NoMemory>
    requires { C.ready collector }
{
    for (count, light) in rows {
        assert!(rt; is_light(&collector, *count)? == *light, "{count} numbers");
    }
    Ok(())
}

/// Checks groups by a remainder.
fn check_groups<D: Collector<Item = i64> + Drop>(
    rt: &impl Abort,
    alloc: Global,
    key: Modulo,
    downstream: D,
    rows: &[(i64, bool)],
) -> Result<(), NoMemory>
    requires { D.ready downstream }
{
    check(rt, GroupingBy::new(alloc, key, downstream), rows)
}

/// Checks two at once.
fn check_pair<A: Collector<Item = i64> + Drop, B: Collector<Item = i64> + Drop>(
    rt: &impl Abort,
    first: A,
    second: B,
    rows: &[(i64, bool)],
) -> Result<(), NoMemory>
    requires first { A.ready first }
    requires second { B.ready second }
{
    check(rt, Teeing::new(first, second, Pair), rows)
}

#[test]
fn numbers_are_light_and_lists_and_maps_up_to_64_entries(rt: HostRuntime) -> Result<(), NoMemory> {
    let alloc = rt.alloc();
    let sum = Reducing::<i64, _>::new(WrapAdd::new());
    let first = ToMap::new(alloc, Itself, Itself, FirstOf::<i64>::new());
    let strict = ToMapStrict::<i64, _, _>::new(alloc, Itself, Itself);
    check(&rt, Counting::<i64>::new(), &ALWAYS)
        .and(check(&rt, SummingLong::new(Itself), &ALWAYS))
        .and(check(&rt, sum, &ALWAYS))
        .and(check(&rt, ToList::<i64>::new(alloc), &UP_TO_64))
        .and(check(&rt, first, &UP_TO_64))
        .and(check(&rt, strict, &UP_TO_64))
}

#[test]
fn groups_are_light_up_to_64_and_where_all_inner_ones_are(rt: HostRuntime) -> Result<(), NoMemory> {
    let alloc = rt.alloc();
    for &(number, rows) in &BY_KEYS {
        assert!(rt; number > 0);
        check_groups(&rt, alloc, Modulo::by(number), Counting::new(), rows)?;
    }
    // one group has all items
    check_groups(&rt, alloc, Modulo::by(1), ToList::new(alloc), &UP_TO_64)
}

#[test]
fn parts_and_pairs_are_light_where_both_are(rt: HostRuntime) -> Result<(), NoMemory> {
    let alloc = rt.alloc();
    // one side has all items: the numbers above -1, or those above 1,000
    for limit in [-1, 1000] {
        let parts = PartitioningBy::new(Above(limit), ToList::<i64>::new(alloc));
        check(&rt, parts, &UP_TO_64)?;
    }
    check_pair(&rt, Counting::new(), ToList::new(alloc), &UP_TO_64).and(check_pair(
        &rt,
        ToList::new(alloc),
        Counting::new(),
        &UP_TO_64,
    ))
}
