//! Keys, values and entries of a map, and the items of a set.
use super::told::check;
use indexmap::{IndexMap, IndexSet};
use sources::{EntriesSplit, KeysSplit, LentSplit};
use spliterator::NoMemory;
use std::alloc::Global;

/// Names in the order in which they came, and their numbers.
fn stock(alloc: Global) -> Result<IndexMap<&'static str, i64>, NoMemory> {
    let mut stock = IndexMap::new(alloc);
    for (name, number) in [("screw", 5), ("nail", 3), ("bolt", 5)] {
        stock.insert(name, number)?;
    }
    Ok(stock)
}

#[test]
fn the_keys_of_a_map(rt: HostRuntime) -> Result<(), NoMemory> {
    let stock = stock(rt.alloc())?;
    let keys = [&"screw", &"nail", &"bolt"];
    check(
        &rt,
        rt.alloc(),
        KeysSplit::of_map(&stock),
        0x4551,
        Some(1),
        &keys,
    )
}

#[test]
fn the_values_of_a_map(rt: HostRuntime) -> Result<(), NoMemory> {
    let stock = stock(rt.alloc())?;
    let values = LentSplit::new(stock.values().as_slice());
    check(&rt, rt.alloc(), values, 0x4550, Some(1), &[&5, &3, &5])
}

#[test]
fn the_entries_of_a_map(rt: HostRuntime) -> Result<(), NoMemory> {
    let stock = stock(rt.alloc())?;
    let entries = [(&"screw", &5), (&"nail", &3), (&"bolt", &5)];
    check(
        &rt,
        rt.alloc(),
        EntriesSplit::new(&stock),
        0x4551,
        Some(1),
        &entries,
    )
}

#[test]
fn an_empty_map(rt: HostRuntime) -> Result<(), NoMemory> {
    let none: IndexMap<i64, i64> = IndexMap::new(rt.alloc());
    check(&rt, rt.alloc(), KeysSplit::of_map(&none), 0x4551, None, &[])?;
    check(&rt, rt.alloc(), EntriesSplit::new(&none), 0x4551, None, &[])
}

#[test]
fn the_items_of_a_set(rt: HostRuntime) -> Result<(), NoMemory> {
    let mut numbers = IndexSet::new(rt.alloc());
    for number in [5, 2, 5, 7] {
        numbers.insert(number)?;
    }
    check(
        &rt,
        rt.alloc(),
        KeysSplit::of_set(&numbers),
        0x4551,
        Some(1),
        &[&5, &2, &7],
    )
}
