//! Long lists, whose containers are in pieces.
use collectors::{Collector, Pieces, ToList, combine_containers};
use spliterator::NoMemory;
use std::alloc::Global;

const COUNT: i64 = 5000;

/// Where the list is cut: a part that is long or short, in front, in the middle and behind.
static CUTS: [(i64, i64); 4] = [(1500, 1600), (3, 2000), (2500, 4990), (0, 5000)];

/// The numbers from one up to, not including, another.
fn numbers(alloc: Global, from: i64, to: i64) -> Result<Vec<i64>, NoMemory> {
    let mut numbers = Vec::new(alloc);
    for number in from..to {
        numbers.push(number)?;
    }
    Ok(numbers)
}

/// Their container, which takes them in one by one or as a list.
fn part(alloc: Global, from: i64, to: i64, at_once: bool) -> Result<Pieces<i64>, NoMemory> {
    let list = ToList::new(alloc);
    let mut acc = list.supply()?;
    let mut items = numbers(alloc, from, to)?;
    if at_once {
        list.accumulate_all_owned(&mut acc, &mut items)?;
        return Ok(acc);
    }
    for item in items {
        list.accumulate_owned(&mut acc, item)?;
    }
    Ok(acc)
}

/// The list of three parts, of which the first two or the last two are combined before the third.
fn combined(
    alloc: Global,
    cuts: (i64, i64),
    at_once: bool,
    left_first: bool,
) -> Result<Vec<i64>, NoMemory> {
    let list = ToList::new(alloc);
    let mut left = part(alloc, 0, cuts.0, at_once)?;
    let mut middle = part(alloc, cuts.0, cuts.1, !at_once)?;
    let right = part(alloc, cuts.1, COUNT, at_once)?;
    if left_first {
        combine_containers(&list, &mut left, middle)?;
        combine_containers(&list, &mut left, right)?;
    } else {
        combine_containers(&list, &mut middle, right)?;
        combine_containers(&list, &mut left, middle)?;
    }
    list.finish(left)
}

#[test]
fn long_parts_are_put_one_behind_the_other(rt: HostRuntime) -> Result<(), NoMemory> {
    let alloc = rt.alloc();
    let whole = numbers(alloc, 0, COUNT)?;
    for &cuts in &CUTS {
        for at_once in [false, true] {
            for left_first in [false, true] {
                let list = combined(alloc, cuts, at_once, left_first)?;
                assert!(rt; list.as_slice() == whole.as_slice(), "{}", cuts.0);
            }
        }
    }
    Ok(())
}
