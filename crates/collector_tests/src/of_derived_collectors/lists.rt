//! Groups and parts that are lists, and deques.
use super::cuts::of_parts;
use derived_collectors::{grouping_by, partitioning_by, to_deque};
use indexmap::IndexMap;
use spliterator::NoMemory;
use stream_functions::{Even, Modulo};

/// Lists, and of each its even numbers and its odd ones.
static PARTED: [(&[i64], &[i64], &[i64]); 3] = [
    (&[], &[], &[]),
    (&[3, 5], &[], &[3, 5]),
    (&[5, 2, 7, 4, 2], &[2, 4, 2], &[5, 7]),
];

// Whether these items are the group of a key; there is no group of no items.
fn is_group(groups: &IndexMap<i64, Vec<i64>>, key: i64, items: &[i64]) -> bool {
    match groups.get(&key) {
        Some(group) => group.as_slice() == items,
        None => items.is_empty(),
    }
}

#[test]
fn items_stand_in_lists(rt: HostRuntime) -> Result<(), NoMemory> {
    let groups = grouping_by(rt.alloc(), Modulo::by(2));
    let parted = partitioning_by(rt.alloc(), Even);
    let deque = to_deque::<i64>(rt.alloc());
    for &(items, even, odd) in &PARTED {
        for cut in 0..=items.len() {
            let (left, right) = items.split_at(cut);
            let found = of_parts(&groups, left, right)?;
            assert!(&rt; is_group(&found, 0, even));
            assert!(&rt; is_group(&found, 1, odd));
            let found = of_parts(&parted, left, right)?;
            assert!(&rt; found.yes.as_slice() == even);
            assert!(&rt; found.no.as_slice() == odd);
            let found = of_parts(&deque, left, right)?;
            assert!(&rt; found.into_vec().as_slice() == items);
        }
    }
    Ok(())
}
