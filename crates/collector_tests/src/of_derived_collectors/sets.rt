//! Sets.
use super::cuts::of_parts;
use derived_collectors::ToSet;
use spliterator::NoMemory;

/// Lists, and of each its items in the order in which each came first.
static SETS: [(&[i64], &[i64]); 4] = [
    (&[], &[]),
    (&[3, 3, 3], &[3]),
    (&[5, 2, 5, 7, 2], &[5, 2, 7]),
    (&[1, 2, 3, 2, 1, 4], &[1, 2, 3, 4]),
];

#[test]
fn of_equal_items_the_first_stays(rt: HostRuntime) -> Result<(), NoMemory> {
    for &(items, wanted) in &SETS {
        for cut in 0..=items.len() {
            let (left, right) = items.split_at(cut);
            let set = of_parts(&ToSet::<i64>::new(rt.alloc()), left, right)?;
            assert!(&rt; set.as_slice() == wanted);
        }
    }
    Ok(())
}
