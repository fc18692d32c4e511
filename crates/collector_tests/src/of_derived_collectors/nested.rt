//! What is done with a result, and lists of images.
use super::cuts::of_parts;
use super::functions::{Copies, Keys};
use collectors::{Counting, GroupingBy, ToList};
use derived_collectors::{CollectingAndThen, FlatMappingTo};
use spliterator::NoMemory;
use stream_functions::{Modulo, Times};

/// Lists, and of each: twice its length, and how many remainders by 3 its numbers leave.
static FINISHED: [(&[i64], i64, usize); 3] = [
    (&[], 0, 0),
    (&[4, 4, 4], 6, 1),
    (&[5, 2, 7, 4, 6], 10, 3),
];

#[test]
fn a_finisher_takes_the_result(rt: HostRuntime) -> Result<(), NoMemory> {
    let doubled = CollectingAndThen::new(Counting::<i64>::new(), Times(2));
    let groups = GroupingBy::new(rt.alloc(), Modulo::by(3), Counting::<i64>::new());
    let keys = CollectingAndThen::new(groups, Keys);
    for &(items, twice, remainders) in &FINISHED {
        for cut in 0..=items.len() {
            let (left, right) = items.split_at(cut);
            assert!(&rt; of_parts(&doubled, left, right)? == twice);
            assert!(&rt; of_parts(&keys, left, right)? == remainders);
        }
    }
    Ok(())
}

/// Lists, and of each the copies of its numbers, each as often as it says.
static COPIES: [(&[i64], &[i64]); 3] = [
    (&[], &[]),
    (&[0, 0], &[]),
    (&[2, 0, 3, 1], &[2, 2, 3, 3, 3, 1]),
];

#[test]
fn members_of_images_stand_in_order(rt: HostRuntime) -> Result<(), NoMemory> {
    let alloc = rt.alloc();
    let copies = FlatMappingTo::<i64, _, _>::new(Copies { alloc }, ToList::<i64>::new(alloc));
    for &(items, wanted) in &COPIES {
        for cut in 0..=items.len() {
            let (left, right) = items.split_at(cut);
            let found = of_parts(&copies, left, right)?;
            assert!(&rt; found.as_slice() == wanted, "{found:?}");
        }
    }
    Ok(())
}
