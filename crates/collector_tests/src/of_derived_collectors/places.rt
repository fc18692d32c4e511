//! Places of items that meet a test.
use super::cuts::of_parts;
use derived_collectors::FirstPlaces;
use spliterator::NoMemory;
use stream_functions::Above;

/// Numbers, how many places are wanted, and the first places of those above 3.
static PLACES: [(&[i64], usize, &[u64]); 6] = [
    (&[], 5, &[]),
    (&[3, 1], 5, &[]),
    (&[3, 4, 1, 5, 9], 2, &[1, 3]),
    (&[3, 4, 1, 5, 9], 3, &[1, 3, 4]),
    (&[3, 4, 1, 5, 9], 9, &[1, 3, 4]),
    (&[9, 9, 9], 0, &[]),
];

#[test]
fn the_first_that_meet_a_test(rt: HostRuntime) -> Result<(), NoMemory> {
    for &(items, number, wanted) in &PLACES {
        let places = FirstPlaces::<i64, _>::new(rt.alloc(), Above(3), number);
        for cut in 0..=items.len() {
            let (left, right) = items.split_at(cut);
            let found = of_parts(&places, left, right)?;
            assert!(&rt; found.as_slice() == wanted, "{found:?}");
        }
    }
    Ok(())
}
