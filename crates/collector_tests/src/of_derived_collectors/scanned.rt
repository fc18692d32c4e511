//! Running totals.
use super::cuts::of_parts;
use derived_collectors::Scanning;
use spliterator::NoMemory;
use stages::{FirstOf, WrapAdd};

/// Numbers, and in the place of each the sum of those up to it, which wraps, and the first.
static TOTALS: [(&[i64], &[i64], &[i64]); 4] = [
    (&[], &[], &[]),
    (&[-3], &[-3], &[-3]),
    (&[3, 1, 4, 1, 5], &[3, 4, 8, 9, 14], &[3, 3, 3, 3, 3]),
    (
        &[9223372036854775807, 1, -1],
        &[
            9223372036854775807,
            -9223372036854775808,
            9223372036854775807,
        ],
        &[
            9223372036854775807,
            9223372036854775807,
            9223372036854775807,
        ],
    ),
];

#[test]
fn a_total_stands_in_each_place(rt: HostRuntime) -> Result<(), NoMemory> {
    let sums = Scanning::<i64, _>::new(rt.alloc(), WrapAdd::new());
    let firsts = Scanning::<i64, _>::new(rt.alloc(), FirstOf::new());
    for &(items, totals, heads) in &TOTALS {
        for cut in 0..=items.len() {
            let (left, right) = items.split_at(cut);
            let found = of_parts(&sums, left, right)?;
            assert!(&rt; found.as_slice() == totals, "{found:?}");
            let found = of_parts(&firsts, left, right)?;
            assert!(&rt; found.as_slice() == heads, "{found:?}");
        }
    }
    Ok(())
}
