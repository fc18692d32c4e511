//! Sums and averages that are exact.
use super::cuts::of_parts;
use derived_collectors::{Fraction, SummingExact, Whole, averaging, summing_checked};
use spliterator::NoMemory;
use stream_functions::Itself;

/// Numbers, their sum, and the same where an i64 has room for it.
static SUMS: [(&[i64], i128, Option<i64>); 7] = [
    (&[], 0, Some(0)),
    (&[-3], -3, Some(-3)),
    (&[5, 2, 8, 2], 17, Some(17)),
    (
        &[9223372036854775807, 1, -1],
        9223372036854775807,
        Some(9223372036854775807),
    ),
    (&[9223372036854775807, 1], 9223372036854775808, None),
    (
        &[-9223372036854775808, -1, -9223372036854775808, 4],
        -18446744073709551613,
        None,
    ),
    (
        &[-1, -9223372036854775808, 9223372036854775807, 2],
        0,
        Some(0),
    ),
];

#[test]
fn a_sum_never_wraps(rt: HostRuntime) -> Result<(), NoMemory> {
    for &(items, sum, _) in &SUMS {
        for cut in 0..=items.len() {
            let (left, right) = items.split_at(cut);
            let found = of_parts(&SummingExact::new(Itself), left, right)?;
            assert!(&rt; found == sum, "{found}");
        }
    }
    let greatest = [u64::MAX, u64::MAX, 7];
    for cut in 0..=greatest.len() {
        let (left, right) = greatest.split_at(cut);
        let found = of_parts(&SummingExact::new(Itself), left, right)?;
        assert!(&rt; found == 36893488147419103237, "{found}");
    }
    assert!(&rt; i8::MIN.whole() == -128 && u8::MAX.whole() == 255);
    assert!(&rt; i16::MIN.whole() == -32768 && u16::MAX.whole() == 65535);
    assert!(&rt; i32::MIN.whole() == -2147483648 && u32::MAX.whole() == 4294967295);
    assert!(&rt; i64::MIN.whole() == -9223372036854775808);
    assert!(&rt; u64::MAX.whole() == 18446744073709551615);
    assert!(&rt; usize::MAX.whole() == 18446744073709551615);
    Ok(())
}

#[test]
fn a_sum_is_there_where_the_whole_fits(rt: HostRuntime) -> Result<(), NoMemory> {
    for &(items, _, sum) in &SUMS {
        for cut in 0..=items.len() {
            let (left, right) = items.split_at(cut);
            let found = of_parts(&summing_checked(Itself), left, right)?;
            assert!(&rt; found == sum, "{found:?}");
        }
    }
    Ok(())
}

#[test]
fn an_average_is_a_sum_over_a_count(rt: HostRuntime) -> Result<(), NoMemory> {
    for &(items, sum, _) in &SUMS {
        let count = items.len() as i64;
        for cut in 0..=items.len() {
            let (left, right) = items.split_at(cut);
            let found = of_parts(&averaging(Itself), left, right)?;
            assert!(&rt; found == Fraction { sum, count }, "{found:?}");
        }
    }
    Ok(())
}
