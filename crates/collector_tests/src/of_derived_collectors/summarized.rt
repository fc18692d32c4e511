//! Summaries of numbers.
use super::cuts::of_parts;
use derived_collectors::Summarizing;
use spliterator::NoMemory;
use stream_functions::Itself;

/// Count, sum, least, greatest and average.
type Told = (i64, i64, Option<i64>, Option<i64>, Option<i64>);

/// Averages are rounded down, and sums wrap.
static SUMMARIES: [(&[i64], Told); 5] = [
    (&[], (0, 0, None, None, None)),
    (&[-3], (1, -3, Some(-3), Some(-3), Some(-3))),
    (&[5, 2, 8, 2], (4, 17, Some(2), Some(8), Some(4))),
    (&[-5, -2, 0], (3, -7, Some(-5), Some(0), Some(-3))),
    (
        &[9223372036854775807, 1],
        (
            2,
            -9223372036854775808,
            Some(1),
            Some(9223372036854775807),
            Some(-4611686018427387904),
        ),
    ),
];

#[test]
fn tells_count_sum_least_and_greatest(rt: HostRuntime) -> Result<(), NoMemory> {
    for (items, wanted) in &SUMMARIES {
        for cut in 0..=items.len() {
            let (left, right) = items.split_at(cut);
            let s = of_parts(&Summarizing::new(Itself), left, right)?;
            assert!(&rt;
                (s.count, s.sum, s.least, s.greatest, s.average()) == *wanted,
                "{s:?}"
            );
        }
    }
    Ok(())
}
