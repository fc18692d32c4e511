use super::{Side, check_row, range, walks, wrapped};
use crate::reading::read;
use either::{Left, Right};
use sources::{
    Concat, DequeSplit, LinesSplit, MAX_RANGE, Placed, Progression, RangeSplit, RangeTooLong,
    SliceSplit,
};
use spliterator::{MAX_ESTIMATE, NoMemory, Spliterator};
use std::alloc::{AllocError, Global};
use std::process::Abort;

/// Whether a source tells this and estimates so many items, its size where it tells that it has one.
pub fn tells<S: Spliterator>(split: &S, told: u32, estimate: u64) -> bool {
    let is_sized = told & 0x40 == 0x40;
    split.characteristics() == told
        && split.estimate_size() == estimate
        && split.exact_size() == if is_sized { Some(estimate) } else { None }
}

/// Checks that a source of three items has this front and this rest at a number of items.
fn check_cut<S: Placed + Copy>(
    rt: &impl Abort,
    alloc: Global,
    source: S,
    (number, front, rest): (u64, &[S::Item], &[S::Item]),
) -> Result<(), NoMemory>
where
    S::Item: Eq,
{
    let found = read(alloc, source.first(number))?;
    let left = read(alloc, source.after_first(number))?;
    let is_cut = found.as_slice() == front && left.as_slice() == rest;
    check_row(rt, number, source.count() == 3 && is_cut);
    Ok(())
}

/// Whether a source splits into this part and this rest, where `None` stands for no part.
fn splits<S: Spliterator<Item: Eq>>(
    alloc: Global,
    mut split: S,
    part: Option<&[S::Item]>,
    rest: &[S::Item],
) -> Result<bool, NoMemory> {
    let is_part = match (split.try_split(), part) {
        (Some(found), Some(wanted)) => read(alloc, found)?.as_slice() == wanted,
        (found, wanted) => found.is_none() && wanted.is_none(),
    };
    Ok(is_part && read(alloc, split)?.as_slice() == rest)
}

/// What a source tells, how many items it estimates, and the part and the rest of its split.
type Split<'a, T> = (u32, u64, Option<&'a [T]>, &'a [T]);

/// Checks what a source tells and estimates, and the part and the rest of its split.
fn check<S: Spliterator<Item: Eq>>(
    rt: &impl Abort,
    alloc: Global,
    split: S,
    (told, estimate, part, rest): Split<'_, S::Item>,
) -> Result<(), NoMemory> {
    let is_told = tells(&split, told, estimate);
    let is_split = splits(alloc, split, part, rest)?;
    check_row(rt, estimate, is_told && is_split);
    Ok(())
}

/// Ranges, and their splits.
static RANGES: [((bool, i64, i64), Split<'_, i64>); 8] = [
    (
        (false, 0, 10),
        (0x4555, 10, Some(&[0, 1, 2, 3, 4]), &[5, 6, 7, 8, 9]),
    ),
    ((false, 0, 5), (0x4555, 5, Some(&[0, 1]), &[2, 3, 4])),
    ((false, 7, 8), (0x4555, 1, None, &[7])),
    ((false, 5, 5), (0x4555, 0, None, &[])),
    ((false, 5, -5), (0x4555, 0, None, &[])),
    ((true, 5, 4), (0x4555, 0, None, &[])),
    (
        (true, i64::MAX - 1, i64::MAX),
        (0x4555, 2, Some(&[i64::MAX - 1]), &[i64::MAX]),
    ),
    ((true, i64::MIN, i64::MIN), (0x4555, 1, None, &[i64::MIN])),
];

/// Slices, and their splits.
static SLICES: [(&[i64], Split<'_, i64>); 4] = [
    (&[3, 1, 2], (0x4550, 3, Some(&[3]), &[1, 2])),
    (&[], (0x4550, 0, None, &[])),
    (&[3], (0x4550, 1, None, &[3])),
    (&[7], (0x4550, 1, None, &[7])),
];

/// A range as a side that may be either.
fn left_side(rt: &impl Abort, ends: (bool, i64, i64)) -> Side<'static> {
    Left(range(ends).expect(rt, "a range"))
}

// A left side splits into left sides.
fn check_left(rt: &impl Abort, mut side: Side<'_>) {
    let part = side.try_split().expect(rt, "a part");
    assert!(rt; part.is_left() && side.is_left());
}

/// Each as a side that may be either, which does what it does alone.
#[test]
fn ranges_and_slices_split_in_half(rt: HostRuntime) -> Result<(), NoMemory> {
    for &(ends, split) in &RANGES {
        check(&rt, rt.alloc(), left_side(&rt, ends), split)?;
    }
    for &(numbers, split) in &SLICES {
        let side: Side<'_> = Right(SliceSplit::new(numbers));
        check(&rt, rt.alloc(), side, split)?;
    }
    check_left(&rt, left_side(&rt, (false, 0, 10)));
    Ok(())
}

/// How many of the last three numbers are cut off, these, and the rest.
static CUTS: [(u64, &[i64], &[i64]); 4] = [
    (0, &[], &[i64::MAX - 2, i64::MAX - 1, i64::MAX]),
    (1, &[i64::MAX - 2], &[i64::MAX - 1, i64::MAX]),
    (3, &[i64::MAX - 2, i64::MAX - 1, i64::MAX], &[]),
    (u64::MAX, &[i64::MAX - 2, i64::MAX - 1, i64::MAX], &[]),
];

/// The last three numbers.
static LAST: [i64; 3] = [i64::MAX - 2, i64::MAX - 1, i64::MAX];

#[test]
fn ranges_and_slices_are_cut(rt: HostRuntime) -> Result<(), NoMemory> {
    let range = RangeSplit::closed(i64::MAX - 2, i64::MAX).expect(&rt, "a range");
    for &row in &CUTS {
        check_cut(&rt, rt.alloc(), range, row)?;
        check_cut(&rt, rt.alloc(), SliceSplit::new(&LAST), row)?;
    }
    Ok(())
}

/// Ranges, a bound, how many of the numbers are below it, and how many aren't above it.
static BOUNDS: [((bool, i64, i64), i64, u64, u64); 6] = [
    ((false, 10, 20), 13, 3, 4),
    ((false, 10, 20), 9, 0, 0),
    ((false, 10, 20), 30, 10, 10),
    ((false, 5, 5), 7, 0, 0),
    ((true, i64::MAX - 2, i64::MAX), i64::MAX, 2, 3),
    ((true, i64::MIN, i64::MIN + 1), i64::MIN, 0, 1),
];

#[test]
fn a_range_counts_its_numbers_at_a_bound(rt: HostRuntime) {
    for &(ends, bound, below, up_to) in &BOUNDS {
        let range = range(ends).expect(&rt, "a range");
        let is_counted = range.count_below(bound) == below && range.count_up_to(bound) == up_to;
        check_row(&rt, bound.unsigned_abs(), is_counted);
    }
}

/// Ranges, and whether they have no more items than a range may have.
static LONG: [((bool, i64, i64), bool); 6] = [
    ((false, 0, 4_611_686_018_427_387_904), true),
    ((true, 1, 4_611_686_018_427_387_904), true),
    ((false, 0, 4_611_686_018_427_387_905), false),
    ((true, 0, 4_611_686_018_427_387_904), false),
    ((false, i64::MIN, i64::MAX), false),
    ((true, i64::MIN, i64::MAX), false),
];

/// Whether a range of the most items or more is answered as it is to be.
fn is_answered(ends: (bool, i64, i64), is_lawful: bool) -> bool {
    match range(ends) {
        Ok(range) => is_lawful && tells(&range, 0x4555, MAX_RANGE),
        Err(RangeTooLong) => !is_lawful,
    }
}

#[test]
fn ranges_have_at_most_2_to_the_62_items(rt: HostRuntime) -> Result<(), AllocError> {
    assert!(rt; MAX_RANGE == 4_611_686_018_427_387_904);
    for &(ends, is_lawful) in &LONG {
        check_row(&rt, ends.2.unsigned_abs(), is_answered(ends, is_lawful));
    }
    let text = format!(in rt.alloc(); "{RangeTooLong}")?;
    assert!(rt; text.as_str() == "a range of more than 2^62 items");
    Ok(())
}

/// The split of a deque of the numbers 1 to 3.
static OF_WRAPPED: Split<'_, i64> = (0x4550, 3, Some(&[1]), &[2, 3]);

#[test]
fn a_deque_whose_storage_wraps_is_split_and_read_like_any_other(
    rt: HostRuntime,
) -> Result<(), NoMemory> {
    let queue = wrapped(rt.alloc())?;
    assert!(rt; queue.as_slices().1.len() == 2);
    let deque = DequeSplit::new(&queue);
    check(&rt, rt.alloc(), deque, OF_WRAPPED).and(walks::check(&rt, rt.alloc(), deque, &[1, 2, 3]))
}

/// What is made of the numbers 1 to 3 (times, then plus), and the split and the items of that.
static STEPS: [(i64, i64, Split<'_, i64>, &[i64]); 3] = [
    (3, -1, (0x4550, 3, Some(&[2]), &[5, 8]), &[2, 5, 8]),
    (0, 7, (0x4550, 3, Some(&[7]), &[7, 7]), &[7, 7, 7]),
    (
        -1,
        i64::MIN + 2,
        (0x4550, 3, Some(&[i64::MIN + 1]), &[i64::MIN, i64::MAX]),
        &[i64::MIN + 1, i64::MIN, i64::MAX],
    ),
];

#[test]
fn numbers_by_one_step_are_split_and_read_like_any_others(rt: HostRuntime) -> Result<(), NoMemory> {
    let range = RangeSplit::closed(1, 3).expect(&rt, "a range");
    for &(factor, summand, split, items) in &STEPS {
        let numbers = Progression::of(range).times(factor).plus(summand);
        check(&rt, rt.alloc(), numbers, split)?;
        walks::check(&rt, rt.alloc(), numbers, items)?;
    }
    let negatives = read(rt.alloc(), Progression::of(range).negated())?;
    assert!(rt; negatives.as_slice() == [-1, -2, -3].as_slice());
    Ok(())
}

/// Texts, and their bytes, the part and the rest of their split into lines. A carriage return is no end of a line.
static LINES: [(&str, Split<'_, &str>); 9] = [
    ("\na\n\n", (0x510, 4, Some(&["", "a"]), &[""])),
    ("\na\n", (0x510, 3, Some(&[""]), &["a"])),
    ("a\n", (0x510, 2, None, &["a"])),
    ("ab\ncd", (0x510, 5, Some(&["ab"]), &["cd"])),
    ("a\nb", (0x510, 3, Some(&["a"]), &["b"])),
    ("\n\n", (0x510, 2, Some(&[""]), &[""])),
    ("\n", (0x510, 1, None, &[""])),
    ("", (0x510, 0, None, &[])),
    ("é\r\nb\rc", (0x510, 7, Some(&["é\r"]), &["b\rc"])),
];

#[test]
fn lines_split_after_a_line_feed_near_the_middle(rt: HostRuntime) -> Result<(), NoMemory> {
    for &(text, split) in &LINES {
        check(&rt, rt.alloc(), LinesSplit::new(text), split)?;
    }
    Ok(())
}

/// Checks the next items one by one, each with what is told and estimated behind it.
fn check_advances<S: Spliterator<Item: Eq>>(
    rt: &impl Abort,
    mut split: S,
    rows: &[(S::Item, u32, u64)],
) -> Result<(), NoMemory> {
    for (item, told, estimate) in rows {
        let is_next = split.try_advance()?.as_ref() == Some(item);
        check_row(rt, *estimate, is_next && tells(&split, *told, *estimate));
    }
    Ok(())
}

/// The bytes that an estimate of lines counts fall with each line that is read. A vowel here has two of them.
#[test]
fn an_estimate_of_lines_is_the_bytes_left(rt: HostRuntime) -> Result<(), NoMemory> {
    let lines = LinesSplit::new("é\n\nab");
    check_row(&rt, 6, tells(&lines, 0x510, 6));
    check_advances(
        &rt,
        lines,
        &[("é", 0x510, 3), ("", 0x510, 2), ("ab", 0x510, 0)],
    )
}

/// Checks two sources, one after the other, which split between them.
fn check_pair<A: Spliterator<Item: Eq>, B: Spliterator<Item = A::Item>>(
    rt: &impl Abort,
    alloc: Global,
    (first, second): (A, B),
    split: Split<'_, A::Item>,
) -> Result<(), NoMemory> {
    check(rt, alloc, Concat::new(first, second), split)
}

/// Checks a source, and the part and the rest of its split.
fn check_halves<S: Spliterator<Item: Eq>>(
    rt: &impl Abort,
    alloc: Global,
    mut whole: S,
    of_whole: Split<'_, S::Item>,
    of_part: Split<'_, S::Item>,
    of_rest: Split<'_, S::Item>,
) -> Result<(), NoMemory> {
    check(rt, alloc, whole, of_whole)?;
    let part = whole.try_split().expect(rt, "a part");
    check(rt, alloc, part, of_part).and(check(rt, alloc, whole, of_rest))
}

/// Checks two sources of numbers, one after the other, before another: the numbers 0 and 1, 5, and 9.
fn check_three<A: Spliterator<Item = i64>, B: Spliterator<Item = i64>>(
    rt: &impl Abort,
    alloc: Global,
    first: A,
    second: A,
    third: B,
) -> Result<(), NoMemory> {
    let both = Concat::new(first, second);
    let of_both: Split<'_, i64> = (0x4550, 3, Some(&[0, 1]), &[5]);
    let of_first = (0x4555, 2, Some([0].as_slice()), [1].as_slice());
    check_halves(rt, alloc, both, of_both, of_first, (0x4555, 1, None, &[5]))?;
    let of_all: Split<'_, i64> = (0x4550, 4, Some(&[0, 1, 5]), &[9]);
    let all = Concat::new(both, third);
    check_halves(rt, alloc, all, of_all, of_both, (0x4550, 1, None, &[9]))
}

/// Two slices, and the split of both, which is between them.
static PAIRS: [((&[i64], &[i64]), Split<'_, i64>); 2] = [
    ((&[], &[7]), (0x4550, 1, Some(&[]), &[7])),
    ((&[7], &[8]), (0x4550, 2, Some(&[7]), &[8])),
];

#[test]
fn a_concatenation_splits_between_its_sides(rt: HostRuntime) -> Result<(), NoMemory> {
    for &((first, second), split) in &PAIRS {
        let pair = (SliceSplit::new(first), SliceSplit::new(second));
        check_pair(&rt, rt.alloc(), pair, split)?;
    }
    Ok(())
}

#[test]
fn a_concatenation_of_concatenations(rt: HostRuntime) -> Result<(), NoMemory> {
    let first = RangeSplit::range(0, 2).expect(&rt, "a range");
    let second = RangeSplit::range(5, 6).expect(&rt, "a range");
    check_three(&rt, rt.alloc(), first, second, SliceSplit::new(&[9]))
}

/// Whether two sources, one after the other, tell this and estimate so many items.
fn pair_tells<A: Spliterator, B: Spliterator<Item = A::Item>>(
    first: A,
    second: B,
    told: u32,
    estimate: u64,
) -> bool {
    tells(&Concat::new(first, second), told, estimate)
}

#[test]
fn a_concatenation_tells_a_size_that_an_estimate_can_say(rt: HostRuntime) {
    let most = RangeSplit::range(0, 4_611_686_018_427_387_904).expect(&rt, "a range");
    let less = RangeSplit::range(0, 4_611_686_018_427_387_903).expect(&rt, "a range");
    let told = [
        pair_tells(most, most, 0x510, 9_223_372_036_854_775_807),
        pair_tells(most, less, 0x4550, MAX_ESTIMATE),
        pair_tells(LinesSplit::new("a\n"), LinesSplit::new("b"), 0x510, 3),
        pair_tells(LinesSplit::new(""), LinesSplit::new("a\nb"), 0x510, 3),
    ];
    assert!(rt; told == [true; 4], "{told:?}");
}

/// Checks the items of two sources, one after the other, each with what is told and estimated behind it.
fn check_pair_advances<A: Spliterator<Item: Eq>, B: Spliterator<Item = A::Item>>(
    rt: &impl Abort,
    first: A,
    second: B,
    rows: &[(A::Item, u32, u64)],
) -> Result<(), NoMemory> {
    check_advances(rt, Concat::new(first, second), rows)
}

/// The advance that finds the first side at its end leaves the second alone: what is told is then the second side's.
#[test]
fn a_side_that_is_left_alone_tells_by_itself(rt: HostRuntime) -> Result<(), NoMemory> {
    let first = RangeSplit::range(0, 1).expect(&rt, "a range");
    let second = RangeSplit::range(5, 8).expect(&rt, "a range");
    let (none, lines) = (LinesSplit::new(""), LinesSplit::new("a\nb"));
    check_pair_advances(&rt, first, second, &[(0, 0x4550, 3), (5, 0x4555, 2)]).and(
        check_pair_advances(&rt, none, lines, &[("a", 0x510, 1)]),
    )
}
