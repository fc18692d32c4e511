use super::{Side, check_row, range};
use crate::reading::{append, append_parts};
use either::{Left, Right};
use sources::{Concat, LentSplit, LinesSplit, RangeSplit, SliceSplit};
use spliterator::{NoMemory, Spliterator};
use std::alloc::Global;
use std::process::Abort;

/// Appends the items of a part, if there is one, and then those of the rest.
fn append_halves<S: Spliterator>(mut split: S, items: &mut Vec<S::Item>) -> Result<(), NoMemory> {
    if let Some(part) = split.try_split() {
        append(part, items)?;
    }
    append(split, items)
}

/// Appends some items one by one, and then those of the two sides of a split.
fn append_later<S: Spliterator>(
    mut split: S,
    some: usize,
    items: &mut Vec<S::Item>,
) -> Result<(), NoMemory> {
    for _ in 0..some {
        if let Some(item) = split.try_advance()? {
            items.push(item)?;
        }
    }
    append_halves(split, items)
}

/// Appends the items of some blocks of at most so many items.
fn append_blocks<S: Spliterator>(
    alloc: Global,
    mut split: S,
    blocks: usize,
    most: usize,
    items: &mut Vec<S::Item>,
) -> Result<(), NoMemory> {
    let mut block = Vec::new(alloc);
    for _ in 0..blocks {
        split.next_block(most, &mut block)?;
        items.append(&mut block)?;
    }
    Ok(())
}

/// A way to read a source.
#[derive(Clone, Copy)]
enum Way {
    ToItsEnd,
    SplitOnce,
    SplitToTheBottom,
    SplitBehind(usize),
    ByBlocks(usize),
}

/// Appends the items of a source, which has so many, read in one way.
fn append_in<S: Spliterator>(
    alloc: Global,
    split: S,
    way: Way,
    number: usize,
    items: &mut Vec<S::Item>,
) -> Result<(), NoMemory> {
    match way {
        Way::ToItsEnd => append(split, items),
        Way::SplitOnce => append_halves(split, items),
        Way::SplitToTheBottom => append_parts(split, items),
        Way::SplitBehind(some) => append_later(split, some, items),
        Way::ByBlocks(most) => append_blocks(alloc, split, number, most, items),
    }
}

/// Reads a source in five ways: to its end, split once, split to the bottom, split half way, and by blocks of 1, of 2 and of as many as a
/// number can tell, for which no room is asked.
pub fn check<S: Spliterator<Item: Eq>>(
    rt: &impl Abort,
    alloc: Global,
    split: S,
    expected: &[S::Item],
) -> Result<(), NoMemory> {
    check_by(
        rt,
        alloc,
        split,
        expected.len(),
        |items: &[S::Item]| items == expected,
    )
}

/// Reads a source of so many items in the five ways, and asks of the items whether they are the right ones.
pub fn check_by<S: Spliterator, F: Fn(&[S::Item]) -> bool>(
    rt: &impl Abort,
    alloc: Global,
    split: S,
    number: usize,
    are_right: F,
) -> Result<(), NoMemory>
    requires { F.IsAlwaysCallable are_right }
{
    let ways = [
        Way::ToItsEnd,
        Way::SplitOnce,
        Way::SplitToTheBottom,
        Way::SplitBehind(number / 2),
        Way::ByBlocks(1),
        Way::ByBlocks(2),
        Way::ByBlocks(usize::MAX),
    ];
    for (place, way) in (0_u64..).zip(&ways) {
        let mut items = Vec::new(alloc);
        append_in(alloc, split, *way, number, &mut items)?;
        check_row(rt, place, are_right(items.as_slice()));
    }
    Ok(())
}

/// Ranges, and their items.
static RANGES: [((bool, i64, i64), &[i64]); 3] = [
    ((false, -4, 6), &[-4, -3, -2, -1, 0, 1, 2, 3, 4, 5]),
    ((true, -4, 5), &[-4, -3, -2, -1, 0, 1, 2, 3, 4, 5]),
    ((false, 6, -4), &[]),
];

/// Slices of numbers.
static SLICES: [&[i64]; 3] = [&[-4, -3, -2, -1, 0, 1, 2, 3, 4, 5], &[-4], &[]];

#[test]
fn numbers_are_read_in_five_ways(rt: HostRuntime) -> Result<(), NoMemory> {
    for &(ends, items) in &RANGES {
        let range = range(ends).expect(&rt, "a range");
        check(&rt, rt.alloc(), range, items)?;
    }
    for &slice in &SLICES {
        check(&rt, rt.alloc(), SliceSplit::new(slice), slice)?;
        let lent: Vec<&i64> = slice.iter().collect(rt.alloc())?;
        check(&rt, rt.alloc(), LentSplit::new(slice), lent.as_slice())?;
    }
    Ok(())
}

/// Whether a source lends these items, in blocks of at most so many, and then none.
fn lends<S: Spliterator<Item: Eq>>(split: S, most: usize, expected: &[S::Item]) -> bool {
    let (mut split, mut left) = (split, expected);
    for _ in 0..expected.len() {
        let Some((block, rest)) = split.lent_block(most) else {
            return false;
        };
        let (front, behind) = left.split_at(block.len().min(left.len()));
        if block != front {
            return false;
        }
        (split, left) = (rest, behind);
    }
    left.is_empty() && matches!(split.lent_block(most), Some(([], _)))
}

/// Checks two slices, one after the other, that lend their items, in blocks of 1, of 2 and of as many as a number can tell.
fn check_lent(rt: &impl Abort, first: &[i64], second: &[i64], both: &[i64]) {
    for most in [1, 2, usize::MAX] {
        let (first_split, second_split) = (SliceSplit::new(first), SliceSplit::new(second));
        check_row(rt, 0, lends(first_split, most, first));
        check_row(
            rt,
            1,
            lends(Concat::new(first_split, second_split), most, both),
        );
    }
}

#[test]
fn slices_lend_their_items(rt: HostRuntime) {
    check_lent(&rt, &[4, 5, 6], &[7, 8], &[4, 5, 6, 7, 8]);
    check_lent(&rt, &[], &[7, 8], &[7, 8]);
    check_lent(&rt, &[4], &[], &[4]);
    let range = RangeSplit::range(0, 4).expect(&rt, "a range");
    check_row(&rt, 2, !lends(range, 2, &[0, 1, 2, 3]));
}

/// Texts and their lines.
static LINES: [(&str, &[&str]); 7] = [
    ("", &[]),
    ("\n", &[""]),
    ("\n\n\n", &["", "", ""]),
    ("one", &["one"]),
    ("\na\n\n", &["", "a", ""]),
    ("one\ntwo\n\nand three", &["one", "two", "", "and three"]),
    ("é\nü\n日本\n", &["é", "ü", "日本"]),
];

#[test]
fn lines_are_read_in_five_ways(rt: HostRuntime) -> Result<(), NoMemory> {
    for &(text, lines) in &LINES {
        check(&rt, rt.alloc(), LinesSplit::new(text), lines)?;
    }
    Ok(())
}

/// Checks two sources, one after the other.
fn check_both<A: Spliterator<Item: Eq>, B: Spliterator<Item = A::Item>>(
    rt: &impl Abort,
    alloc: Global,
    first: A,
    second: B,
    expected: &[A::Item],
) -> Result<(), NoMemory> {
    check(rt, alloc, Concat::new(first, second), expected)
}

/// Checks a source before an empty one, and then one that is as empty before another.
fn check_four<A: Spliterator<Item: Eq>, B: Spliterator<Item = A::Item>>(
    rt: &impl Abort,
    alloc: Global,
    first: A,
    none: B,
    last: B,
    expected: &[A::Item],
) -> Result<(), NoMemory> {
    let (before, behind) = (Concat::new(first, none), Concat::new(none, last));
    check_both(rt, alloc, before, behind, expected)
}

#[test]
fn two_sources_are_read_in_five_ways(rt: HostRuntime) -> Result<(), NoMemory> {
    let range = RangeSplit::range(0, 4).expect(&rt, "a range");
    let none = RangeSplit::range(0, 0).expect(&rt, "a range");
    check_pairs(&rt, rt.alloc(), SliceSplit::new(&[7, 8, 9]), range, none)
}

// A slice of the numbers 7 to 9, the range of 0 to 3, and an empty range.
fn check_pairs(
    rt: &impl Abort,
    alloc: Global,
    slice: SliceSplit<'_, i64>,
    range: RangeSplit,
    none: RangeSplit,
) -> Result<(), NoMemory> {
    check_both(rt, alloc, range, slice, &[0, 1, 2, 3, 7, 8, 9])
        .and(check_both(rt, alloc, none, slice, &[7, 8, 9]))
        .and(check_both(rt, alloc, slice, none, &[7, 8, 9]))
        .and(check_both(rt, alloc, none, none, &[]))
        .and(check_four(rt, alloc, slice, none, range, &[7, 8, 9, 0, 1, 2, 3]))
}

#[test]
fn two_texts_are_read_in_five_ways(rt: HostRuntime) -> Result<(), NoMemory> {
    let (first, second) = (LinesSplit::new("a\nb"), LinesSplit::new("\nc\n"));
    check_both(&rt, rt.alloc(), first, second, &["a", "b", "", "c"])
}

#[test]
fn a_side_that_may_be_either_is_read_in_five_ways(rt: HostRuntime) -> Result<(), NoMemory> {
    let range: Side<'_> = Left(RangeSplit::range(0, 4).expect(&rt, "a range"));
    let slice: Side<'_> = Right(SliceSplit::new(&[7, 8, 9]));
    check(&rt, rt.alloc(), range, &[0, 1, 2, 3]).and(check(&rt, rt.alloc(), slice, &[7, 8, 9]))
}
