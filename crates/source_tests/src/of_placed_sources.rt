//! Each source by place, beside std's own iterator over the same numbers.
ghost use Rattle.std.specs.Prelude.{◌<◌};

use crate::of_sources::walks;
use crate::reading::read;
use placed_sources::{
    Chunks, ChunksOf, Reversed, StepBy, Windows, WindowsOf, Zip, indexed, take_last,
};
use sources::{CopiesSplit, LentSplit, MAX_RANGE, Placed, RangeSplit, SliceSplit};
use spliterator::{MAX_ESTIMATE, NoMemory, Spliterator};
use std::alloc::{AllocError, Global};
use std::process::Abort;

static NUMBERS: [i64; 7] = [3, 1, 4, 1, 5, 9, 2];

/// How many items stand apart, or in a row.
static SIZES: [usize; 7] = [1, 2, 3, 6, 7, 8, usize::MAX];

/// Checks a source: its number of items, these in five ways, and what is before and behind each place.
fn check<S: Placed + Copy>(
    rt: &impl Abort,
    alloc: Global,
    source: S,
    expected: &[S::Item],
) -> Result<(), NoMemory>
where
    S::Item: Eq,
{
    let count = expected.len() as u64;
    assert!(rt; source.count() == count && source.exact_size() == Some(count));
    for number in 0..expected.len() {
        let (front, rest) = expected.split_at(number);
        let found = read(alloc, source.first(number as u64))?;
        let left = read(alloc, source.after_first(number as u64))?;
        assert!(rt; found.as_slice() == front && left.as_slice() == rest);
    }
    let all = read(alloc, source.first(u64::MAX))?;
    let none = read(alloc, source.after_first(u64::MAX))?;
    assert!(rt; all.as_slice() == expected && none.is_empty());
    walks::check(rt, alloc, source, expected)
}

fn check_zip(rt: &impl Abort, alloc: Global, left: &[i64], right: &[i64]) -> Result<(), NoMemory> {
    let pairs: Vec<(i64, i64)> = left
        .iter()
        .copied()
        .zip(right.iter().copied())
        .collect(alloc)?;
    let zip = Zip::new(SliceSplit::new(left), SliceSplit::new(right));
    check(rt, alloc, zip, pairs.as_slice())
}

#[test]
fn two_sources_are_zipped(rt: HostRuntime) -> Result<(), NoMemory> {
    for number in 0..8 {
        let left = &NUMBERS[..number];
        check_zip(&rt, rt.alloc(), left, &NUMBERS)?;
        check_zip(&rt, rt.alloc(), left, &NUMBERS[..3])?;
        check_zip(&rt, rt.alloc(), left, left)?;
    }
    Ok(())
}

/// Checks what is made of so many of the numbers one by one: with their places, from the back, and the last of them.
fn check_items(rt: &impl Abort, alloc: Global, numbers: &[i64]) -> Result<(), NoMemory> {
    let source = SliceSplit::new(numbers);
    let mut places = Vec::new(alloc);
    for (place, number) in numbers.iter().enumerate() {
        places.push((place as i64, *number))?;
    }
    check(
        rt,
        alloc,
        indexed(source).expect(rt, "few"),
        places.as_slice(),
    )?;
    let reversed: Vec<i64> = numbers.iter().copied().rev().collect(alloc)?;
    check(rt, alloc, Reversed::new(source), reversed.as_slice())?;
    check(rt, alloc, Reversed::new(Reversed::new(source)), numbers)?;
    for number in 0..9 {
        let left = numbers.len().saturating_sub(number);
        check(
            rt,
            alloc,
            take_last(source, number as u64),
            &numbers[left..],
        )?;
    }
    Ok(())
}

/// Checks what is made of so many of the numbers at a size.
fn check_size(rt: &impl Abort, alloc: Global, numbers: &[i64], size: usize) -> Result<(), NoMemory>
    requires { 0 < size }
{
    let stepped: Vec<i64> = numbers.iter().copied().step_by(size).collect(alloc)?;
    let source = SliceSplit::new(numbers);
    check(
        rt,
        alloc,
        StepBy::new(source, size as u64),
        stepped.as_slice(),
    )?;
    let chunks: Vec<&[i64]> = numbers.chunks(size).collect(alloc)?;
    check(rt, alloc, ChunksOf::new(numbers, size), chunks.as_slice())?;
    let windows: Vec<&[i64]> = numbers.windows(size).collect(alloc)?;
    check(rt, alloc, WindowsOf::new(numbers, size), windows.as_slice())?;
    let (chunks, windows) = (
        lists(alloc, chunks.as_slice())?,
        lists(alloc, windows.as_slice())?,
    );
    let size = size as u64;
    check(
        rt,
        alloc,
        Chunks::new(alloc, source, size),
        chunks.as_slice(),
    )?;
    check(
        rt,
        alloc,
        Windows::new(alloc, source, size),
        windows.as_slice(),
    )
}

/// Lists of parts of a slice.
fn lists(alloc: Global, parts: &[&[i64]]) -> Result<Vec<Vec<i64>>, AllocError> {
    let mut lists = Vec::new(alloc);
    for part in parts {
        lists.push(Vec::from_slice(alloc, part)?)?;
    }
    Ok(lists)
}

#[test]
fn numbers_by_place(rt: HostRuntime) -> Result<(), NoMemory> {
    for number in 0..8 {
        let numbers = &NUMBERS[..number];
        check_items(&rt, rt.alloc(), numbers)?;
        for size in &SIZES {
            check_size(&rt, rt.alloc(), numbers, (*size).max(1))?;
        }
    }
    Ok(())
}

#[test]
fn each_source_by_place_stands_over_others(rt: HostRuntime) -> Result<(), NoMemory> {
    let range = RangeSplit::range(10, 15).expect(&rt, "a range");
    let pairs = Zip::new(range, LentSplit::new(&NUMBERS));
    let expected = [(14, &5), (12, &4), (10, &3)];
    check(
        &rt,
        rt.alloc(),
        StepBy::new(Reversed::new(pairs), 2),
        &expected,
    )?;
    let chunks = ChunksOf::new(&NUMBERS, 2);
    let numbered = [(0, [5, 9].as_slice()), (1, &[2])];
    check(
        &rt,
        rt.alloc(),
        indexed(take_last(chunks, 2)).expect(&rt, "few"),
        &numbered,
    )
}

/// No more items are numbered than a range has. More than an estimate can say have no size that is told.
#[test]
fn many_items_by_place(rt: HostRuntime) {
    let most = indexed(CopiesSplit::new(&7, MAX_RANGE)).expect(&rt, "a range");
    let is_refused = indexed(CopiesSplit::new(&7, MAX_RANGE + 1)).is_err();
    assert!(rt; is_refused && most.exact_size() == Some(MAX_RANGE));
    let all = CopiesSplit::new(&7, u64::MAX);
    let told = [
        Reversed::new(all).exact_size(),
        StepBy::new(all, 2).exact_size(),
        StepBy::new(all, 3).exact_size(),
    ];
    assert!(rt; told == [None, None, Some(6_148_914_691_236_517_205)]);
    assert!(rt; Reversed::new(all).estimate_size() == MAX_ESTIMATE);
}
