//! The check of a source.
use crate::reading::{append, append_parts};
use spliterator::{NoMemory, Spliterator};
use std::alloc::Global;
use std::process::Abort;

/// How many of the items the first part has, if a source splits.
fn first_part<S: Spliterator>(mut split: S) -> Option<u64> {
    split.try_split()?.exact_size()
}

/// Checks a source: what it tells, its size, its items as a whole and cut to the last, and how many its first part has.
pub fn check<S: Spliterator<Item: Eq>>(
    rt: &impl Abort,
    alloc: Global,
    split: S,
    told: u32,
    part: Option<u64>,
    expected: &[S::Item],
) -> Result<(), NoMemory> {
    let is_told = split.characteristics() == told;
    let is_sized = split.exact_size() == Some(expected.len() as u64);
    let mut whole = Vec::new(alloc);
    append(split, &mut whole)?;
    let mut cut = Vec::new(alloc);
    append_parts(split, &mut cut)?;
    let is_read = whole.as_slice() == expected && cut.as_slice() == expected;
    assert!(rt; is_told && is_sized && is_read && first_part(split) == part);
    Ok(())
}
