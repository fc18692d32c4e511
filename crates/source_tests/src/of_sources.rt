mod ascending;
mod maps;
mod no_size;
mod own_items;
mod records;
mod rows;
mod steps;
mod told;
mod values;
pub mod walks;

use either::Either;
use sources::{RangeSplit, RangeTooLong, SliceSplit};
use std::alloc::{AllocError, Global};
use std::collections::VecDeque;
use std::process::Abort;

/// A range or a slice of numbers: one type for the rows of both.
type Side<'a> = Either<RangeSplit, SliceSplit<'a, i64>>;

/// The numbers from one to another, with the last or without it.
fn range((is_closed, from, to): (bool, i64, i64)) -> Result<RangeSplit, RangeTooLong> {
    if is_closed {
        RangeSplit::closed(from, to)
    } else {
        RangeSplit::range(from, to)
    }
}

/// Checks a row of a table, which a number tells from the others.
fn check_row(rt: &impl Abort, number: u64, holds: bool) {
    assert!(rt; holds, "row {number}");
}

/// A deque of the numbers 1 to 3 whose storage wraps: its front was put before what was there.
fn wrapped(alloc: Global) -> Result<VecDeque<i64>, AllocError> {
    let mut queue = VecDeque::new(alloc);
    queue.push_back(2)?;
    queue.push_back(3)?;
    queue.push_front(1)?;
    Ok(queue)
}
