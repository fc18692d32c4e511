//! A result on all values, or the error of the first item that has failed.
use super::cuts::of_parts;
use collectors::SummingLong;
use derived_collectors::{Deciding, Trying, UpToError};
use spliterator::NoMemory;
use stages::Sink;
use std::alloc::Global;
use stream_functions::Itself;

/// Items that may have failed, and their sum, or the first error.
static ROWS: [(&[Result<i64, u8>], Result<i64, u8>); 6] = [
    (&[], Ok(0)),
    (&[Ok(5), Ok(2), Ok(7)], Ok(14)),
    (&[Err(3)], Err(3)),
    (&[Ok(5), Err(3), Err(4)], Err(3)),
    (&[Err(4), Ok(2), Err(3), Ok(7)], Err(4)),
    (&[Ok(5), Ok(2), Err(9)], Err(9)),
];

#[test]
fn a_sum_of_all_or_the_first_error(rt: HostRuntime) -> Result<(), NoMemory> {
    let sum = Trying::<_, u8>::new(SummingLong::<i64, _>::new(Itself));
    for &(items, wanted) in &ROWS {
        for cut in 0..=items.len() {
            let (left, right) = items.split_at(cut);
            assert!(&rt; of_parts(&sum, left, right)? == wanted);
        }
    }
    Ok(())
}

#[test]
fn an_item_that_has_failed_decides(rt: HostRuntime) -> Result<(), NoMemory> {
    let sum = Trying::<_, u8>::new(SummingLong::<i64, _>::new(Itself));
    assert!(&rt; sum.is_decisive(&Err(3)) && !sum.is_decisive(&Ok(3)));
    Ok(())
}

/// How many values stand in front of the first item that has failed, and its error.
static HANDED: [(&[Result<i64, u8>], usize, Result<(), u8>); 4] = [
    (&[], 0, Ok(())),
    (&[Ok(5), Ok(2), Ok(7)], 3, Ok(())),
    (&[Err(3), Ok(5)], 0, Err(3)),
    (&[Ok(5), Ok(2), Err(4), Ok(7), Err(3)], 2, Err(4)),
];

/// Hands items over one by one, also where the sink is full.
fn hand(
    alloc: Global,
    items: &[Result<i64, u8>],
) -> Result<(Vec<i64>, bool, Result<(), u8>), NoMemory> {
    let mut values = Vec::new(alloc);
    let mut tried = UpToError::new(&mut values);
    for item in items {
        tried.take(*item)?;
    }
    let is_full = tried.is_full();
    let ended = tried.ended();
    Ok((values, is_full, ended))
}

#[test]
fn the_values_in_front_of_the_first_error_are_handed_over(rt: HostRuntime) -> Result<(), NoMemory> {
    for &(items, number, wanted) in &HANDED {
        let (values, is_full, ended) = hand(rt.alloc(), items)?;
        let mut front = items.iter().zip(values.as_slice());
        assert!(&rt; values.len() == number && ended == wanted && is_full == wanted.is_err());
        assert!(&rt; front.all(|(item, value)| *item == Ok(*value)));
    }
    Ok(())
}
