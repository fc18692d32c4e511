//! Copies of a value, and a value that may be absent.
use super::told::check;
use sources::{CopiesSplit, SliceSplit};
use spliterator::{NoMemory, Spliterator};
use std::alloc::AllocError;

/// A number, how many times, how many of them are the first part's, and the copies.
static COPIES: [(i64, u64, Option<u64>, &[i64]); 4] = [
    (7, 0, None, &[]),
    (7, 1, None, &[7]),
    (-2, 3, Some(1), &[-2, -2, -2]),
    (0, 4, Some(2), &[0, 0, 0, 0]),
];

#[test]
fn a_value_is_copied_so_many_times(rt: HostRuntime) -> Result<(), NoMemory> {
    for &(value, number, part, copies) in &COPIES {
        check(
            &rt,
            rt.alloc(),
            CopiesSplit::new(&value, number),
            0x4550,
            part,
            copies,
        )?;
    }
    Ok(())
}

/// More copies than an estimate can say have no size.
#[test]
fn copies_tell_the_size_that_an_estimate_can_say(rt: HostRuntime) {
    let most = CopiesSplit::new(&7, 9_223_372_036_854_775_807).exact_size();
    let more = CopiesSplit::new(&7, 9_223_372_036_854_775_808).exact_size();
    assert!(rt; most == Some(9_223_372_036_854_775_807) && more.is_none());
}

/// With its clone refused, an advance gives no item, and the next one gives it.
#[test]
fn a_text_is_copied_or_refused(rt: HostRuntime) -> Result<(), AllocError> {
    let text = String::from_str(rt.alloc(), "two")?;
    let mut copies = CopiesSplit::new(&text, 2);
    if copies.try_advance().is_err() {
        assert!(rt; copies.exact_size() == Some(2));
    }
    Ok(())
}

/// A number that may be absent, and the items.
static OPTIONS: [(Option<i64>, &[i64]); 2] = [(None, &[]), (Some(7), &[7])];

#[test]
fn what_may_be_absent_is_one_item_or_none(rt: HostRuntime) -> Result<(), NoMemory> {
    for (value, items) in &OPTIONS {
        let split = SliceSplit::new(value.as_slice());
        check(&rt, rt.alloc(), split, 0x4550, None, *items)?;
    }
    Ok(())
}
