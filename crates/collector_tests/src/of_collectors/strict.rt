//! Strict maps: the key of the earliest item whose key came before.
use super::cuts::check;
use super::parted::{check_groups, check_strict};
use collectors::{DuplicateKey, ToMapStrict};
use spliterator::NoMemory;
use std::alloc::AllocError;
use std::hash::RandomState;
use std::test::Fail;
use stream_functions::{Itself, Length, Modulo, Times};

/// The number by which the keys are remainders, that by which the values are products, and rows. 1 is the first key that is there twice, and 2
/// the first that comes again.
static NUMBERS: [(i64, i64, &[(&[i64], &str)]); 3] = [
    (
        1000,
        1,
        &[
            (&[1, 2, 2, 1], "duplicate key 2"),
            (&[2, 2, 1, 1], "duplicate key 2"),
            (&[], "{}"),
        ],
    ),
    (10, 1, &[(&[1, 2, 3, 4, 3, 1], "duplicate key 3")]),
    (1000, -1, &[(&[1, 2], "{1=-1, 2=-2}")]),
];

#[test]
fn strict_maps_of_numbers(rt: HostRuntime) -> Result<(), NoMemory> {
    let alloc = rt.alloc();
    for &(number, factor, rows) in &NUMBERS {
        assert!(rt; number > 0);
        check_strict(&rt, alloc, Modulo::by(number), Times(factor), rows)?;
    }
    Ok(())
}

static BY_LENGTH: [(&[&str], &str); 2] = [
    (&["ab", "cd"], "duplicate key 2"),
    (&["ab", "c"], "{2=ab, 1=c}"),
];

static LENGTHS: [(&[&str], &str); 1] = [(&["ab", "c", "ab"], "duplicate key ab")];

#[test]
fn strict_maps_of_texts(rt: HostRuntime) -> Result<(), Fail> {
    let alloc = rt.alloc();
    let hashes = RandomState::new(&rt)?;
    let lengths = ToMapStrict::<&str, _, _, _>::with_hasher(alloc, Itself, Length, hashes);
    check_strict(&rt, alloc, Length, Itself, &BY_LENGTH).and(check(&rt, alloc, lengths, &LENGTHS))?;
    Ok(())
}

static GROUPS: [(&[i64], &str); 1] = [(&[1, 2, 13, 12, 22], "{1={1=1, 3=13}, 0=duplicate key 2}")];

#[test]
fn strict_maps_of_groups(rt: HostRuntime) -> Result<(), NoMemory> {
    let alloc = rt.alloc();
    let strict = ToMapStrict::<i64, _, _>::new(alloc, Modulo::by(10), Itself);
    check_groups(&rt, alloc, Modulo::by(2), strict, &GROUPS)
}

#[test]
fn a_duplicate_key_has_a_text(rt: HostRuntime) -> Result<(), AllocError> {
    let text = format!(in rt.alloc(); "{}", DuplicateKey { key: 3 })?;
    assert!(rt; text.as_str() == "duplicate key 3");
    Ok(())
}
