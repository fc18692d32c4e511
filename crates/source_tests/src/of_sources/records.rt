//! Rows over a record of which nothing is asked.
use super::rows::tells;
use super::{check_row, walks};
use crate::reading::read;
use sources::RowsSplit;
use spliterator::{NoMemory, Row, Spliterator};
use std::alloc::Global;
use std::process::Abort;

/// A record with no `==`, no order and no clone.
struct Entry {
    number: i64,
}

static ENTRIES: [Entry; 3] = [
    Entry { number: 7 },
    Entry { number: 8 },
    Entry { number: 9 },
];

static NUMBERS: [i64; 3] = [7, 8, 9];

/// Whether the rows are those of entries of these numbers.
fn are(rows: &[Row<Entry>], numbers: &[i64]) -> bool {
    let mut are_right = rows.len() == numbers.len();
    for (row, number) in rows.iter().zip(numbers) {
        are_right = are_right && row.0.number == *number;
    }
    are_right
}

/// Checks the part and the rest of a split, where `None` stands for no part.
fn check_split(
    rt: &impl Abort,
    alloc: Global,
    mut rest: RowsSplit<Entry>,
    part: Option<&[i64]>,
    numbers: &[i64],
) -> Result<(), NoMemory> {
    let is_part = match (rest.try_split(), part) {
        (Some(found), Some(wanted)) => are(read(alloc, found)?.as_slice(), wanted),
        (found, wanted) => found.is_none() && wanted.is_none(),
    };
    assert!(rt; is_part && are(read(alloc, rest)?.as_slice(), numbers));
    Ok(())
}

/// How many entries there are, and the part and the rest of their split.
static SPLITS: [(usize, Option<&[i64]>, &[i64]); 4] = [
    (0, None, &[]),
    (1, None, &[7]),
    (2, Some(&[7]), &[8]),
    (3, Some(&[7]), &[8, 9]),
];

#[test]
fn rows_of_any_type_are_split_and_read(rt: HostRuntime) -> Result<(), NoMemory> {
    for &(number, part, rest) in &SPLITS {
        let (rows, numbers) = (RowsSplit::new(&ENTRIES[..number]), &NUMBERS[..number]);
        check_row(&rt, number as u64, tells(&rows, 0x4550, number as u64));
        check_split(&rt, rt.alloc(), rows, part, rest)?;
        walks::check_by(
            &rt,
            rt.alloc(),
            rows,
            number,
            |rows: &[Row<Entry>]| are(rows, numbers),
        )?;
    }
    Ok(())
}
