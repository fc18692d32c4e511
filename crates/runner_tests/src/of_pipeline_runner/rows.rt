//! Runs of files with few and many workers, at leaves of one item and of as many as are chosen.

use super::gates::Watch;
use super::{Case, check_watched};
use std::alloc::{AllocError, Global};
use std::process::Abort;
use std::random::RandomSource;
use std::test::Fail;
use std::thread::Threads;
use std::time::Clock;

pub const ONE: &[u8] = b"pipeline 1\n";

pub const TWO: &[u8] = b"pipeline 2\n";

/// The numbers of workers that each row runs with.
pub static WORKERS: [u32; 4] = [1, 2, 7, 64];

/// The targets that each row runs at: a leaf an item, several items a leaf, and the one that is chosen.
static TARGETS: [u64; 3] = [1, 3, 0];

/// Those of rows over long ranges: thousands of leaves, and the one that is chosen. At 1 each of 65,536 leaves adds up the counts of those before it.
pub static TARGETS_OF_LONG: [u64; 2] = [60, 0];

/// The lines behind the first one of a file, and behind `-> ` what is written of it, which ends a line, or told.
pub type Row<'a> = &'a str;

/// A row's lines, and its answer.
pub fn parts_of<'a>(row: Row<'a>) -> (&'a [u8], &'a str) {
    let (lines, wanted) = row.split_once("-> ").unwrap_or((row, ""));
    (lines.as_bytes(), wanted)
}

/// The bytes of a file.
pub fn file_of(alloc: Global, first: &[u8], lines: &[u8]) -> Result<Vec<u8>, AllocError> {
    let mut file = Vec::new(alloc);
    file.extend_from_slice(first)?;
    file.extend_from_slice(lines)?;
    Ok(file)
}

/// Behind each of the first lines each row of the tables has its answer with each number of workers at each target. Answers the gate that
/// counted the leaves.
pub fn all_right<R: Threads + Clock + RandomSource + Abort + Sync>(
    rt: &R,
    alloc: Global,
    firsts: &[&[u8]],
    tables: &[&[Row<'_>]],
) -> Result<Watch, Fail> {
    all_right_at(rt, alloc, &TARGETS, firsts, tables)
}

/// The same at these targets.
pub fn all_right_at<R: Threads + Clock + RandomSource + Abort + Sync>(
    rt: &R,
    alloc: Global,
    targets: &[u64],
    firsts: &[&[u8]],
    tables: &[&[Row<'_>]],
) -> Result<Watch, Fail> {
    let gate = Watch::new(false);
    for first in firsts {
        for rows in tables {
            for &target in targets {
                for &workers in &WORKERS {
                    right_at(rt, alloc, &gate, first, rows, (workers, target))?;
                }
            }
        }
    }
    Ok(gate)
}

/// Each row has its answer with so many workers at this target.
pub fn right_at<R: Threads + Clock + RandomSource + Abort + Sync>(
    rt: &R,
    alloc: Global,
    gate: &Watch,
    first: &[u8],
    rows: &[Row<'_>],
    settings: (u32, u64),
) -> Result<(), Fail> {
    for row in rows {
        let (lines, wanted) = parts_of(row);
        let file = file_of(alloc, first, lines)?;
        let case = Case::of(file.as_slice(), settings.0, settings.1);
        answers(rt, alloc, &case, gate, wanted)?;
    }
    Ok(())
}

/// A whole file has its answer with each number of workers at each target.
pub fn is_right<R: Threads + Clock + RandomSource + Abort + Sync>(
    rt: &R,
    alloc: Global,
    file: &[u8],
    wanted: &str,
) -> Result<(), Fail> {
    let gate = Watch::new(false);
    for &target in &TARGETS {
        for &workers in &WORKERS {
            answers(rt, alloc, &Case::of(file, workers, target), &gate, wanted)?;
        }
    }
    Ok(())
}

/// Asserts the answer of a run: a text that ends a line is written, any other one told.
fn answers<R: Threads + Clock + RandomSource + Abort + Sync>(
    rt: &R,
    alloc: Global,
    case: &Case<'_>,
    gate: &Watch,
    wanted: &str,
) -> Result<(), Fail> {
    if wanted.ends_with("\n") {
        check_watched(rt, alloc, case, gate, "", wanted)
    } else {
        check_watched(rt, alloc, case, gate, wanted, "")
    }
}
