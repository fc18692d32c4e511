//! Beginnings of a file, and files around the most bytes that one may have.

use super::rows::is_right;
use super::{Case, check};
use std::test::Fail;

const FILE: &[u8] = b"pipeline 1\nlines 2\na b\nc\nflatmap words\njoining - < >\n";

/// The file's beginnings by their least and most bytes, and what is written or told of each.
static BEGINNINGS: [(usize, usize, &str); 19] = [
    (0, 9, "line 1: BAD_VERSION"),
    (10, 11, "line 2: MISSING_TERMINAL"),
    (12, 15, "line 2: UNKNOWN_WORD"),
    (16, 16, "line 2: BAD_ARITY"),
    (17, 17, "line 2: BAD_NUMBER"),
    (18, 19, "line 3: MISSING_TERMINAL"),
    (20, 23, "line 4: MISSING_TERMINAL"),
    (24, 25, "line 5: MISSING_TERMINAL"),
    (26, 31, "line 5: UNKNOWN_WORD"),
    (32, 32, "line 5: BAD_ARITY"),
    (33, 37, "line 5: UNKNOWN_WORD"),
    (38, 39, "line 6: MISSING_TERMINAL"),
    (40, 45, "line 6: UNKNOWN_WORD"),
    (46, 46, "line 6: BAD_ARITY"),
    (47, 47, "abc\n"),
    (48, 48, "a-b-c\n"),
    (49, 50, "line 6: BAD_ARITY"),
    (51, 51, "<a-b-c\n"),
    (52, 53, "<a-b-c>\n"),
];

#[test]
fn answers_each_beginning(rt: HostRuntime) -> Result<(), Fail> {
    for &(least, most, wanted) in &BEGINNINGS {
        for size in least..=most {
            assert!(rt; size <= FILE.len());
            is_right(&rt, rt.alloc(), &FILE[..size], wanted)?;
        }
    }
    Ok(())
}

/// The bytes of a file of line ends, and what is told of it.
static AROUND_THE_LIMIT: [(usize, &str); 2] = [
    (1_048_576, "line 1: BAD_VERSION"),
    (1_048_577, "line 0: TOO_LARGE"),
];

#[test]
fn reads_to_the_limit(rt: HostRuntime) -> Result<(), Fail> {
    for &(size, told) in &AROUND_THE_LIMIT {
        let file = "\n".repeat(rt.alloc(), size)?;
        is_right(&rt, rt.alloc(), file.as_bytes(), told)?;
    }
    Ok(())
}

/// The bytes of line ends that are given before a read fails, how many reads give them, and what is told.
static CUT_OFF: [(usize, u64, &str); 4] = [
    (1_048_575, 16, "read failed"),
    (1_048_576, 16, "read failed"),
    (1_048_577, 17, "line 0: TOO_LARGE"),
    (1_048_578, 17, "line 0: TOO_LARGE"),
];

#[test]
fn reads_no_further(rt: HostRuntime) -> Result<(), Fail> {
    for &(size, reads, told) in &CUT_OFF {
        let file = "\n".repeat(rt.alloc(), size)?;
        let case = Case {
            read_fails: reads + 1,
            ..Case::of(file.as_bytes(), 4, 0)
        };
        check(&rt, rt.alloc(), &case, told, "")?;
    }
    Ok(())
}
