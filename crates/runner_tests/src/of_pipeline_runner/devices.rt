//! Each read, write and flush failing once in turn.

use super::{Case, check};
use std::test::Fail;

/// 45 bytes: 11 reads of 4, one of 1, and one that finds the end. Its answer is `[3, 1, 2]` and a line end, 10 bytes.
const LIST: &[u8] = b"pipeline 1\nnumbers 3 1 3 2 1\ndistinct\ntolist\n";

/// 25 bytes: 6 reads of 4, one of 1, and one that finds the end.
const FAULTY: &[u8] = b"pipeline 1\nlines 1\nx\nsum\n";

/// 21 bytes: 5 reads of 4, one of 1, and one that finds the end.
const UNENDED: &[u8] = b"pipeline 1\nlines 1\nx\n";

/// The input's file, how often it is read, and what is told and written where no read fails.
static READ: [(&[u8], u64, &str, &str); 4] = [
    (LIST, 13, "", "[3, 1, 2]\n"),
    (FAULTY, 8, "line 4: WRONG_KIND", ""),
    (UNENDED, 7, "line 4: MISSING_TERMINAL", ""),
    (b"pipe", 2, "line 1: BAD_VERSION", ""),
];

#[test]
fn tells_each_failed_read(rt: HostRuntime) -> Result<(), Fail> {
    for &(file, reads, told, written) in &READ {
        for read_fails in 0..=reads {
            let case = Case {
                read_step: 4,
                read_fails,
                ..Case::of(file, 4, 0)
            };
            let (told, written) = if read_fails > 0 {
                ("read failed", "")
            } else {
                (told, written)
            };
            check(&rt, rt.alloc(), &case, told, written)?;
        }
    }
    Ok(())
}

/// The input's file, the bytes of a write, the write or flush that fails, and what is told and written.
static WRITTEN: [(&[u8], usize, u64, &str, &str); 11] = [
    (LIST, 3, 1, "write failed", ""),
    (LIST, 3, 2, "write failed", "[3,"),
    (LIST, 3, 3, "write failed", "[3, 1,"),
    (LIST, 3, 4, "write failed", "[3, 1, 2]"),
    // the flush
    (LIST, 3, 5, "write failed", "[3, 1, 2]\n"),
    (LIST, 100, 2, "write failed", "[3, 1, 2]\n"),
    (LIST, 3, 0, "", "[3, 1, 2]\n"),
    (LIST, 1, 0, "", "[3, 1, 2]\n"),
    // a write that takes none
    (LIST, 0, 0, "write failed", ""),
    // a fault writes nothing
    (FAULTY, 100, 1, "line 4: WRONG_KIND", ""),
    (UNENDED, 100, 1, "line 4: MISSING_TERMINAL", ""),
];

#[test]
fn tells_each_failed_write(rt: HostRuntime) -> Result<(), Fail> {
    for &(file, write_step, write_fails, told, written) in &WRITTEN {
        let case = Case {
            write_step,
            write_fails,
            ..Case::of(file, 4, 0)
        };
        check(&rt, rt.alloc(), &case, told, written)?;
    }
    Ok(())
}
