//! Files that have a fault, each with the line that is told.

use super::rows::{ONE, Row, TWO, all_right, file_of, is_right};
use std::test::Fail;

/// Faults of a whole file, by its lines behind the first one.
static OF_FILES: [Row<'_>; 9] = [
    "-> line 2: MISSING_TERMINAL",
    "range 0 3\n-> line 3: MISSING_TERMINAL",
    "lines 1\nx\n-> line 4: MISSING_TERMINAL",
    "lines 5\na\n-> line 4: MISSING_TERMINAL",
    "lines 1000000\nsum\n-> line 4: MISSING_TERMINAL",
    "range 0 3\nsum\nsum\n-> line 4: AFTER_TERMINAL",
    "numbers 1\ncount\n\n-> line 4: AFTER_TERMINAL",
    "lines 1\nx\nsum\n-> line 4: WRONG_KIND",
    "range 0 1\nsum\0-> line 3: UNKNOWN_WORD",
];

/// Faults of the source's line.
static OF_SOURCES: [Row<'_>; 7] = [
    "range 0 4611686018427387905\ncount\n-> line 2: RANGE_TOO_LONG",
    "range -9223372036854775808 9223372036854775807\ncount\n-> line 2: RANGE_TOO_LONG",
    "range 1\nsum\n-> line 2: BAD_ARITY",
    "range 1 6 \nsum\n-> line 2: BAD_ARITY",
    "range 1 06\nsum\n-> line 2: BAD_NUMBER",
    "numbers  1\nsum\n-> line 2: BAD_NUMBER",
    "lines 1000001\n-> line 2: BAD_NUMBER",
];

/// Faults of the lines behind the source.
static OF_LINES: [Row<'_>; 9] = [
    "range 0 10\nmap mull 3\nsum\n-> line 3: UNKNOWN_WORD",
    "range 0 10\nmap mul\nsum\n-> line 3: BAD_ARITY",
    "range 0 10\nmap mul 03\nsum\n-> line 3: BAD_NUMBER",
    "numbers 1\nmap mod 0\nsum\n-> line 3: BAD_NUMBER",
    "numbers 1 2\nfilter less x\nmap mul\nsum\n-> line 3: BAD_NUMBER",
    "numbers 1\ngroupby mod x counting y\n-> line 3: BAD_ARITY",
    "numbers 1\nteeing joining\n-> line 3: BAD_ARITY",
    "numbers 1\ntomap self self\n-> line 3: BAD_ARITY",
    "numbers 1\nteeing joining , sum\n-> line 3: WRONG_KIND",
];

/// Words of the second version, which the first has not.
static NOT_IN_THE_FIRST: [Row<'_>; 3] = [
    "numbers 1\ntomapstrict self self\n-> line 3: UNKNOWN_WORD",
    "numbers 1\ngroupby mod 2 groupby mod 3 counting\n-> line 3: UNKNOWN_WORD",
    "numbers 1\npartition less 3 mapping mul 10 tolist\n-> line 3: UNKNOWN_WORD",
];

/// Collectors of the second version, nested too deep or of the wrong items.
static NOT_IN_THE_SECOND: [Row<'_>; 2] = [
    "numbers 1\ngroupby mod 2 groupby mod 3 groupby mod 5 count\n-> line 3: UNKNOWN_WORD",
    "numbers 1\ngroupby self mapping length sum\n-> line 3: WRONG_KIND",
];

/// Whole files: bad first lines, and beginnings of a file of 25 bytes.
static WHOLE: [Row<'_>; 11] = [
    "-> line 1: BAD_VERSION",
    "pipeline 1\r\nrange 1 6\nsum\n-> line 1: BAD_VERSION",
    "pipeline 3\nrange 1 6\nsum\n-> line 1: BAD_VERSION",
    "pipeline 1-> line 2: MISSING_TERMINAL",
    "pipeline 1\nrange 1-> line 2: BAD_ARITY",
    "pipeline 1\nrange 1 -> line 2: BAD_NUMBER",
    "pipeline 1\nrange 1 6-> line 3: MISSING_TERMINAL",
    "pipeline 1\nrange 1 6\n-> line 3: MISSING_TERMINAL",
    "pipeline 1\nrange 1 6\nsu-> line 3: UNKNOWN_WORD",
    "pipeline 1\nrange 1 6\nsum-> 15\n",
    "pipeline 1\nrange 1 6\nsum\n-> 15\n",
];

/// Bytes that are no text.
static NO_TEXTS: [(&[u8], &str); 2] = [
    (b"lines 1\n\xff\ncount\n", "line 3: BAD_TEXT"),
    (b"range 0 1\nsum\n\xff", "line 4: BAD_TEXT"),
];

#[test]
fn are_told(rt: HostRuntime) -> Result<(), Fail> {
    let alloc = rt.alloc();
    let tables = [
        OF_FILES.as_slice(),
        OF_SOURCES.as_slice(),
        OF_LINES.as_slice(),
    ];
    all_right(&rt, alloc, &[ONE, TWO], &tables)?;
    all_right(&rt, alloc, &[ONE], &[&NOT_IN_THE_FIRST])?;
    all_right(&rt, alloc, &[TWO], &[&NOT_IN_THE_SECOND])?;
    all_right(&rt, alloc, &[b""], &[&WHOLE])?;
    for first in [ONE, TWO] {
        for &(lines, told) in &NO_TEXTS {
            is_right(&rt, alloc, file_of(alloc, first, lines)?.as_slice(), told)?;
        }
    }
    Ok(())
}

#[test]
fn of_the_stage_line_above_the_most(rt: HostRuntime) -> Result<(), Fail> {
    let alloc = rt.alloc();
    for &(stages, wanted) in &[(32, "0\n"), (33, "line 35: TOO_MANY_STAGES")] {
        let stages = "map self\n".repeat(alloc, stages)?;
        let file = format!(in alloc; "pipeline 1\nrange 0 1\n{stages}sum\n")?;
        is_right(&rt, alloc, file.as_bytes(), wanted)?;
    }
    Ok(())
}
