//! Faults of files, and the lines that they are told at.

use super::{first_wrong, told};
use file_words::{FileError, FileFault, ReadError};
use pipeline_language::one_reading;
use std::test::Fail;

/// The first lines of the two versions.
static VERSIONS: [&[u8]; 2] = [b"pipeline 1\n", b"pipeline 2\n"];

/// Files with a fault in their first line, or nothing behind it.
static FIRST_LINES: [&str; 8] = [
    "pipeline 1\r\nrange 0 1\nsum\n-> line 1: BAD_VERSION",
    "pipeline 2\r\nrange 0 1\nsum\n-> line 1: BAD_VERSION",
    "pipeline 2 \nrange 0 1\nsum\n-> line 1: BAD_VERSION",
    "pipeline  2\nrange 0 1\nsum\n-> line 1: BAD_VERSION",
    "pipeline 12\nrange 0 1\nsum\n-> line 1: BAD_VERSION",
    "pipeline 3\nrange 0 1\nsum\n-> line 1: BAD_VERSION",
    "pipeline\nrange 0 1\nsum\n-> line 1: BAD_VERSION",
    "pipeline 2-> line 2: MISSING_TERMINAL",
];

#[test]
fn tells_the_faults_of_a_first_line(rt: HostRuntime) -> Result<(), Fail> {
    one_reading();
    assert_eq!(rt; first_wrong(rt.alloc(), b"", &FIRST_LINES)?, None);
    assert!(rt; told(rt.alloc(), b"\xff")?.as_str() == "line 1: BAD_TEXT");
    Ok(())
}

/// Source lines with what follows them.
static SOURCES: [&str; 9] = [
    "\n-> line 2: UNKNOWN_WORD",
    "numbers 1 -0\nsum\n-> line 2: BAD_NUMBER",
    "numbers +1\nsum\n-> line 2: BAD_NUMBER",
    "range 0 9223372036854775808\ncount\n-> line 2: BAD_NUMBER",
    "numbers\nproduct\n-> read",
    "closed 9223372036854775807 9223372036854775807\ncount\n-> read",
    "range 0 4611686018427387904\ncount\n-> read",
    "lines 0\njoining , [ ]\n-> read",
    "lines 1\né\nmap length\nsum\n-> read",
];

/// Files with a fault in their stages or their terminal, and the fault.
static BODY_FAULTS: [&str; 8] = [
    "range 0 10\nflatmap repeat 1001\nsum\n-> line 3: BAD_NUMBER",
    "range 0 10\nlimit -1\nsum\n-> line 3: BAD_NUMBER",
    "range 0 10\nfilter divisible 0\nsum\n-> line 3: BAD_NUMBER",
    "numbers 1\ngroupby mod x average\n-> line 3: UNKNOWN_WORD",
    "lines 1\nx\njoining a b\n-> line 4: BAD_ARITY",
    "lines 1\nx\ntomap self self sum\n-> line 4: WRONG_KIND",
    "lines 1\nx\nmap length\nmap length\nsum\n-> line 5: WRONG_KIND",
    "numbers 1\nflatmap words\ncount\n-> line 3: WRONG_KIND",
];

#[test]
fn tells_the_faults_of_a_source_and_of_a_body(rt: HostRuntime) -> Result<(), Fail> {
    for &first_line in &VERSIONS {
        assert_eq!(rt; first_wrong(rt.alloc(), first_line, &SOURCES)?, None);
        assert_eq!(rt; first_wrong(rt.alloc(), first_line, &BODY_FAULTS)?, None);
    }
    Ok(())
}

/// Lines behind 32 stages.
static BEHIND_STAGES: [&str; 6] = [
    "sum\n-> read",
    "map self\nsum\n-> line 35: TOO_MANY_STAGES",
    "map mul 03\nsum\n-> line 35: BAD_NUMBER",
    "map mul\nsum\n-> line 35: BAD_ARITY",
    "map length\nsum\n-> line 35: WRONG_KIND",
    "map size\nsum\n-> line 35: UNKNOWN_WORD",
];

#[test]
fn counts_the_stages(rt: HostRuntime) -> Result<(), Fail> {
    let stages = "map self\n".repeat(rt.alloc(), 32)?;
    for version in [1, 2] {
        let front = format!(in rt.alloc(); "pipeline {version}\nrange 0 1\n{stages}")?;
        assert_eq!(rt;
            first_wrong(rt.alloc(), front.as_bytes(), &BEHIND_STAGES)?,
            None
        );
    }
    Ok(())
}

/// Each fault with its name.
static NAMES: [(FileError, &str); 11] = [
    (FileError::BadText, "BAD_TEXT"),
    (FileError::TooLarge, "TOO_LARGE"),
    (FileError::BadVersion, "BAD_VERSION"),
    (FileError::UnknownWord, "UNKNOWN_WORD"),
    (FileError::BadArity, "BAD_ARITY"),
    (FileError::BadNumber, "BAD_NUMBER"),
    (FileError::WrongKind, "WRONG_KIND"),
    (FileError::RangeTooLong, "RANGE_TOO_LONG"),
    (FileError::MissingTerminal, "MISSING_TERMINAL"),
    (FileError::AfterTerminal, "AFTER_TERMINAL"),
    (FileError::TooManyStages, "TOO_MANY_STAGES"),
];

#[test]
fn names_each_fault(rt: HostRuntime) -> Result<(), Fail> {
    let alloc = rt.alloc();
    for &(kind, name) in &NAMES {
        assert!(rt; kind.name() == name && kind.to_string(alloc)?.as_str() == name);
    }
    let fault = FileFault {
        line: 18_446_744_073_709_551_615,
        kind: FileError::BadText,
    };
    let text = "line 18446744073709551615: BAD_TEXT";
    assert!(rt; fault.to_string(alloc)?.as_str() == text);
    assert!(rt; ReadError::Fault(fault).to_string(alloc)?.as_str() == text);
    assert!(rt; ReadError::NoMemory.to_string(alloc)?.as_str() == "out of memory");
    Ok(())
}
