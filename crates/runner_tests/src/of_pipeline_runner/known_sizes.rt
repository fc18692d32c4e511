//! Counts that are known from the source's size run no leaf.

use super::rows::{Row, TWO, all_right};
use pipeline_language::{ClosedRange, NumberSource, OpenRange};
use pipeline_value::source_size;
use std::process::Abort;
use std::test::Fail;

static RANGES: [Row<'_>; 8] = [
    "range 7 3\ncount\n-> 0\n",
    "range -4 0\nskip 2\ncount\n-> 2\n",
    "range -1 0\nskip 2\ncount\n-> 0\n",
    "range 0 100\nskip 2\nmap negate\nlimit 5\ncount\n-> 5\n",
    "range 0 6\nskip 2\nmap negate\nlimit 5\ncount\n-> 4\n",
    "range 0 100\nskip 2\nmap negate\nlimit 5\nskip 3\nmap negate\nlimit 9\ncount\n-> 2\n",
    "range 0 4\nskip 2\nmap negate\nlimit 5\nskip 3\nmap negate\nlimit 9\ncount\n-> 0\n",
    "range 0 100\nlimit 0\ncount\n-> 0\n",
];

static LISTS: [Row<'_>; 7] = [
    "closed 1 5\ncount\n-> 5\n",
    "closed 5 4\ncount\n-> 0\n",
    "numbers 4 4 4\nskip 1\ncount\n-> 2\n",
    "lines 3\na\nbc\n\nskip 1\nmap self\ncount\n-> 2\n",
    "lines 3\na\nbc\n\nskip 1\nmap self\nlimit 1\ncount\n-> 1\n",
    "lines 3\na\nbc\n\nskip 1\nmap self\nlimit 1\nmap length\nskip 1\ncount\n-> 0\n",
    "lines 3\na\nbc\n\nskip 1\nmap self\nlimit 1\nmap length\ncount\n-> 1\n",
];

static NOT_KNOWN: [Row<'_>; 1] = ["range 0 10\nskip 1\nfilter divisible 4\ncount\n-> 2\n"];

#[test]
fn run_no_leaf(rt: HostRuntime) -> Result<(), Fail> {
    let gate = all_right(&rt, rt.alloc(), &[TWO], &[&RANGES, &LISTS])?;
    assert!(rt; gate.calls() == (0, 0, 0));
    Ok(())
}

#[test]
fn behind_a_filter_run_leaves(rt: HostRuntime) -> Result<(), Fail> {
    let gate = all_right(&rt, rt.alloc(), &[TWO], &[&NOT_KNOWN])?;
    assert!(rt; gate.calls().0 > 0);
    Ok(())
}

/// A source's size.
fn has_size<R: Abort>(rt: &R, source: NumberSource, wanted: u64) -> Result<(), Fail> {
    assert_eq!(rt; source_size(&source), wanted);
    Ok(())
}

#[test]
fn sources_have_sizes(rt: HostRuntime) -> Result<(), Fail> {
    let end = 4_611_686_018_427_387_902;
    for (range, wanted) in [
        (OpenRange { start: 3, end: 10 }, 7),
        (OpenRange { start: 7, end: 3 }, 0),
        (OpenRange { start: -2, end }, 4_611_686_018_427_387_904),
    ] {
        has_size(&rt, NumberSource::Range(range), wanted)?;
    }
    let last = i64::MAX;
    for (range, wanted) in [
        (ClosedRange { start: 3, last: 10 }, 8),
        (ClosedRange { start: 10, last: 9 }, 0),
        (ClosedRange { start: last, last }, 1),
    ] {
        has_size(&rt, NumberSource::Closed(range), wanted)?;
    }
    let numbers = Vec::from_slice(rt.alloc(), &[5, 1, 5])?;
    has_size(&rt, NumberSource::Numbers(numbers), 3)
}
