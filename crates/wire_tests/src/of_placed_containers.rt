//! Parts that are shuffled, told twice, joined on the way, lost, or of another job.
ghost use Rattle.spliterator.specs.Clones.{ClonesAlike};

use collectors::{ToList, fold_items};
use placed_containers::{Job, PartsError, Places};
use std::alloc::Global;
use std::process::Abort;

/// The places of parts of ten numbers, as their lines come, and the places that are missing.
type Row<'a> = (&'a [(u64, u64)], &'a [(u64, u64)]);

static NUMBERS: [i64; 10] = [0, 1, 2, 3, 4, 5, 6, 7, 8, 9];

static ROWS: [Row<'static>; 10] = [
    (&[(0, 10)], &[]),
    (&[(0, 3), (3, 7), (7, 10)], &[]),
    (&[(7, 10), (0, 3), (3, 7)], &[]),
    (&[(3, 7), (0, 3), (3, 7), (7, 10), (0, 3)], &[]),
    (&[(0, 7), (3, 7), (0, 3), (7, 10)], &[]),
    (&[(10, 10), (0, 0), (5, 5), (0, 10)], &[]),
    (&[(0, 3), (7, 10)], &[(3, 7)]),
    (&[(3, 7)], &[(0, 3), (7, 10)]),
    (&[(0, 0)], &[(0, 10)]),
    (&[(0, 5), (3, 10)], &[(5, 10)]),
];

/// The line of the numbers between two places of ten.
fn line_of(
    alloc: Global,
    job: &Job<'_, ToList<i64>>,
    from: u64,
    to: u64,
) -> Result<String, PartsError> {
    let items = NUMBERS.get(from as usize..to as usize).unwrap_or_default();
    let container = fold_items(job.collector, items)?;
    job.part_line(alloc, Places { from, to, of: 10 }, container)
}

/// The lines as they are lent.
fn lent<'a>(alloc: Global, lines: &'a [String]) -> Result<Vec<&'a str>, PartsError> {
    let mut texts = Vec::with_capacity(alloc, lines.len())?;
    for line in lines {
        texts.push(line.as_str())?;
    }
    Ok(texts)
}

/// Whether the lines have the answer, or these gaps.
fn ends_so<R: Abort>(
    rt: &R,
    alloc: Global,
    job: &Job<'_, ToList<i64>>,
    lines: &[String],
    gaps: &[(u64, u64)],
) -> Result<(), PartsError> {
    match job.finish_parts(alloc, lent(alloc, lines)?.as_slice()) {
        Ok(numbers) => {
            assert!(rt; gaps.is_empty());
            assert!(rt; numbers.as_slice() == NUMBERS.as_slice());
        }
        Err(PartsError::Missing(missing)) => {
            assert!(rt; missing.gaps.len() == gaps.len());
            for (gap, &(from, to)) in missing.gaps.iter().zip(gaps) {
                assert!(rt; *gap == Places { from, to, of: 10 });
            }
        }
        Err(error) => return Err(error),
    }
    Ok(())
}

#[test]
fn parts_in_any_order_and_in_any_groups(rt: HostRuntime) -> Result<(), PartsError> {
    let alloc = rt.alloc();
    let list = ToList::<i64>::new(alloc);
    let job = Job {
        name: "numbers",
        collector: &list,
    };
    for &(parts, gaps) in &ROWS {
        let mut lines = Vec::with_capacity(alloc, parts.len())?;
        for &(from, to) in parts {
            lines.push(line_of(alloc, &job, from, to)?)?;
        }
        ends_so(&rt, alloc, &job, lines.as_slice(), gaps)?;
        let texts = lent(alloc, lines.as_slice())?;
        for cut in 0..=texts.len() {
            let (left, right) = texts.as_slice().split_at(cut);
            let mut joined = job.combine_parts(alloc, right)?;
            for line in job.combine_parts(alloc, left)? {
                joined.push(line)?;
            }
            ends_so(&rt, alloc, &job, joined.as_slice(), gaps)?;
        }
    }
    Ok(())
}

/// Parts that overlap or are empty, how many lines tell of them once they are joined, and the places that are missing.
type Overlap<'a> = (&'a [(u64, u64)], usize, &'a [(u64, u64)]);

static OVERLAPS: [Overlap<'static>; 11] = [
    (&[(0, 5), (0, 7), (5, 10)], 3, &[]),
    (&[(0, 4), (4, 6), (4, 10)], 3, &[]),
    (&[(0, 6), (2, 6), (6, 10)], 3, &[]),
    (&[(0, 3), (3, 6), (6, 8), (6, 8), (8, 10), (0, 3)], 1, &[]),
    (&[(0, 0), (0, 5), (5, 5), (5, 10), (10, 10)], 1, &[]),
    (&[(5, 5), (0, 0)], 1, &[(0, 10)]),
    (&[(0, 5), (3, 10)], 2, &[(5, 10)]),
    (&[(2, 5), (2, 3), (5, 7)], 2, &[(0, 2), (7, 10)]),
    (
        &[(1, 2), (2, 3), (5, 6), (6, 7)],
        2,
        &[(0, 1), (3, 5), (7, 10)],
    ),
    (&[(0, 7), (3, 7), (3, 3)], 2, &[(7, 10)]),
    (&[(0, 2), (2, 10), (0, 9), (9, 10)], 4, &[]),
];

#[test]
fn parts_that_overlap(rt: HostRuntime) -> Result<(), PartsError> {
    let alloc = rt.alloc();
    let list = ToList::<i64>::new(alloc);
    let job = Job {
        name: "numbers",
        collector: &list,
    };
    for &(parts, number, gaps) in &OVERLAPS {
        let mut lines = Vec::with_capacity(alloc, parts.len())?;
        for &(from, to) in parts {
            lines.push(line_of(alloc, &job, from, to)?)?;
        }
        ends_so(&rt, alloc, &job, lines.as_slice(), gaps)?;
        let joined = job.combine_parts(alloc, lent(alloc, lines.as_slice())?.as_slice())?;
        assert!(&rt; joined.len() == number);
        ends_so(&rt, alloc, &job, joined.as_slice(), gaps)?;
    }
    Ok(())
}

/// Lines, and what is said of them.
type Refused<'a> = (&'a [&'a str], &'a str);

static REFUSED: [Refused<'static>; 12] = [
    (&[], "no part came: hand in at least one line"),
    (
        &["x"],
        "line 1 is no JSON: hand in each line as it was written",
    ),
    (
        &["7"],
        "line 1 is no part of this version: write it again by this program",
    ),
    (
        &["[]"],
        "line 1 is no part of this version: write it again by this program",
    ),
    (
        &[r#"["parts",2,"numbers",0,1,1,[0]]"#],
        "line 1 is no part of this version: write it again by this program",
    ),
    (
        &[r#"["part",1,"numbers",0,1,1,[0]]"#],
        "line 1 is no part of this version: write it again by this program",
    ),
    (
        &[r#"["parts",1,"numbers",2,1,2,[]]"#],
        "line 1 is no part of this version: write it again by this program",
    ),
    (
        &[
            r#"["parts",1,"numbers",0,1,2,[0]]"#,
            r#"["parts",1,"words",1,2,2,[1]]"#,
        ],
        r#"line 2 is of the job "words": leave out what other jobs wrote"#,
    ),
    (
        &[
            r#"["parts",1,"numbers",0,1,1,[0]]"#,
            r#"["parts",1,"numbers",1,2,2,[1]]"#,
        ],
        "line 2 tells of 1 to 2 of 2, and lines before it of another whole: write it again",
    ),
    (
        &[r#"["parts",1,"numbers",0,1,1,7]"#],
        "line 1 has no container of this collector: write it again by this program",
    ),
    (
        &[r#"["parts",1,"numbers",0,1,1,[true]]"#],
        "line 1 has no container of this collector: write it again by this program",
    ),
    (
        &[
            r#"["parts",1,"numbers",8,9,10,[8]]"#,
            r#"["parts",1,"numbers",0,3,10,[0,1,2]]"#,
        ],
        "parts are missing, 3 to 8 of 10, 9 to 10 of 10: run them, and hand in their lines with these",
    ),
];

#[test]
fn what_is_said_of_lines_without_an_answer(rt: HostRuntime) -> Result<(), PartsError> {
    let alloc = rt.alloc();
    let list = ToList::<i64>::new(alloc);
    let job = Job {
        name: "numbers",
        collector: &list,
    };
    for &(lines, wanted) in &REFUSED {
        let error = job.finish_parts(alloc, lines).err().expect(&rt, "an error");
        if matches!(error, PartsError::NoMemory) {
            return Err(error);
        }
        let said = error.to_string(alloc)?;
        assert!(&rt; said.as_str() == wanted, "{said}");
    }
    Ok(())
}
