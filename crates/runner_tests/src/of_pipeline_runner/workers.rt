//! How many workers and leaves each terminal and collector has.

use super::gates::Watch;
use super::rows::{Row, TWO, file_of, parts_of};
use super::{Case, run_with};
use std::alloc::Global;
use std::process::Abort;
use std::test::Fail;
use std::thread::Threads;
use std::time::Clock;

/// Each terminal and collector of numbers, behind a stage that keeps all 40.
static NUMBERS: [Row<'_>; 23] = [
    "sum\n-> 780\n",
    "map add 1\nproduct\n-> -70609262346240000\n",
    "max\n-> Optional[39]\n",
    "min\n-> Optional[0]\n",
    "count\n-> 40\n",
    "filter equals 39\nfindfirst\n-> Optional[39]\n",
    "tolist\n-> [0, 1, 2, 3, 4, 5, 6, 7, 8, 9, 10, 11, 12, 13, 14, 15, 16, 17, 18, 19, 20, 21, 22, 23, 24, 25, 26, 27, 28, 29, 30, 31, 32, 33, 34, 35, 36, 37, 38, 39]\n",
    "allmatch less 39\n-> false\n",
    "anymatch equals 39\n-> true\n",
    "nonematch equals 39\n-> false\n",
    "groupby mod 3 counting\n-> {0=14, 1=13, 2=13}\n",
    "groupby mod 3 sum\n-> {0=273, 1=247, 2=260}\n",
    "groupby mod 3 max\n-> {0=Optional[39], 1=Optional[37], 2=Optional[38]}\n",
    "groupby mod 3 min\n-> {0=Optional[0], 1=Optional[1], 2=Optional[2]}\n",
    "groupby mod 3 first\n-> {0=Optional[0], 1=Optional[1], 2=Optional[2]}\n",
    "groupby mod 3 tolist\n-> {0=[0, 3, 6, 9, 12, 15, 18, 21, 24, 27, 30, 33, 36, 39], 1=[1, 4, 7, 10, 13, 16, 19, 22, 25, 28, 31, 34, 37], 2=[2, 5, 8, 11, 14, 17, 20, 23, 26, 29, 32, 35, 38]}\n",
    "groupby mod 3 groupby mod 2 counting\n-> {0={0=7, 1=7}, 1={1=7, 0=6}, 2={0=7, 1=6}}\n",
    "groupby mod 3 mapping mul 2 sum\n-> {0=546, 1=494, 2=520}\n",
    "groupby mod 3 filtering less 9 counting\n-> {0=3, 1=3, 2=3}\n",
    "partition less 9 counting\n-> {false=31, true=9}\n",
    "teeing sum count\n-> [780, 40]\n",
    "tomap mod 3 self sum\n-> {0=273, 1=247, 2=260}\n",
    "tomapstrict self mod 1\n-> {0=0, 1=0, 2=0, 3=0, 4=0, 5=0, 6=0, 7=0, 8=0, 9=0, 10=0, 11=0, 12=0, 13=0, 14=0, 15=0, 16=0, 17=0, 18=0, 19=0, 20=0, 21=0, 22=0, 23=0, 24=0, 25=0, 26=0, 27=0, 28=0, 29=0, 30=0, 31=0, 32=0, 33=0, 34=0, 35=0, 36=0, 37=0, 38=0, 39=0}\n",
];

/// Each terminal and collector of texts, behind a stage that keeps all ten.
static TEXTS: [Row<'_>; 15] = [
    "joining -\n-> a-b-c-d-e-f-g-h-i-j\n",
    "tolist\n-> [a, b, c, d, e, f, g, h, i, j]\n",
    "count\n-> 10\n",
    "filter starts j\nfindfirst\n-> Optional[j]\n",
    "allmatch longer 0\n-> true\n",
    "anymatch starts j\n-> true\n",
    "nonematch starts j\n-> false\n",
    "map length\nsum\n-> 10\n",
    "groupby length joining -\n-> {1=a-b-c-d-e-f-g-h-i-j}\n",
    "groupby self counting\n-> {a=1, b=1, c=1, d=1, e=1, f=1, g=1, h=1, i=1, j=1}\n",
    "groupby length tolist\n-> {1=[a, b, c, d, e, f, g, h, i, j]}\n",
    "partition starts a first\n-> {false=Optional[b], true=Optional[a]}\n",
    "teeing first count\n-> [Optional[a], 10]\n",
    "tomap length self last\n-> {1=j}\n",
    "tomapstrict self length\n-> {a=1, b=1, c=1, d=1, e=1, f=1, g=1, h=1, i=1, j=1}\n",
];

const FORTY: &[u8] = b"range 0 40\nfilter divisible 1\n";

const TEN: &[u8] = b"lines 10\na\nb\nc\nd\ne\nf\ng\nh\ni\nj\nflatmap words\n";

/// Each row behind this source and stage has its answer, one run with so many leaves, and as many workers as are wanted.
fn all_run<R: Threads + Clock + Abort + Sync>(
    rt: &R,
    alloc: Global,
    (before, rows): (&[u8], &[Row<'_>]),
    (workers, target, leaves): (u32, u64, u64),
) -> Result<(), Fail> {
    let head = file_of(alloc, TWO, before)?;
    for row in rows {
        let (lines, wanted) = parts_of(row);
        let file = file_of(alloc, head.as_slice(), lines)?;
        let gate = Watch::of_workers(workers, leaves);
        let case = Case::of(file.as_slice(), workers, target);
        let (_, written) = run_with(rt, alloc, &case, &gate)?;
        let is_right = written.as_str() == wanted && gate.calls() == (leaves, leaves, 0);
        assert!(rt;
            is_right && !gate.was_missed(),
            "{written} in the place of {wanted}, {:?} leaves",
            gate.calls()
        );
    }
    Ok(())
}

#[test]
fn are_those_that_are_wanted(rt: HostRuntime) -> Result<(), Fail> {
    let alloc = rt.alloc();
    all_run(&rt, alloc, (FORTY, NUMBERS.as_slice()), (3, 5, 8))?;
    all_run(&rt, alloc, (FORTY, NUMBERS.as_slice()), (5, 3, 16))?;
    all_run(&rt, alloc, (TEN, TEXTS.as_slice()), (3, 1, 10))
}
