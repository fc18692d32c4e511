//! Lines behind the first one of a file, each with what a run writes.

use super::gates::Watch;
use super::rows::{ONE, Row, TARGETS_OF_LONG, TWO, WORKERS, all_right, all_right_at, right_at};
use std::test::Fail;

/// Sums, products and the like of numbers, which need no list.
static REDUCTIONS: [Row<'_>; 26] = [
    "range 1 6\nsum\n-> 15\n",
    "range 1 6\nmap self\nsum\n-> 15\n",
    "range 5 5\nsum\n-> 0\n",
    "range 0 1\nsum\n-> 0\n",
    "range 5 5\nmax\n-> Optional.empty\n",
    "closed 9223372036854775806 9223372036854775807\nsum\n-> -3\n",
    "numbers\nproduct\n-> 1\n",
    "numbers 2 5 3\nmax\n-> Optional[5]\n",
    "numbers 2 5 3\nmin\n-> Optional[2]\n",
    "numbers 2 5 3\nproduct\n-> 30\n",
    "numbers 7 8\nfindfirst\n-> Optional[7]\n",
    "range 0 10\nfindfirst\n-> Optional[0]\n",
    "range 0 0\nallmatch less 0\n-> true\n",
    "range 0 0\nanymatch less 0\n-> false\n",
    "numbers 2 5 3\nallmatch less 6\n-> true\n",
    "numbers 2 5 3\nanymatch equals 5\n-> true\n",
    "numbers 7\nnonematch equals 7\n-> false\n",
    "range 0 70000\nsum\n-> 2449965000\n",
    // folds of copies
    "range 0 5\nflatmap repeat 3\nsum\n-> 30\n",
    "closed 1 3\nflatmap repeat 2\nmap add 1\nproduct\n-> 576\n",
    "numbers 3 -1\nflatmap repeat 5\nfilter less 9\nproduct\n-> -243\n",
    "numbers 3 -1\nflatmap repeat 5\nmin\n-> Optional[-1]\n",
    "numbers 3 -1\nflatmap repeat 5\nmax\n-> Optional[3]\n",
    "numbers 3 -1\nflatmap repeat 5\nflatmap repeat 7\ncount\n-> 70\n",
    "numbers 3 -1\nflatmap repeat 0\nmax\n-> Optional.empty\n",
    "numbers 3 -1\nflatmap repeat 0\nproduct\n-> 1\n",
];

/// Sums of numbers by one step, more than a small run has.
static STEPS: [Row<'_>; 2] = [
    "range 0 300000\nmap add 1\nsum\n-> 45000150000\n",
    "range 0 300000\nmap mul 61489146912\nsum\n-> -9223388469542400\n",
];

/// Lists of numbers behind stages.
static LISTS: [Row<'_>; 13] = [
    "range 0 10\nlimit 0\ntolist\n-> []\n",
    "range 0 10\nlimit 3\ntolist\n-> [0, 1, 2]\n",
    // no run over so many numbers would end
    "range 0 4611686018427387904\nmap negate\nskip 5\nlimit 3\nskip 1\ntolist\n-> [-6, -7]\n",
    "closed 9223372036854775800 9223372036854775807\nskip 5\nlimit 9\ntolist\n-> [9223372036854775805, 9223372036854775806, 9223372036854775807]\n",
    "range 0 10\nfilter greater 4\nskip 2\nlimit 2\ntolist\n-> [7, 8]\n",
    "range 0 10\nmap mod 3\ndistinct\ntolist\n-> [0, 1, 2]\n",
    "numbers 3 1 3 2 1\ndistinct\ntolist\n-> [3, 1, 2]\n",
    "numbers 1 2 5 1\ntakewhile less 3\ntolist\n-> [1, 2]\n",
    "range 0 100\ntakewhile less 3\ntolist\n-> [0, 1, 2]\n",
    "numbers 1 2 5 1\ndropwhile less 3\ntolist\n-> [5, 1]\n",
    "numbers 4 8 15\nskip 1\nlimit 1\nmap add 1\ntolist\n-> [9]\n",
    "numbers -1 -3\nmap mod 3\ntolist\n-> [2, 0]\n",
    "numbers 1 2 3 4\nfilter greater 2\nmap mul 10\ntolist\n-> [30, 40]\n",
];

/// Counts, with sizes that are known and that aren't.
static COUNTS: [Row<'_>; 10] = [
    "closed 9223372036854775807 9223372036854775807\ncount\n-> 1\n",
    "range 0 4611686018427387904\ncount\n-> 4611686018427387904\n",
    "range 0 4611686018427387904\nskip 1\ncount\n-> 4611686018427387903\n",
    "numbers 1 2 3\nskip 10\ncount\n-> 0\n",
    "numbers 1 2 3\nflatmap repeat 0\ncount\n-> 0\n",
    "range 0 10\nlimit 3\ncount\n-> 3\n",
    "range 0 10\nlimit 0\ncount\n-> 0\n",
    "range 0 10\nskip 3\nlimit 5\ncount\n-> 5\n",
    "range 0 10\nfilter greater 4\nlimit 7\ncount\n-> 5\n",
    "range 0 10\nlimit 5\ndistinct\ncount\n-> 5\n",
];

/// Values of texts.
static TEXTS: [Row<'_>; 8] = [
    "lines 3\n\na\n\njoining ,\n-> ,a,\n",
    "lines 3\n\n\n\njoining , < >\n-> <,,>\n",
    "lines 2\na b\nc\nflatmap words\njoining - < >\n-> <a-b-c>\n",
    "lines 1\né\nmap length\nsum\n-> 2\n",
    "lines 0\njoining , [ ]\n-> []\n",
    "lines 2\na\nb\njoining \n-> ab\n",
    "lines 2\na\nb\ntolist\n-> [a, b]\n",
    "lines 2\nb\n\nfindfirst\n-> Optional[b]\n",
];

/// Maps, partitions and pairs.
static GROUPS: [Row<'_>; 8] = [
    "numbers 5 2 7 4 5\ngroupby mod 2 counting\n-> {1=3, 0=2}\n",
    "numbers 1 3\npartition divisible 2 tolist\n-> {false=[1, 3], true=[]}\n",
    "numbers 1 2 3 4\ntomap mod 2 self last\n-> {1=3, 0=4}\n",
    "numbers 1 2 3 4\ntomap mod 2 self first\n-> {1=1, 0=2}\n",
    "lines 2\na\na\ntomap self length sum\n-> {a=2}\n",
    "range 1 5\nteeing sum count\n-> [10, 4]\n",
    "numbers 2 5 3\nteeing max min\n-> [Optional[5], Optional[2]]\n",
    "lines 3\nbb\na\ncc\ngroupby length joining +\n-> {2=bb+cc, 1=a}\n",
];

/// Collectors within collectors, which the second version has.
static NESTED: [Row<'_>; 8] = [
    "numbers 1 2 3 4 5 6\ngroupby mod 2 groupby mod 3 counting\n-> {1={1=1, 0=1, 2=1}, 0={2=1, 1=1, 0=1}}\n",
    "numbers 1 2 3\npartition less 3 mapping mul 10 tolist\n-> {false=[30], true=[10, 20]}\n",
    "numbers 1 2 3\ngroupby mod 2 filtering greater 2 count\n-> {1=1, 0=0}\n",
    "numbers 1 2\ngroupby mod 2 filtering greater 100 counting\n-> {1=0, 0=0}\n",
    "numbers 1 2 3 4\nteeing mapping mul 2 sum filtering divisible 2 tolist\n-> [20, [2, 4]]\n",
    "numbers 4 5\nteeing mapping mul 10 first count\n-> [Optional[40], 2]\n",
    "lines 3\na b\nc\na\ngroupby length mapping length sum\n-> {3=3, 1=2}\n",
    "numbers 5 2 7 4 5\npartition greater 3 groupby mod 2 tolist\n-> {false={0=[2]}, true={1=[5, 7, 5], 0=[4]}}\n",
];

/// Maps in which no key may repeat, which the second version has.
static STRICT: [Row<'_>; 5] = [
    "numbers 1 2\ntomapstrict self negate\n-> {1=-1, 2=-2}\n",
    "numbers 1 2 3 4 3 1\ntomapstrict mod 10 self\n-> duplicate key 3",
    "numbers 1 2 2 1\ntomapstrict self self\n-> duplicate key 2",
    "lines 2\nab\ncd\ntomapstrict length self\n-> duplicate key 2",
    "lines 4\nb\na\nb\na\ntomapstrict self length\n-> duplicate key b",
];

/// Groups, parts and maps of numbers and of texts, by more keys.
static MORE_GROUPS: [Row<'_>; 12] = [
    "numbers 5 2 7 4 5\ngroupby mod 2 count\n-> {1=3, 0=2}\n",
    "numbers 1 2 3 4 5 6\ngroupby mod 2 groupby mod 3 count\n-> {1={1=1, 0=1, 2=1}, 0={2=1, 1=1, 0=1}}\n",
    "numbers\ngroupby mod 2 filtering greater 2 count\n-> {}\n",
    "lines 3\nbb\na\ncc\ngroupby length count\n-> {2=2, 1=1}\n",
    "lines 3\na\nbb\na\ngroupby self count\n-> {a=2, bb=1}\n",
    "lines 3\na\nbb\na\ngroupby self groupby length count\n-> {a={1=2}, bb={2=1}}\n",
    "lines 3\na\nbb\n\npartition longer 1 tolist\n-> {false=[a, ], true=[bb]}\n",
    "lines 2\nbb\na\nteeing first count\n-> [Optional[bb], 2]\n",
    "lines 3\nbb\na\ncc\ntomap length self last\n-> {2=cc, 1=a}\n",
    "lines 3\nbb\na\nbb\ntomap self length sum\n-> {bb=4, a=1}\n",
    "lines 2\nab\nc\ntomapstrict length self\n-> {2=ab, 1=c}\n",
    "lines 3\nab\nc\nab\ntomapstrict self length\n-> duplicate key ab",
];

#[test]
fn are_written(rt: HostRuntime) -> Result<(), Fail> {
    let of_both = [
        REDUCTIONS.as_slice(),
        COUNTS.as_slice(),
        LISTS.as_slice(),
        TEXTS.as_slice(),
        GROUPS.as_slice(),
    ];
    all_right(&rt, rt.alloc(), &[ONE, TWO], &of_both)?;
    let of_the_second = [NESTED.as_slice(), STRICT.as_slice(), MORE_GROUPS.as_slice()];
    all_right(&rt, rt.alloc(), &[TWO], &of_the_second)?;
    all_right_at(&rt, rt.alloc(), &TARGETS_OF_LONG, &[ONE], &[&STEPS])?;
    Ok(())
}

/// First items far within a range, for leaves of 1,000 items.
static FAR_WITHIN: [Row<'_>; 2] = [
    "range 0 1000000\nmap mul 3\nfilter greater 100\nfindfirst\n-> Optional[102]\n",
    "range 0 1000000\nmap mul 3\nfilter greater 100\nlimit 1\ntolist\n-> [102]\n",
];

/// The first item of a range, for leaves of 4,096 items.
static AT_THE_FRONT: [Row<'_>; 1] = ["range 0 8192\nfilter less 1\nlimit 1\ntolist\n-> [0]\n"];

#[test]
fn of_a_first_item(rt: HostRuntime) -> Result<(), Fail> {
    let gate = Watch::new(false);
    for &workers in &WORKERS {
        right_at(&rt, rt.alloc(), &gate, ONE, &FAR_WITHIN, (workers, 1000))?;
        right_at(&rt, rt.alloc(), &gate, ONE, &AT_THE_FRONT, (workers, 4096))?;
    }
    Ok(())
}
