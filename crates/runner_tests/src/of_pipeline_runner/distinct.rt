//! Distinct items, with repeats within a leaf and across leaves.

use super::rows::{Row, TWO, all_right};
use std::test::Fail;

// At target 1 each item is a leaf's, at 3 a leaf has several.
static RANGES: [Row<'_>; 10] = [
    "range 0 100\nmap mod 7\ndistinct\ntolist\n-> [0, 1, 2, 3, 4, 5, 6]\n",
    "range -2 98\nmap mod 7\ndistinct\ntolist\n-> [5, 6, 0, 1, 2, 3, 4]\n",
    "range 0 100\nmap mod 7\ndistinct\ncount\n-> 7\n",
    "range 0 100\nmap mod 7\ndistinct\nsum\n-> 21\n",
    "range 3 3\nmap mod 7\ndistinct\ntolist\n-> []\n",
    "range 1 101\nmap mod 7\ndistinct\nflatmap repeat 2\nskip 1\nmap mod 3\ndistinct\ntolist\n-> [1, 2, 0]\n",
    "range 0 5\nmap mul 3\ndistinct\ntolist\n-> [0, 3, 6, 9, 12]\n",
    "range 0 6\nmap mul 4611686018427387904\ndistinct\ntolist\n-> [0, 4611686018427387904, -9223372036854775808, -4611686018427387904]\n",
    "range -2 3\nmap negate\nmap add 9223372036854775807\ndistinct\nskip 1\ntolist\n-> [-9223372036854775808, 9223372036854775807, 9223372036854775806, 9223372036854775805]\n",
    "range 0 10\nmap mul 3\nmap mod 4\ndistinct\ntolist\n-> [0, 3, 2, 1]\n",
];

// What comes to a `distinct` differs anyway, or not quite.
static DIFFERING: [Row<'_>; 15] = [
    "range 0 30\nfilter divisible 7\ndistinct\nskip 2\ntolist\n-> [14, 21, 28]\n",
    "range 0 30\nmap mod 7\nfilter greater 3\ndistinct\ntolist\n-> [4, 5, 6]\n",
    "range 0 6\nflatmap repeat 2\ndistinct\ntolist\n-> [0, 1, 2, 3, 4, 5]\n",
    "range 0 12\nmap mod 5\nlimit 8\ndistinct\ntolist\n-> [0, 1, 2, 3, 4]\n",
    "range -3 3\ntakewhile less 2\ndistinct\nmap negate\ndistinct\ntolist\n-> [3, 2, 1, 0, -1]\n",
    "range 0 10\ndropwhile less 4\nmap mod 3\ndistinct\ntolist\n-> [1, 2, 0]\n",
    "range 0 10\ndistinct\ndistinct\nflatmap repeat 3\ndistinct\ncount\n-> 10\n",
    "range 0 9\nmap mul 4611686018427387904\nfilter less 1\ndistinct\ncount\n-> 3\n",
    "numbers 3 1 3 2 1\nfilter greater 1\ndistinct\ntolist\n-> [3, 2]\n",
    "numbers 3 1 3 2 1\ndistinct\nfilter greater 1\ndistinct\ntolist\n-> [3, 2]\n",
    "numbers 3 1 3 2 1\ndistinct\nmap mod 2\ndistinct\ntolist\n-> [1, 0]\n",
    "numbers 1 2 1 3 1\nskip 1\ndistinct\ntolist\n-> [2, 1, 3]\n",
    "range 0 6\nmap mod 4\nflatmap repeat 3\ntakewhile less 3\nmap add 1\nflatmap repeat 2\ndistinct\ntolist\n-> [1, 2, 3]\n",
    "range 0 6\nflatmap repeat 2\nlimit 5\ndistinct\ntolist\n-> [0, 1, 2]\n",
    "range 0 6\nflatmap repeat 0\ndistinct\ncount\n-> 0\n",
];

static LISTS: [Row<'_>; 4] = [
    "numbers 3 1 3 2 1 -9223372036854775808 2 9223372036854775807 -9223372036854775808 3\ndistinct\ntolist\n-> [3, 1, 2, -9223372036854775808, 9223372036854775807]\n",
    "numbers 4 4 4 4 4 4\ndistinct\ntolist\n-> [4]\n",
    "numbers\ndistinct\ntolist\n-> []\n",
    "numbers 4 5 4\nfilter less 0\ndistinct\ntolist\n-> []\n",
];

static TEXTS: [Row<'_>; 5] = [
    "lines 8\nb\na\nb\n\nab\na\n\nb\ndistinct\ntolist\n-> [b, a, , ab]\n",
    "lines 8\nb\na\nb\n\nab\na\n\nb\ndistinct\ncount\n-> 4\n",
    "lines 0\ndistinct\ntolist\n-> []\n",
    "lines 3\na b\nc b a\nd a\nflatmap words\ndistinct\ntolist\n-> [a, b, c, d]\n",
    "lines 8\nb\na\nb\n\nab\na\n\nb\nmap length\ndistinct\ntolist\n-> [1, 0, 2]\n",
];

#[test]
fn are_the_first_of_their_equals(rt: HostRuntime) -> Result<(), Fail> {
    let tables = [
        RANGES.as_slice(),
        DIFFERING.as_slice(),
        LISTS.as_slice(),
        TEXTS.as_slice(),
    ];
    all_right(&rt, rt.alloc(), &[TWO], &tables)?;
    Ok(())
}
