//! Limits, skips and whiles behind filters, over several segments.

use super::rows::{Row, TARGETS_OF_LONG, TWO, all_right, all_right_at};
use std::test::Fail;

/// The cuts are near the front, far behind it, near the end of a segment, and nowhere.
static RANGES: [Row<'_>; 20] = [
    "range 0 300000\nfilter divisible 3\nlimit 5000\nsum\n-> 37492500\n",
    "range 0 300000\nfilter divisible 3\nlimit 0\ntolist\n-> []\n",
    "range 0 300000\nfilter divisible 3\nlimit 100001\ncount\n-> 100000\n",
    "range 0 300000\nfilter greater -1\nlimit 4096\nmax\n-> Optional[4095]\n",
    "range 0 300000\nfilter greater -1\nlimit 4097\nmax\n-> Optional[4096]\n",
    "range 0 300000\nfilter divisible 3\nskip 99997\ntolist\n-> [299991, 299994, 299997]\n",
    "range 0 300000\nfilter divisible 3\nskip 100000\ntolist\n-> []\n",
    "range 0 300000\nfilter divisible 3\nskip 0\ncount\n-> 100000\n",
    "range 0 300000\nfilter divisible 3\ntakewhile less 100000\ncount\n-> 33334\n",
    "range 0 300000\nfilter divisible 3\ntakewhile less 300000\ncount\n-> 100000\n",
    "range 0 300000\nfilter divisible 3\ntakewhile greater 0\ntolist\n-> []\n",
    "range 0 300000\nfilter divisible 3\ndropwhile less 299992\ntolist\n-> [299994, 299997]\n",
    "range 0 300000\nfilter divisible 3\ndropwhile less 300000\ntolist\n-> []\n",
    "range 0 300000\nmap mul 2\ndropwhile equals 0\nmin\n-> Optional[2]\n",
    "range 0 100\nfilter divisible 2\nskip 3\nfilter divisible 3\nlimit 4\ntakewhile less 20\nmap add 1\ntolist\n-> [7, 13, 19]\n",
    "range 0 100\nfilter divisible 2\nflatmap repeat 2\nskip 3\nlimit 4\ntakewhile less 4\ntolist\n-> [2]\n",
    // copies, cut within those of an item
    "range 0 300000\nflatmap repeat 2\nskip 1\nlimit 400001\nsum\n-> 40000200000\n",
    "range 0 10\nmap mod 20\nflatmap repeat 3\nskip 4\nlimit 7\ntolist\n-> [1, 1, 2, 2, 2, 3, 3]\n",
    "range 0 10\nfilter divisible 2\nlimit 3\nflatmap repeat 2\nskip 1\nmap mod 3\nfilter greater 0\ntolist\n-> [2, 2, 1, 1]\n",
    "range 0 5\nfilter divisible 1\nlimit 9223372036854775807\nflatmap repeat 2\nskip 7\ntolist\n-> [3, 4, 4]\n",
];

/// A range that nobody could read to its end: what is decided by its first numbers is answered without the others.
static ENDLESS: [Row<'_>; 19] = [
    "range 0 4611686018427387904\nfilter greater 3\nfindfirst\n-> Optional[4]\n",
    "range 0 4611686018427387904\nfilter greater 3\nlimit 2\ntolist\n-> [4, 5]\n",
    "range 0 4611686018427387904\nfilter greater 3\ntakewhile less 6\ntolist\n-> [4, 5]\n",
    "range 0 4611686018427387904\nfilter greater 3\nskip 2\nfindfirst\n-> Optional[6]\n",
    "range 0 4611686018427387904\nflatmap repeat 2\nlimit 3\ntolist\n-> [0, 0, 1]\n",
    "range 0 4611686018427387904\nflatmap repeat 2\ntakewhile less 1\ntolist\n-> [0, 0]\n",
    "range 0 4611686018427387904\nfilter greater 3\nanymatch equals 9\n-> true\n",
    "range 0 4611686018427387904\nallmatch less 9\n-> false\n",
    "range 0 4611686018427387904\nnonematch equals 9\n-> false\n",
    "range 0 4611686018427387904\nfilter divisible 100\nskip 700\nlimit 2\ntolist\n-> [70000, 70100]\n",
    "range 0 4611686018427387904\nmap mod 1000\ndropwhile less 998\nskip 1\nlimit 2\ntolist\n-> [999, 0]\n",
    "range 0 4611686018427387904\nmap mod 10\nfilter equals 0\ndistinct\nmap mod 9\nlimit 3\nfindfirst\n-> Optional[0]\n",
    "range 0 4611686018427387904\nflatmap repeat 1000\nflatmap repeat 1000\nskip 1\nlimit 2\ntolist\n-> [0, 0]\n",
    // a repeat of no copies reads nothing
    "range 0 4611686018427387904\nfilter equals -1\nflatmap repeat 0\nsum\n-> 0\n",
    // comparisons of a range read nothing
    "range 0 4611686018427387904\nfilter less 3\nsum\n-> 3\n",
    "range 0 4611686018427387904\nfilter less -9223372036854775808\ncount\n-> 0\n",
    "range 0 4611686018427387904\nfilter greater 4611686018427387901\nmap add 1\ntolist\n-> [4611686018427387903, 4611686018427387904]\n",
    "range 0 4611686018427387904\nfilter greater 9223372036854775807\ncount\n-> 0\n",
    "range 0 4611686018427387904\nskip 2\nfilter less 4\ntolist\n-> [2, 3]\n",
];

static LISTS: [Row<'_>; 13] = [
    "numbers 5 3 8 1 9 2\nfilter greater 2\nlimit 2\ntolist\n-> [5, 3]\n",
    "numbers 5 3 8 1 9 2\nfilter greater 2\nskip 2\ntolist\n-> [8, 9]\n",
    "numbers 5 3 8 1 9 2\ntakewhile greater 1\ntolist\n-> [5, 3, 8]\n",
    "numbers 5 3 8 1 9 2\ndropwhile greater 1\nfilter less 9\ntolist\n-> [1, 2]\n",
    "numbers 5 3 5 1 9 2\ndistinct\nfilter greater 1\nskip 1\nlimit 2\ntolist\n-> [3, 9]\n",
    "lines 4\naa\nb\nccc\ndddd\nmap length\nfilter greater 1\ntakewhile less 4\nskip 1\ntolist\n-> [3]\n",
    "lines 4\naa\nb\nccc\ndddd\nfilter longer 1\nlimit 2\nfilter longer 2\ntolist\n-> [ccc]\n",
    "lines 4\naa\nb\nccc\ndddd\nfilter longer 1\nskip 1\nmap self\nlimit 1\ntolist\n-> [ccc]\n",
    "lines 4\naa\nb\nccc\na\nskip 1\ntakewhile longer 0\ndropwhile starts b\njoining |\n-> ccc|a\n",
    "lines 4\naa\nb\nccc\na\ntakewhile starts a\nmap length\nskip 1\ntolist\n-> []\n",
    "lines 3\na b\nc\nd e\nflatmap words\nskip 1\nfilter longer 0\nlimit 3\ntolist\n-> [b, c, d]\n",
    "numbers 5 1 4\nskip 1\nflatmap repeat 2\nflatmap repeat 2\nskip 3\nlimit 3\ntolist\n-> [1, 4, 4]\n",
    "numbers 5 1 4 5\nflatmap repeat 0\ndropwhile greater 1\ncount\n-> 0\n",
];

#[test]
fn leave_what_barriers_leave(rt: HostRuntime) -> Result<(), Fail> {
    all_right_at(
        &rt,
        rt.alloc(),
        &TARGETS_OF_LONG,
        &[TWO],
        &[&RANGES, &ENDLESS],
    )?;
    all_right(&rt, rt.alloc(), &[TWO], &[&LISTS])?;
    Ok(())
}
