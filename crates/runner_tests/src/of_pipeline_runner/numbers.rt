//! Every stage over numbers, with answers that follow from the language's rules.

use super::rows::{Row, TWO, all_right};
use std::test::Fail;

static LISTS: [Row<'_>; 8] = [
    "numbers 5 2 7 4 5\ntolist\n-> [5, 2, 7, 4, 5]\n",
    "numbers 5 2 7 4 5\ndistinct\ntolist\n-> [5, 2, 7, 4]\n",
    "numbers 5 2 7 4 5\ndistinct\nfilter less 7\nmap mul 10\ntolist\n-> [50, 20, 40]\n",
    "numbers 5 2 7 4 5\ndistinct\nfilter less 7\nmap mul 10\nflatmap repeat 2\nskip 1\ntolist\n-> [50, 20, 20, 40, 40]\n",
    "numbers 5 2 7 4 5\ndistinct\nfilter less 7\nmap mul 10\nflatmap repeat 2\nskip 1\nlimit 3\ntolist\n-> [50, 20, 20]\n",
    "numbers 5 2 7 4 5\ndistinct\nfilter less 7\nmap mul 10\nflatmap repeat 2\nskip 1\nlimit 3\ndropwhile greater 30\ntolist\n-> [20, 20]\n",
    "numbers 5 2 7 4 5\ntakewhile less 7\ntolist\n-> [5, 2]\n",
    "numbers 5 2 7 4 5\ndropwhile less 7\ntolist\n-> [7, 4, 5]\n",
];

static ENDS: [Row<'_>; 8] = [
    "numbers 5 2 7 4 5\nsum\n-> 23\n",
    "numbers 5 2 7 4 5\nproduct\n-> 1400\n",
    "numbers 5 2 7 4 5\nmax\n-> Optional[7]\n",
    "numbers 5 2 7 4 5\nmin\n-> Optional[2]\n",
    "numbers 5 2 7 4 5\nallmatch less 8\n-> true\n",
    "numbers 5 2 7 4 5\nanymatch equals 9\n-> false\n",
    "numbers 5 2 7 4 5\nnonematch equals 9\n-> true\n",
    "numbers 5 2 7 4 5\nskip 2\nfindfirst\n-> Optional[7]\n",
];

static ENDS_OF_NOTHING: [Row<'_>; 5] = [
    "numbers 5 2 7 4 5\nskip 5\nfindfirst\n-> Optional.empty\n",
    "numbers 5 2 7 4 5\nskip 5\nmax\n-> Optional.empty\n",
    "numbers 5 2 7 4 5\nskip 5\nsum\n-> 0\n",
    "numbers 5 2 7 4 5\nskip 5\nproduct\n-> 1\n",
    "numbers 5 2 7 4 5\nskip 5\ntolist\n-> []\n",
];

// Numbers of 32 bits and others, by divisors at the ends of both kinds.
static REMAINDERS: [Row<'_>; 8] = [
    "numbers -2147483648 -7 -1 0 1 6 7 2147483647\nmap mod 1\ntolist\n-> [0, 0, 0, 0, 0, 0, 0, 0]\n",
    "numbers -2147483648 -7 -1 0 1 6 7 2147483647\nmap mod 7\ntolist\n-> [5, 0, 6, 0, 1, 6, 0, 1]\n",
    "numbers -2147483648 -7 -1 0 1 6 7 2147483647\nmap mod 1000\ntolist\n-> [352, 993, 999, 0, 1, 6, 7, 647]\n",
    "numbers -2147483648 -7 -1 0 1 6 7 2147483647\nmap mod 2147483647\ntolist\n-> [2147483646, 2147483640, 2147483646, 0, 1, 6, 7, 0]\n",
    "numbers -2147483648 -7 -1 0 1 6 7 2147483647\nmap mod 2147483648\ntolist\n-> [0, 2147483641, 2147483647, 0, 1, 6, 7, 2147483647]\n",
    "numbers -9223372036854775808 -2147483649 -1 2147483648 9223372036854775807\nmap mod 7\ntolist\n-> [6, 4, 6, 2, 0]\n",
    "numbers -9223372036854775808 -2147483649 -1 2147483648 9223372036854775807\nmap mod 2147483647\ntolist\n-> [2147483645, 2147483645, 2147483646, 1, 1]\n",
    "numbers -9223372036854775808 -2147483649 -1 2147483648 9223372036854775807\nmap mod 9223372036854775807\ntolist\n-> [9223372036854775806, 9223372034707292158, 9223372036854775806, 2147483648, 0]\n",
];

#[test]
fn go_from_stage_to_stage(rt: HostRuntime) -> Result<(), Fail> {
    let tables = [
        LISTS.as_slice(),
        ENDS.as_slice(),
        ENDS_OF_NOTHING.as_slice(),
        REMAINDERS.as_slice(),
    ];
    all_right(&rt, rt.alloc(), &[TWO], &tables)?;
    Ok(())
}
