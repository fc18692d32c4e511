//! Long ranges of which a short front is enough, or isn't.

use super::gates::Watch;
use super::rows::{Row, TARGETS_OF_LONG, TWO, WORKERS, all_right_at, right_at};
use std::test::Fail;

/// The first segments decide these. At target 1 the whole range has 65,536 leaves, and all runs of these rows fewer.
static BY_FRONT: [Row<'_>; 6] = [
    "range 0 1000000\nfilter divisible 3\ndistinct\nfindfirst\n-> Optional[0]\n",
    "range 0 1000000\nfilter divisible 3\nskip 2\nlimit 2\ntolist\n-> [6, 9]\n",
    "range 0 1000000\nmap mod 7\ndistinct\ntakewhile less 3\nsum\n-> 3\n",
    "range 0 1000000\ndropwhile less 10\nanymatch equals 12\n-> true\n",
    "range 0 1000000\ndropwhile less 10\nallmatch greater 10\n-> false\n",
    "range 0 1000000\nfilter divisible 5\nskip 1\nnonematch equals 10\n-> false\n",
];

/// The first segment doesn't decide these.
static BEHIND_FRONT: [Row<'_>; 4] = [
    "range 0 9000000\ndropwhile less 5000\nfindfirst\n-> Optional[5000]\n",
    "range 0 2000000\nfilter divisible 3\nskip 10000\nlimit 2\ntolist\n-> [30000, 30003]\n",
    "range 0 300000\nmap mod 7\ndistinct\nanymatch greater 6\n-> false\n",
    "range 0 300000\nfilter divisible 3\nskip 90000\nlimit 2\ntolist\n-> [270000, 270003]\n",
];

#[test]
fn are_enough_or_read_on(rt: HostRuntime) -> Result<(), Fail> {
    for &workers in &WORKERS {
        let gate = Watch::new(false);
        right_at(&rt, rt.alloc(), &gate, TWO, &BY_FRONT, (workers, 1))?;
        assert!(rt; gate.calls().0 < 65_536);
    }
    all_right_at(&rt, rt.alloc(), &TARGETS_OF_LONG, &[TWO], &[&BEHIND_FRONT])?;
    Ok(())
}
