//! Every stage over texts, with answers that follow from the language's rules.

use super::rows::{Row, TWO, all_right};
use std::test::Fail;

static LISTS: [Row<'_>; 7] = [
    "lines 4\na bc\n\nd\na\nflatmap words\ntolist\n-> [a, bc, , d, a]\n",
    "lines 4\na bc\n\nd\na\nflatmap words\ndistinct\nmap self\ntolist\n-> [a, bc, , d]\n",
    "lines 4\na bc\n\nd\na\nflatmap words\ndistinct\nmap self\nskip 1\nflatmap repeat 2\ntolist\n-> [bc, bc, , , d, d]\n",
    "lines 4\na bc\n\nd\na\nflatmap words\ndistinct\nmap self\nskip 1\nflatmap repeat 2\nlimit 5\ntolist\n-> [bc, bc, , , d]\n",
    "lines 4\na bc\n\nd\na\nflatmap words\ndistinct\nmap self\nskip 1\nflatmap repeat 2\nlimit 5\ntakewhile longer 0\ntolist\n-> [bc, bc]\n",
    "lines 4\na bc\n\nd\na\ndropwhile starts a\ntolist\n-> [, d, a]\n",
    "lines 4\na bc\n\nd\na\ndropwhile starts a\nfilter empty\ncount\n-> 1\n",
];

static ENDS: [Row<'_>; 6] = [
    "lines 4\na bc\n\nd\na\nfindfirst\n-> Optional[a bc]\n",
    "lines 4\na bc\n\nd\na\njoining ,\n-> a bc,,d,a\n",
    "lines 4\na bc\n\nd\na\njoining , < >\n-> <a bc,,d,a>\n",
    "lines 4\na bc\n\nd\na\nallmatch longer 0\n-> false\n",
    "lines 4\na bc\n\nd\na\nanymatch empty\n-> true\n",
    "lines 4\na bc\n\nd\na\nnonematch starts d\n-> false\n",
];

static LENGTHS: [Row<'_>; 2] = [
    "lines 4\na bc\n\nd\na\nmap length\ntolist\n-> [4, 0, 1, 1]\n",
    "lines 4\na bc\n\nd\na\nmap length\nfilter greater 0\nskip 1\ncount\n-> 2\n",
];

#[test]
fn go_from_stage_to_stage(rt: HostRuntime) -> Result<(), Fail> {
    let tables = [LISTS.as_slice(), ENDS.as_slice(), LENGTHS.as_slice()];
    all_right(&rt, rt.alloc(), &[TWO], &tables)?;
    Ok(())
}
