//! What streams tell of their items.
use stages::{Operation, StreamFlags};
use std::process::Abort;

const SORTED_SET: u32 = 0x4555;

const TOLD_NOTHING: u32 = 0x4110;

/// Whether the flags tell distinct, sorted and sized, and whether they are of a short circuit.
fn told(flags: StreamFlags) -> [bool; 4] {
    [
        flags.is_distinct(),
        flags.is_sorted(),
        flags.is_sized(),
        flags.is_short_circuit(),
    ]
}

/// What a source tells, and the flags.
static TOLD: [(u32, [bool; 4]); 5] = [
    (SORTED_SET, [true, true, true, false]),
    (TOLD_NOTHING, [false, false, false, false]),
    (0x1, [true, false, false, false]),
    (0x4, [false, true, false, false]),
    (0x40, [false, false, true, false]),
];

#[test]
fn a_source_tells_its_characteristics(rt: HostRuntime) {
    for &(characteristics, row) in &TOLD {
        assert!(rt;
            told(StreamFlags::of(characteristics)) == row,
            "{characteristics}"
        );
    }
    let limited = StreamFlags::of(SORTED_SET)
        .after(Operation::Filter)
        .after(Operation::Limit);
    let mapped = told(limited.after(Operation::Map));
    assert!(rt;
        told(limited) == [true, true, false, true] && mapped == [false, false, false, true]
    );
}

/// Checks a row of the table: K for a flag that is kept, C for one that is cleared, S for one that is set.
fn check_row(rt: &impl Abort, flags: StreamFlags, operation: Operation, row: &[u8; 4]) {
    let before = told(flags);
    let after = told(flags.after(operation));
    for place in 0..4 {
        let wanted = match row[place] {
            b'K' => before[place],
            letter => letter == b'S',
        };
        assert!(rt; after[place] == wanted, "{operation:?} at {place}");
    }
}

/// Each row from a stream that tells everything and from one that tells nothing.
#[test]
fn operations_keep_clear_and_set_flags(rt: HostRuntime) {
    let table = [
        (Operation::Map, b"CCKK"),
        (Operation::Filter, b"KKCK"),
        (Operation::FlatMap, b"CCCK"),
        (Operation::Distinct, b"SKCK"),
        (Operation::Limit, b"KKKS"),
        (Operation::Skip, b"KKKK"),
        (Operation::TakeWhile, b"KKCS"),
        (Operation::DropWhile, b"KKCK"),
    ];
    let set = StreamFlags::of(SORTED_SET);
    for (operation, row) in table {
        for flags in [
            set.after(Operation::Limit),
            set,
            StreamFlags::of(TOLD_NOTHING),
        ] {
            check_row(&rt, flags, operation, row);
        }
    }
}
