//! What a meter tells.

use super::doubles::Screen;
use super::sum_of;
use gates::{Looks, Meter};
use parallel_streams::{Engine, Run, StreamError, of};
use sources::RangeSplit;
use std::io::{self, Read};
use std::process::Abort;

/// Checks how often a screen was told, and its first and third text.
fn check_screen(rt: &impl Abort, screen: &Screen, wanted: u64, first: &str, third: &str) {
    let told = screen.told();
    assert!(rt; told == wanted, "{told}");
    assert_eq!(rt; screen.text(0), first);
    assert_eq!(rt; screen.text(2), third);
}

/// Looks, the milliseconds of the clock a reading, leaves of one item, how often a meter tells of one worker's run over them, and its first and third
/// text. A line comes for each tenth, and reads the clock once, as the beginning of the meter and of the run do. A bar comes each 100 ms of the clock,
/// which is read for each leaf and for each drawing, and at the end, with a line feed.
static TOLD: [(Looks, u64, i64, u64, &str, &str); 5] = [
    (
        Looks::Lines,
        20_000,
        4,
        4,
        "run 1: 1 of 4 leaves, 0 items, 0 a second, 1 min 1 s left",
        "run 1: 3 of 4 leaves, 0 items, 0 a second, 21 s left",
    ),
    (
        Looks::Lines,
        7_200_000,
        3,
        3,
        "run 1: 1 of 3 leaves, 0 items, 0 a second, 4 h 0 min left",
        "run 1: 3 of 3 leaves, 0 items, 0 a second",
    ),
    (
        Looks::Lines,
        1,
        16,
        10,
        "run 1: 2 of 16 leaves, 0 items, 0 a second, 1 s left",
        "run 1: 5 of 16 leaves, 0 items, 0 a second, 1 s left",
    ),
    (
        Looks::Bar,
        1,
        4,
        2,
        "\rrun 1: 4 of 4 leaves, 0 items, 0 a second\x1b[K",
        "",
    ),
    (
        Looks::Bar,
        1,
        256,
        4,
        "\rrun 1: 99 of 256 leaves, 0 items, 0 a second, 1 s left\x1b[K",
        "\rrun 1: 256 of 256 leaves, 0 items, 0 a second\x1b[K",
    ),
];

#[test]
fn a_meter_tells_how_far_a_run_has_come(rt: HostRuntime) -> Result<(), StreamError> {
    for &(looks, millis, items, wanted, first, third) in &TOLD {
        let screen = Screen::new(rt.alloc(), millis);
        let meter = Meter::new(&screen, looks);
        let run = Run {
            workers: 1,
            target: 1,
            gate: &meter,
        };
        let engine = Engine::new(&rt, rt.alloc(), &run)?;
        let numbers = of(RangeSplit::range(0, items).expect(&rt, "a range"));
        let sum = sum_of(&engine, &numbers)?;
        meter.finish();
        assert!(&rt; sum == items.wrapping_mul(items.wrapping_sub(1)) / 2);
        check_screen(&rt, &screen, wanted, first, third);
    }
    Ok(())
}

/// Looks, how many bytes there are, of how many by the program's word, the bytes of a reading, how often a meter tells of them, and its first and third
/// text. The clock goes on by a second a reading; a line comes for each tenth, or at a power of two from 2^20 on, and reads it once.
static READ: [(Looks, usize, Option<u64>, usize, u64, &str, &str); 4] = [
    (
        Looks::Lines,
        1_000,
        Some(1_000),
        100,
        10,
        "10%, 100 bytes of 1.0 kB, 100 bytes a second, 10 s left",
        "30%, 300 bytes of 1.0 kB, 100 bytes a second, 8 s left",
    ),
    (
        Looks::Lines,
        4_194_304,
        None,
        1_048_576,
        4,
        "1.0 MB, 1.0 MB a second",
        "4.1 MB, 1.3 MB a second",
    ),
    (
        Looks::Lines,
        3_000_000,
        Some(2_000_000),
        1_000_000,
        3,
        "50%, 1.0 MB of 2.0 MB, 1.0 MB a second, 2 s left",
        "100%, 3.0 MB of 2.0 MB, 1.0 MB a second",
    ),
    (
        Looks::Bar,
        1_000,
        Some(4_000_000_000),
        1_000,
        3,
        "\r0%, 1.0 kB of 4.0 GB, 500 bytes a second, 2222 h 13 min left\x1b[K",
        "",
    ),
];

#[test]
fn a_meter_tells_how_much_was_read(rt: HostRuntime) -> io::Result<()> {
    for &(looks, size, whole, room, wanted, first, third) in &READ {
        let screen = Screen::new(rt.alloc(), 1_000);
        let meter = Meter::new(&screen, looks);
        let bytes = vec![in rt.alloc(); 7u8; size]?;
        let mut reader = meter.reading(bytes.as_slice(), whole);
        let mut buffer = vec![in rt.alloc(); 0u8; room]?;
        let mut count = 0usize;
        for _ in 0..100 {
            if count < size {
                count = count.saturating_add(reader.read(&mut buffer)?);
            }
        }
        meter.finish();
        assert!(&rt; count == size, "{count}");
        check_screen(&rt, &screen, wanted, first, third);
    }
    Ok(())
}
