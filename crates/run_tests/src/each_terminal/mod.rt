//! Each terminal operation of the libraries, and each barrier, over the numbers from 0 on: how many leaves and how many workers there are.
//! checks/memory.py runs one of them by its name over many numbers, and counts the memory that it takes.

mod apart;
mod behind;
mod folds;
mod lists;
mod workers;

use parallel_streams::{Engine, Run, Source, Stream, StreamError, of};
use sources::{LinesSplit, RangeSplit};
use spliterator::NoMemory;
use std::alloc::Global;
use std::env;
use std::process::Abort;
use std::test::Fail;
use std::thread::Threads;
use std::time::Clock;
use workers::Workers;

/// A terminal operation, or one behind a barrier.
#[derive(Clone, Copy)]
enum Terminal {
    Fold(folds::Fold),
    List(lists::List),
    Behind(behind::Behind),
}

/// The numbers from 0 on, below an end.
fn numbers_below(rt: &impl Abort, end: i64) -> Source<RangeSplit> {
    of(RangeSplit::range(0, end).expect(rt, "a range"))
}

/// The numbers from 0 on, so many of them.
fn numbers(rt: &impl Abort, items: u32) -> Source<RangeSplit> {
    numbers_below(rt, i64::from(items))
}

/// The sum of these numbers.
fn sum_of(items: u32) -> i64 {
    let end = i64::from(items);
    end.wrapping_mul(end.wrapping_sub(1)) / 2
}

/// Whether the answer over so many numbers is right.
fn is_right<R: Threads + Clock + Abort + Sync>(
    engine: &Engine<'_, R, Workers>,
    terminal: Terminal,
    items: u32,
) -> Result<bool, NoMemory> {
    match terminal {
        Terminal::Fold(fold) => folds::is_right(engine, numbers(engine.rt, items), fold, items),
        Terminal::List(list) => lists::is_right(engine, numbers(engine.rt, items), list, items),
        Terminal::Behind(behind) => behind::is_right(engine, behind, items),
    }
}

/// Each with its name, and how many runs it has.
static ALL: [(&str, Terminal, u64); 28] = [
    ("sum", Terminal::Fold(folds::Fold::Sum), 1),
    ("summary", Terminal::Fold(folds::Fold::Summary), 1),
    ("reduce", Terminal::Fold(folds::Fold::Reduce), 1),
    (
        "reduce_optional",
        Terminal::Fold(folds::Fold::ReduceOptional),
        1,
    ),
    ("min", Terminal::Fold(folds::Fold::Min), 1),
    ("max", Terminal::Fold(folds::Fold::Max), 1),
    ("min_by_key", Terminal::Fold(folds::Fold::MinByKey), 1),
    ("max_by_key", Terminal::Fold(folds::Fold::MaxByKey), 1),
    ("count", Terminal::Fold(folds::Fold::Count), 1),
    ("find_first", Terminal::Fold(folds::Fold::FindFirst), 1),
    ("any_match", Terminal::Fold(folds::Fold::AnyMatch), 1),
    ("all_match", Terminal::Fold(folds::Fold::AllMatch), 1),
    ("none_match", Terminal::Fold(folds::Fold::NoneMatch), 1),
    ("to_list", Terminal::List(lists::List::ToList), 1),
    ("to_set", Terminal::List(lists::List::ToSet), 1),
    (
        "for_each_ordered",
        Terminal::List(lists::List::ForEachOrdered),
        1,
    ),
    ("joining", Terminal::List(lists::List::Joining), 1),
    ("to_map_strict", Terminal::List(lists::List::StrictMap), 1),
    ("sorted", Terminal::List(lists::List::Sorted), 1),
    ("sorted_by_key", Terminal::List(lists::List::SortedByKey), 1),
    ("first_sorted", Terminal::List(lists::List::FirstSorted), 1),
    ("to_sorted_list", Terminal::List(lists::List::SortedList), 1),
    ("limit", Terminal::Behind(behind::Behind::Limit), 2),
    ("skip", Terminal::Behind(behind::Behind::Skip), 2),
    ("take_while", Terminal::Behind(behind::Behind::TakeWhile), 2),
    ("drop_while", Terminal::Behind(behind::Behind::DropWhile), 2),
    ("distinct", Terminal::Behind(behind::Behind::Distinct), 2),
    ("concat", Terminal::Behind(behind::Behind::Concat), 2),
];

/// Workers, a target, and how many leaves the split rule cuts 40 items into.
static SETTINGS: [(u32, u64, u64); 4] = [(1, 0, 4), (3, 5, 8), (5, 0, 24), (5, 3, 16)];

// One worker runs a short segment.
#[test]
fn each_has_its_workers_and_leaves(rt: HostRuntime) -> Result<(), StreamError> {
    for &(name, terminal, runs) in &ALL {
        for &(workers, target, leaves) in &SETTINGS {
            let is_short = matches!(terminal, Terminal::Behind(behind) if behind.has_segments());
            let (wanted, leaves) = match is_short {
                true if target == 0 => (1, 4),
                true => (1, leaves),
                false => (workers, leaves),
            };
            let gate = &Workers::new(wanted, leaves);
            let run = Run {
                workers,
                target,
                gate,
            };
            let engine = Engine::new(&rt, rt.alloc(), &run)?;
            let is_right = is_right(&engine, terminal, 40)?;
            let counts = gate.counts();
            assert!(rt;
                is_right && counts == (runs.wrapping_mul(leaves), 0),
                "{name}, {workers} workers at {target}: {is_right}, {counts:?}"
            );
        }
    }
    Ok(())
}

// The names, the number of items and that of workers are variables of the environment. Where there are none, each runs over 1,000 items.
#[test]
fn the_named_are_right(rt: HostRuntime) -> Result<(), Fail> {
    let number = |name: &str, usual: u32| match env::var(&rt, name) {
        Ok(text) => text.as_str().parse::<u32>().unwrap_or(usual),
        Err(_) => usual,
    };
    let named = env::var(&rt, "TERMINAL");
    let items = number("ITEMS", 1_000);
    let workers = number("WORKERS", 4);
    for &(name, terminal, _) in &ALL {
        let is_named = match &named {
            Ok(wanted) => wanted.as_str() == name,
            Err(_) => true,
        };
        if is_named {
            let run = Run {
                workers,
                target: 0,
                gate: &Workers::new(0, 1),
            };
            let engine = Engine::new(&rt, rt.alloc(), &run)?;
            assert!(rt; is_right(&engine, terminal, items)?, "{name}");
        }
    }
    Ok(())
}

/// Each barrier over so many numbers, cut at a place or number.
fn check_cut<R: Threads + Clock + Abort + Sync>(
    engine: &Engine<'_, R, Workers>,
    items: u32,
    cut: u32,
) -> Result<(), NoMemory> {
    let rt = engine.rt;
    for &(name, terminal, _) in &ALL {
        let Terminal::Behind(behind) = terminal else {
            continue;
        };
        let found = behind::sum_behind(engine, behind, i64::from(items), cut)?;
        let wanted = behind::wanted(behind, items, cut);
        assert!(rt;
            found == wanted,
            "{name} at {cut} of {items}: {found} in the place of {wanted}"
        );
    }
    Ok(())
}

// Segments end where there are 2,560, 5,120 and 10,240 of 20,480 numbers.
#[test]
fn barriers_cut_at_each_place_of_segments(rt: HostRuntime) -> Result<(), StreamError> {
    for workers in [1, 2, 7, 64] {
        let gate = &Workers::new(0, 1);
        let run = Run {
            workers,
            target: 0,
            gate,
        };
        let engine = Engine::new(&rt, rt.alloc(), &run)?;
        for items in [0, 20_480] {
            for cut in [
                0, 1, 2_559, 2_560, 2_561, 5_119, 5_120, 10_241, 20_479, 20_480, 20_481,
            ] {
                check_cut(&engine, items, cut)?;
                assert!(&rt;
                    apart::are_right(&engine, i64::from(items), cut)?,
                    "{cut} of {items}"
                );
            }
        }
    }
    Ok(())
}

// A segment by one worker has leaves 0 to 3 alone.
#[test]
fn long_segments_have_all_workers(rt: HostRuntime) -> Result<(), StreamError> {
    for &(name, terminal, _) in &ALL {
        if !matches!(terminal, Terminal::Behind(_)) {
            continue;
        }
        let gate = &Workers::from_leaf(4, 4);
        let run = Run {
            workers: 4,
            target: 0,
            gate,
        };
        let engine = Engine::new(&rt, rt.alloc(), &run)?;
        let is_right = is_right(&engine, terminal, 1 << 17)?;
        let (_, missed) = gate.counts();
        assert!(rt;
            is_right && missed == 0 && gate.workers() == 4,
            "{name}: {is_right}, {missed}"
        );
    }
    Ok(())
}

// The fronts of the greatest range, which nobody could read.
#[test]
fn fronts_of_a_great_source_end(rt: HostRuntime) -> Result<(), StreamError> {
    let end = 1 << 62;
    let run = Run {
        workers: 4,
        target: 0,
        gate: &Workers::new(0, 1),
    };
    let engine = Engine::new(&rt, rt.alloc(), &run)?;
    for cut in [0, 1, 5_000, 100_000] {
        for behind in [behind::Behind::Limit, behind::Behind::TakeWhile] {
            let found = behind::sum_behind(&engine, behind, end, cut)?;
            assert!(rt; found == sum_of(cut), "{cut}: {found}");
        }
        assert!(rt; apart::are_right(&engine, end, cut)?, "{cut}");
        let found = behind::first_behind(&engine, numbers_below(&rt, end), cut)?;
        assert!(rt; found == Some(i64::from(cut)), "{cut}: {found:?}");
    }
    Ok(())
}

// Of a long text the lines behind a front stay unread, so that no leaf of a later segment is entered.
#[test]
fn fronts_of_a_long_text_end(rt: HostRuntime) -> Result<(), StreamError> {
    let mut text = String::new(rt.alloc());
    for _ in 0..1 << 18 {
        text.push_str("line\n")?;
    }
    for front in [1, 5_000] {
        let gate = &Workers::new(0, 1);
        let run = Run::new(4).with_gate(gate);
        let engine = Engine::new(&rt, rt.alloc(), &run)?;
        let lines = of(LinesSplit::new(text.as_str())).limit(front as u64);
        let count = lines.count_on(&engine)?;
        let (leaves, _) = gate.counts();
        assert!(rt;
            count == front && leaves <= 64,
            "{front}: {count}, {leaves} leaves"
        );
    }
    Ok(())
}
