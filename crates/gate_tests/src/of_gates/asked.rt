//! Where a run asks whether it is to end.

use super::doubles::{Counts, Ticks};
use collectors::SummingLong;
use gates::{Deadline, Ended, Until};
use line_blocks::LinesError;
use line_readers::{LineStream, OwnLine, lines_of};
use parallel_streams::{Engine, Run, Stream, of};
use sources::RangeSplit;
use spliterator::NoMemory;
use stages::WrapAdd;
use std::process::Abort;
use std::sync::Wait;
use std::test::Fail;
use std::thread::Threads;
use std::time::{Clock, Duration, Instant};
use stealing_pool::Gate;
use stream_functions::{Above, Itself, Negated, Plus};
use terminals::Terminals;

/// What is made of numbers.
#[derive(Clone, Copy)]
enum Task {
    Sum,
    Join,
    Report,
    First,
    Any,
    List,
    Sort,
    SortByKey,
    Concat,
}

/// What stands in front of a task.
#[derive(Clone, Copy)]
enum Before {
    Nothing,
    Limit,
    Distinct,
}

/// A task, what stands in front of it, the numbers from 1 up to so many, the estimate of a leaf or 0 where nobody heeds leaves, what the task makes of them, and what is asked in turn: before
/// a (r)un, a (l)eaf, a (c)ombination, a barrier's (p)ass and each list of it, the (f)inish of a container, (k)eys, a (s)ort, and (w)ithin a leaf, after each
/// stretch of 1,024 items: also a last one that is shorter, where it is read as a block. Where there is no leaf, after 1, 4, 16, 64, 256 items, and so on.
static ASKED: [(Task, Before, i64, u64, i64, &str); 23] = [
    (Task::Sum, Before::Nothing, 1, 0, 1, "rwf"),
    (Task::Join, Before::Nothing, 100, 0, 5_050, "rwwwwf"),
    (Task::List, Before::Nothing, 5_000, 0, 5_000, "rwwwwwwwwwf"),
    (Task::First, Before::Nothing, 5_000, 0, 1, "rwf"),
    (Task::Any, Before::Nothing, 100, 0, 0, "rwwww"),
    (Task::Any, Before::Nothing, 10_000, 0, 1, "rwwwwwwwwwwwww"),
    (Task::Sum, Before::Nothing, 2, 1, 3, "rllcf"),
    (Task::Sum, Before::Nothing, 4, 1, 10, "rllllcccf"),
    (
        Task::Sum,
        Before::Nothing,
        5_000,
        5_000,
        12_502_500,
        "rlwwwwf",
    ),
    (Task::Join, Before::Nothing, 2, 1, 3, "rllcf"),
    (Task::Report, Before::Nothing, 2, 1, 3, "rllcf"),
    (Task::First, Before::Nothing, 2, 1, 1, "rlf"),
    (Task::Any, Before::Nothing, 2, 1, 0, "rllc"),
    (Task::List, Before::Nothing, 2, 1, 2, "rllf"),
    (Task::List, Before::Nothing, 5_000, 5_000, 5_000, "rlwwwwf"),
    (Task::Sort, Before::Nothing, 2, 1, 1, "rllfs"),
    (Task::SortByKey, Before::Nothing, 2, 1, 2, "rllfks"),
    (Task::Concat, Before::Nothing, 2, 1, 6, "rllcrllccf"),
    (Task::Sum, Before::Limit, 2, 1, 3, "rllcprlwlwcf"),
    (
        Task::Sum,
        Before::Limit,
        5_000,
        5_000,
        12_502_500,
        "rlwwprlwwwrlwwprlwwwcf",
    ),
    (Task::Any, Before::Limit, 2, 1, 0, "rllcprlwlwc"),
    (
        Task::Any,
        Before::Limit,
        5_000,
        5_000,
        0,
        "rlwwprlwwwrlwwprlwwwc",
    ),
    (
        Task::Sum,
        Before::Distinct,
        5_000,
        1_250,
        12_502_500,
        "rlwlwcppprlwwlwwcrlwlwcppprlwwlwwccf",
    ),
];

fn first_of(numbers: &[i64]) -> i64 {
    match numbers.first() {
        Some(first) => *first,
        None => 0,
    }
}

fn made_of<R: Threads + Clock + Sync, H: Gate + Sync, X: Stream<Item = i64> + Sync>(
    engine: &Engine<'_, R, H>,
    items: &X,
    task: Task,
) -> Result<i64, NoMemory>
    requires { X.ready items.now }
{
    let sum = SummingLong::new(Itself);
    match task {
        Task::Sum => items.collect_on(engine, &sum),
        Task::Join => Ok(
            items
                .reduce_optional_on(engine, &WrapAdd::new())?
                .unwrap_or(0),
        ),
        Task::Report => match items.collect_reported(engine.rt, engine.alloc, &engine.run, &sum) {
            Ok((made, _report)) => Ok(made),
            Err(_) => Err(NoMemory),
        },
        Task::First => Ok(items.find_first_on(engine)?.unwrap_or(0)),
        Task::Any => Ok(i64::from(items.any_match_on(engine, &Above(9_000))?)),
        Task::List => Ok(items.to_list(engine)?.len() as i64),
        Task::Sort => Ok(first_of(&items.sorted(engine)?)),
        Task::SortByKey => Ok(first_of(&items.sorted_by_key(engine, &Negated)?)),
        Task::Concat => items.concat(engine, items, &sum),
    }
}

fn made<R: Threads + Clock + Sync, H: Gate + Sync, X: Stream<Item = i64> + Drop + Sync>(
    engine: &Engine<'_, R, H>,
    items: X,
    before: Before,
    task: Task,
) -> Result<i64, NoMemory>
    requires { X.ready items }
{
    match before {
        Before::Nothing => made_of(engine, &items, task),
        Before::Limit => made_of(engine, &items.limit(9_000), task),
        Before::Distinct => made_of(engine, &items.distinct(), task),
    }
}

/// Lines of a reader: whether a barrier stands behind them, whether they are handed on one by one, and what is asked.
static ASKED_OF_LINES: [(bool, bool, &str); 4] = [
    (false, false, "rllccf"),
    (true, false, "rllfprlwlwccf"),
    (false, true, "rllcf"),
    (true, true, "rllfprllcf"),
];

fn number_of<R: Threads + Clock + Wait + Sync, H: Gate + Sync, L: LineStream<Item = String>>(
    engine: &Engine<'_, R, H>,
    lines: L,
    is_handed: bool,
) -> Result<i64, LinesError>
    requires { L.ready lines }
{
    if !is_handed {
        return lines.count_on(engine);
    }
    let mut list = Vec::new(engine.alloc);
    lines.for_each_ordered(engine, &mut list)?;
    Ok(list.len() as i64)
}

/// A moment so many readings of a clock behind the next one.
fn moment(clock: &Ticks, readings: usize) -> Result<Instant, Fail> {
    let next = Instant::now(clock)?;
    match next.checked_add(Duration::from_millis((readings as u64).saturating_add(1))) {
        Some(at) => Ok(at),
        None => Ok(next),
    }
}

/// Whether it was told as it should be: up to the end of what is asked a halt, with so many leaves begun as were asked for, and there the value.
fn is_told(
    until: &Until<'_, Deadline<'_, Ticks>, Counts>,
    answer: Option<i64>,
    wanted: i64,
    asked: &str,
    place: usize,
) -> bool {
    let mut leaves = 0u64;
    for &letter in asked.as_bytes().iter().take(place) {
        if letter == b'l' {
            leaves = leaves.saturating_add(1);
        }
    }
    let is_right = match answer {
        Some(value) => place == asked.len() && value == wanted,
        None => place < asked.len() && matches!(until.ended(NoMemory), Ended::Halted(_)),
    };
    is_right && until.gate.begun() == leaves
}

#[test]
fn a_halt_is_noticed_wherever_it_is_asked(rt: HostRuntime) -> Result<(), Fail> {
    for &(task, before, last, target, wanted, asked) in &ASKED {
        for place in 0..=asked.len() {
            let (clock, gate) = (Ticks::of(1), Counts::heeding(target > 0));
            let at = moment(&clock, place)?;
            let until = Until {
                halt: Deadline { clock: &clock, at },
                gate: &gate,
            };
            let run = Run {
                workers: 1,
                target,
                gate: &until,
            };
            let engine = Engine::new(&rt, rt.alloc(), &run).expect(&rt, "an engine");
            let numbers = of(RangeSplit::range(0, last).expect(&rt, "a range")).map(Plus(1));
            let answer = made(&engine, numbers, before, task).ok();
            assert!(&rt;
                is_told(&until, answer, wanted, asked, place),
                "{asked} {place} {}",
                gate.begun()
            );
        }
    }
    Ok(())
}

#[test]
fn a_halt_of_lines_is_noticed_wherever_it_is_asked(rt: HostRuntime) -> Result<(), Fail> {
    for &(is_barred, is_handed, asked) in &ASKED_OF_LINES {
        for place in 0..=asked.len() {
            let (clock, gate) = (Ticks::of(1), Counts::new());
            let at = moment(&clock, place)?;
            let until = Until {
                halt: Deadline { clock: &clock, at },
                gate: &gate,
            };
            let run = Run {
                workers: 1,
                target: 1,
                gate: &until,
            };
            let engine = Engine::new(&rt, rt.alloc(), &run).expect(&rt, "an engine");
            let lines = lines_of(b"a\nb\n".as_slice()).map_lines(OwnLine { alloc: rt.alloc() });
            let answer = if is_barred {
                number_of(&engine, lines.limit(9), is_handed)
            } else {
                number_of(&engine, lines, is_handed)
            };
            assert!(&rt;
                is_told(&until, answer.ok(), 2, asked, place),
                "{asked} {place} {}",
                gate.begun()
            );
        }
    }
    Ok(())
}
