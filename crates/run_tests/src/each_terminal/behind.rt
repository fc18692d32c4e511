//! Sums behind each barrier, and of two streams.

use super::workers::Workers;
use super::{numbers, numbers_below, sum_of};
use collectors::SummingLong;
use parallel_streams::{Engine, Stream};
use spliterator::NoMemory;
use std::process::Abort;
use std::thread::Threads;
use std::time::Clock;
use stream_functions::{Below, Itself};
use terminals::Terminals;

#[derive(Clone, Copy)]
pub enum Behind {
    Limit,
    Skip,
    TakeWhile,
    DropWhile,
    Distinct,
    Concat,
}

impl Behind {
    /// Whether its stream runs by segments.
    pub fn has_segments(self) -> bool {
        match self {
            Behind::Concat => false,
            Behind::Limit | Behind::Skip | Behind::TakeWhile => true,
            Behind::DropWhile | Behind::Distinct => true,
        }
    }
}

// The sum of what a barrier leaves of some numbers: the front that is as long as a cut or below it, what follows, all, or all and others.
fn sum_left<R: Threads + Clock + Sync, X: Stream<Item = i64> + Drop + Sync>(
    engine: &Engine<'_, R, Workers>,
    all: X,
    others: X,
    behind: Behind,
    cut: u32,
) -> Result<i64, NoMemory>
    requires all { X.ready all }
    requires others { X.ready others }
{
    let (place, test) = (u64::from(cut), Below(i64::from(cut)));
    let sum = SummingLong::new(Itself);
    match behind {
        Behind::Limit => all.limit(place).collect_on(engine, &sum),
        Behind::Skip => all.skip(place).collect_on(engine, &sum),
        Behind::TakeWhile => all.take_while(test).collect_on(engine, &sum),
        Behind::DropWhile => all.drop_while(test).collect_on(engine, &sum),
        Behind::Distinct => all.distinct().collect_on(engine, &sum),
        Behind::Concat => all.concat(engine, &others, &sum),
    }
}

/// The first of some numbers behind so many.
pub fn first_behind<R: Threads + Clock + Sync, X: Stream<Item = i64> + Drop + Sync>(
    engine: &Engine<'_, R, Workers>,
    all: X,
    cut: u32,
) -> Result<Option<i64>, NoMemory>
    requires { X.ready all }
{
    all.skip(u64::from(cut)).find_first_on(engine)
}

/// The sum of what a barrier leaves of the numbers from 0 up to an end: those below a cut, those from it on, or all.
pub fn sum_behind<R: Threads + Clock + Abort + Sync>(
    engine: &Engine<'_, R, Workers>,
    behind: Behind,
    end: i64,
    cut: u32,
) -> Result<i64, NoMemory> {
    let rt = engine.rt;
    let (all, others) = (numbers_below(rt, end), numbers(rt, cut));
    sum_left(engine, all, others, behind, cut)
}

/// Which sum that is, of so many numbers.
pub fn wanted(behind: Behind, items: u32, cut: u32) -> i64 {
    let (all, front) = (sum_of(items), sum_of(cut.min(items)));
    match behind {
        Behind::Limit | Behind::TakeWhile => front,
        Behind::Skip | Behind::DropWhile => all.wrapping_sub(front),
        Behind::Distinct => all,
        Behind::Concat => all.wrapping_add(sum_of(cut)),
    }
}

/// Whether the sum of so many numbers is right, of which a barrier leaves all.
pub fn is_right<R: Threads + Clock + Abort + Sync>(
    engine: &Engine<'_, R, Workers>,
    behind: Behind,
    items: u32,
) -> Result<bool, NoMemory> {
    let cut = match behind {
        Behind::Skip | Behind::DropWhile => 0,
        Behind::Limit | Behind::TakeWhile | Behind::Distinct | Behind::Concat => items,
    };
    let found = sum_behind(engine, behind, i64::from(items), cut)?;
    Ok(found == wanted(behind, items, cut))
}
