//! A gate that keeps which worker ran which leaf, and when.

use crate::drawing::{Bar, Drawing};
use crate::stopwatch::Stopwatch;
use spliterator::NoMemory;
use std::alloc::Global;
use std::fmt::{self, Display, Formatter, Write};
use std::sync::atomic::{AtomicU64, Ordering};
use std::time::Clock;
use stealing_pool::Gate;

/// The most workers of a run.
const WORKERS: usize = 64;

/// What is kept of a leaf that has ended.
#[derive(Drop)]
struct Slot {
    run: AtomicU64,
    worker: AtomicU64,
    leaf: AtomicU64,
    begin: AtomicU64,
    end: AtomicU64,
}

impl Slot {
    fn new() -> Slot {
        Slot {
            run: AtomicU64::new(0),
            worker: AtomicU64::new(0),
            leaf: AtomicU64::new(0),
            begin: AtomicU64::new(0),
            end: AtomicU64::new(0),
        }
    }

    fn bar(&self) -> Bar {
        Bar {
            run: self.run.load(Ordering::SeqCst),
            worker: self.worker.load(Ordering::SeqCst),
            leaf: self.leaf.load(Ordering::SeqCst),
            begin: self.begin.load(Ordering::SeqCst),
            end: self.end.load(Ordering::SeqCst),
        }
    }
}

/// Keeps of the first leaves that end, in memory for so many, which worker ran each, in which run, and when it began and ended. Its text is a picture
/// of them as SVG, a row a worker and a bar a leaf, for when its runs, one after another, are over.
///
/// ```text
/// let timeline = Timeline::new(&rt, rt.alloc(), 10_000)?;
/// let engine = Engine::new(&rt, rt.alloc(), &Run::new(4).with_gate(&timeline))?;
/// let sum = numbers.sum(&engine)?;
/// write!(fs::create(&rt, "sum.svg")?, "{timeline}")?;
/// ```
#[derive(Drop)]
pub struct Timeline<'a, R> {
    watch: Stopwatch<'a, R>,
    runs: AtomicU64,
    // when each worker's present leaf began
    began: Vec<AtomicU64>,
    ended: AtomicU64,
    slots: Vec<Slot>,
}

impl<'a, R: Clock> Timeline<'a, R> {
    /// Of at most so many leaves, from now on.
    pub fn new(clock: &'a R, alloc: Global, most: usize) -> Result<Timeline<'a, R>, NoMemory> {
        let mut began = Vec::with_capacity(alloc, WORKERS)?;
        for _ in 0..WORKERS {
            began.push(AtomicU64::new(0))?;
        }
        let mut slots = Vec::with_capacity(alloc, most)?;
        for _ in 0..most {
            slots.push(Slot::new())?;
        }
        Ok(Timeline {
            watch: Stopwatch::new(clock),
            runs: AtomicU64::new(0),
            began,
            ended: AtomicU64::new(0),
            slots,
        })
    }
}

impl<R: Clock> Gate for Timeline<'_, R> {
    fn before_run(&self, _leaves: usize) {
        self.runs.fetch_add(1, Ordering::SeqCst);
    }

    fn before_leaf(&self, worker: u32, _leaf: usize) {
        if let Some(began) = self.began.get(worker as usize) {
            began.store(self.watch.nanos(), Ordering::SeqCst);
        }
    }

    fn after_leaf(&self, worker: u32, leaf: usize) {
        let place = self.ended.fetch_add(1, Ordering::SeqCst);
        let place = usize::try_from(place).unwrap_or(usize::MAX);
        if let (Some(slot), Some(began)) = (
            self.slots.get(place),
            self.began.get(worker as usize),
        ) {
            let run = self.runs.load(Ordering::SeqCst);
            slot.run.store(run, Ordering::SeqCst);
            slot.worker.store(u64::from(worker), Ordering::SeqCst);
            slot.leaf.store(leaf as u64, Ordering::SeqCst);
            slot.begin
                .store(began.load(Ordering::SeqCst), Ordering::SeqCst);
            slot.end.store(self.watch.nanos(), Ordering::SeqCst);
        }
    }
}

impl<R: Clock> Display for Timeline<'_, R> {
    fn fmt<W: Write>(&self, f: &mut Formatter<W>) -> fmt::Result {
        let ended = self.ended.load(Ordering::SeqCst);
        let runs = self.runs.load(Ordering::SeqCst);
        let mut drawing = Drawing::new(runs, ended);
        for slot in &self.slots {
            let bar = slot.bar();
            if bar.run > 0 {
                drawing.add(&bar);
            }
        }
        drawing.write_frame(f)?;
        drawing.write_title(f)?;
        drawing.write_axis(f)?;
        for worker in 0..drawing.workers {
            write_row(f, &drawing, self.slots.as_slice(), worker)?;
        }
        writeln!(f, "</svg>")
    }
}

/// Writes a worker's row. Where no leaf was kept the run is 0.
fn write_row<W: Write>(
    f: &mut Formatter<W>,
    drawing: &Drawing,
    slots: &[Slot],
    worker: u64,
) -> fmt::Result {
    drawing.write_row(f, worker)?;
    let mut busy = 0u64;
    for slot in slots {
        let bar = slot.bar();
        if bar.run > 0 && bar.worker == worker {
            drawing.write_bar(f, &bar)?;
            busy = busy.saturating_add(bar.nanos());
        }
    }
    drawing.write_row_end(f, busy)
}
