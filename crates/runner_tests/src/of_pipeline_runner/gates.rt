//! The gate of the tests. The program's own gate and this one are each a copy of the whole run in the compiled tests.

use pipeline_runner::Gate;
use std::hint;
use std::sync::atomic::{AtomicU64, Ordering};

/// The most turns for which a worker is held.
const TURNS: u64 = 50_000_000;

/// Counts the leaves that were entered and ended, and the calls of no worker. It may hold the first worker at its first leaf until another
/// worker has entered a leaf, or leaf 0 of one run until another worker has, or each worker at its first leaf of each run until so many have come to one.
#[derive(Drop)]
pub struct Watch {
    holds: bool,
    held_run: u64,
    // the workers of each run, and its leaves
    wanted: u32,
    leaves: u64,
    runs: AtomicU64,
    /// A bit for each worker that has entered a leaf, and that has entered one of each run, in turn.
    workers: AtomicU64,
    came: [AtomicU64; 2],
    entered: AtomicU64,
    ended: AtomicU64,
    strays: AtomicU64,
    missed: AtomicU64,
}

impl Watch {
    /// A gate that holds the first worker, or that only counts.
    pub fn new(holds: bool) -> Watch {
        Watch {
            holds,
            held_run: 0,
            wanted: 0,
            leaves: 1,
            runs: AtomicU64::new(0),
            workers: AtomicU64::new(0),
            came: [AtomicU64::new(0), AtomicU64::new(0)],
            entered: AtomicU64::new(0),
            ended: AtomicU64::new(0),
            strays: AtomicU64::new(0),
            missed: AtomicU64::new(0),
        }
    }

    /// A gate that holds leaf 0 of one run until another worker has entered a leaf. Runs are counted from 1.
    pub fn of_run(run: u64) -> Watch {
        let mut gate = Watch::new(false);
        gate.held_run = run;
        gate
    }

    /// A gate that holds each worker at its first leaf of a run until so many have come to one. Each run but the last has so many leaves.
    pub fn of_workers(wanted: u32, leaves: u64) -> Watch {
        let mut gate = Watch::new(false);
        gate.wanted = wanted;
        gate.leaves = leaves.max(1);
        gate
    }

    /// How many leaves were entered and ended, and how many calls were no worker's.
    pub fn calls(&self) -> (u64, u64, u64) {
        (
            self.entered.load(Ordering::SeqCst),
            self.ended.load(Ordering::SeqCst),
            self.strays.load(Ordering::SeqCst),
        )
    }

    /// How many workers have entered a leaf.
    pub fn worker_count(&self) -> u32 {
        self.workers.load(Ordering::SeqCst).count_ones()
    }

    /// Whether the first worker was held in vain.
    pub fn was_missed(&self) -> bool {
        self.missed.load(Ordering::SeqCst) > 0
    }

    /// Counts a call of a worker, which has to be one of the 64. Answers how many came before.
    fn count(&self, calls: &AtomicU64, worker: u32) -> u64 {
        if worker >= 64 {
            self.strays.fetch_add(1, Ordering::SeqCst);
        }
        calls.fetch_add(1, Ordering::SeqCst)
    }

    /// Turns until as many workers have come as are wanted, where this one comes first to a leaf of the run.
    fn meet(&self, run: u64, own: u64) {
        let came = &self.came[usize::from(run % 2 == 1)];
        if came.fetch_or(own, Ordering::SeqCst) & own != 0 {
            return;
        }
        for _ in 0..TURNS {
            if came.load(Ordering::SeqCst).count_ones() >= self.wanted {
                return;
            }
            hint::spin_loop();
        }
        self.missed.fetch_add(1, Ordering::SeqCst);
    }

    /// Turns until the number is at least this.
    fn wait_for(&self, number: &AtomicU64, least: u64) {
        for _ in 0..TURNS {
            if number.load(Ordering::SeqCst) >= least {
                return;
            }
            hint::spin_loop();
        }
        self.missed.fetch_add(1, Ordering::SeqCst);
    }
}

impl Gate for Watch {
    fn before_leaf(&self, worker: u32, leaf: usize) {
        let before = self.count(&self.entered, worker);
        let own = 1 << (worker % 64);
        self.meet(before / self.leaves.max(1), own);
        if self.workers.fetch_or(own, Ordering::SeqCst) == 0 && self.holds {
            // another worker's bit makes a greater number of them
            self.wait_for(&self.workers, own.wrapping_add(1));
        }
        if leaf == 0 {
            let runs = self.runs.fetch_add(1, Ordering::SeqCst).wrapping_add(1);
            if runs == self.held_run {
                self.wait_for(&self.workers, own.wrapping_add(1));
            }
        }
    }

    fn after_leaf(&self, worker: u32, _leaf: usize) {
        self.count(&self.ended, worker);
    }
}
