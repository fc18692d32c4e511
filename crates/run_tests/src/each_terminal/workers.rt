//! The gate that counts workers and leaves.

use std::hint;
use std::sync::atomic::{AtomicU64, Ordering};
use stealing_pool::Gate;

/// The most turns for which a worker is held.
const TURNS: u64 = 50_000_000;

/// Counts the leaves that are entered. Each run has as many leaves, and holds each worker at its first leaf from a number on until as many workers as
/// are wanted have come to one of that run.
#[derive(Drop)]
pub struct Workers {
    wanted: u32,
    leaves: u64,
    from: usize,
    entered: AtomicU64,
    // of the runs, in turn, a bit for each worker that has entered a leaf
    came: [AtomicU64; 2],
    missed: AtomicU64,
}

impl Workers {
    pub fn new(wanted: u32, leaves: u64) -> Workers {
        Workers::with_leaves(wanted, leaves, 0)
    }

    /// The same of all runs as one, and of the leaves from this number on.
    pub fn from_leaf(wanted: u32, from: usize) -> Workers {
        Workers::with_leaves(wanted, u64::MAX, from)
    }

    fn with_leaves(wanted: u32, leaves: u64, from: usize) -> Workers {
        Workers {
            wanted,
            leaves,
            from,
            entered: AtomicU64::new(0),
            came: [AtomicU64::new(0), AtomicU64::new(0)],
            missed: AtomicU64::new(0),
        }
    }

    /// How many leaves were entered, and how many workers waited in vain for the others.
    pub fn counts(&self) -> (u64, u64) {
        (
            self.entered.load(Ordering::SeqCst),
            self.missed.load(Ordering::SeqCst),
        )
    }

    /// How many workers came to a leaf from that number on, of the first run.
    pub fn workers(&self) -> u32 {
        self.came[0].load(Ordering::SeqCst).count_ones()
    }

    /// Turns until as many workers have come as are wanted.
    fn wait_for_all(&self, came: &AtomicU64) {
        for _ in 0..TURNS {
            if came.load(Ordering::SeqCst).count_ones() >= self.wanted {
                return;
            }
            hint::spin_loop();
        }
        self.missed.fetch_add(1, Ordering::SeqCst);
    }
}

impl Gate for Workers {
    fn before_leaf(&self, worker: u32, leaf: usize) {
        let run = self.entered.fetch_add(1, Ordering::SeqCst) / self.leaves.max(1);
        let came = &self.came[usize::from(run % 2 == 1)];
        let own = 1 << (worker % 64);
        if leaf >= self.from && came.fetch_or(own, Ordering::SeqCst) & own == 0 {
            self.wait_for_all(came);
        }
    }

    fn after_leaf(&self, _worker: u32, _leaf: usize) {}
}
